//! Tests of a shelf of frames, as tables of lines.
#![tactic(auto)]

#[cfg(test)]
mod parts;
#[cfg(test)]
mod rows;
