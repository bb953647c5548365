//! Tests of the top call over memory objects: words, and the operator's commands.
#![tactic(auto)]

#[cfg(test)]
mod checks;
#[cfg(test)]
mod operators;
#[cfg(test)]
mod outside;
#[cfg(test)]
mod reopened;
#[cfg(test)]
mod words;
