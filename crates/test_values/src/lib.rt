//! Tests of the low crates, as a table of texts, with ample memory. They stand here since a crate
//! with tests is proved twice.
#![tactic(auto)]

#[cfg(test)]
mod bytes;
#[cfg(test)]
mod cases;
#[cfg(test)]
mod names;
#[cfg(test)]
mod ports;
#[cfg(test)]
mod sets;
#[cfg(test)]
mod texts;
