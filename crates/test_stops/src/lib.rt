//! Tests of a desk over a database whose disks stop at a call: what a new start finds there, and how it goes on.
#![tactic(auto)]

#[cfg(test)]
mod stopped;
