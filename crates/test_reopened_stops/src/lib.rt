//! Tests of a desk over a database whose disks stop, and stop again while it is opened.
#![tactic(auto)]

#[cfg(test)]
mod starts;
