//! Tests of a desk over a database one of whose disks stops at a call, while the other goes on.
#![tactic(auto)]

#[cfg(test)]
mod alone;
