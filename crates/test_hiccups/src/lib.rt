//! Tests of a desk over a database at one call of whose disks fails, and all others pass.
#![tactic(auto)]

#[cfg(test)]
mod failed_once;
