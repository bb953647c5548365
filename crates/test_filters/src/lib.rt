//! Tests of maps and packet filters under policies, as conversations of `pipe`.
#![tactic(auto)]

#[cfg(test)]
mod filters;
