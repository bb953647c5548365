//! Tests of seats of one hub, one behind the other and in threads of their own.
#![tactic(auto)]

#[cfg(test)]
mod seats;
