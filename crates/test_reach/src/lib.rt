//! Tests of why flows are granted and of which machine reaches which, over two tailnets.
#![tactic(auto)]

#[cfg(test)]
mod cases;
#[cfg(test)]
mod filters;
