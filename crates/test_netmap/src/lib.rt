//! Tests of a client that follows the map: what it takes as responses.
#![tactic(auto)]

#[cfg(test)]
mod bodies;
