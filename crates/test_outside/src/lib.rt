//! Tests of the edge: the adapters and objects of the outside, requests of bytes, paths that lead nowhere.
#![tactic(auto)]

#[cfg(test)]
mod edges;
#[cfg(test)]
mod keepers;
#[cfg(test)]
mod paths;
#[cfg(test)]
mod pauses;
#[cfg(test)]
mod requests;
#[cfg(test)]
mod tcp;
