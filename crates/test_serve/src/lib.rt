//! Tests of whole runs of `serve` over listeners in memory.
#![tactic(auto)]

#[cfg(test)]
mod doors;
#[cfg(test)]
mod served_talks;
