//! What the faults of policies mean: laws of how a text is read, and nothing that is done.
#![tactic(auto)]

mod laws;

pub use laws::first_failing_checks_count;
