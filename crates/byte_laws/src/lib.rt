//! What the bytes of a poll's answer tell, up to whole runs. No function here does anything: each states
//! a law.
#![tactic(auto)]

mod drains;
mod polls;
mod runs;

pub use drains::drains_reply_in_order;
pub use polls::{clients_fold_what_they_read, polls_are_read_back};
pub use runs::{connections_are_read_back, runs_are_read_back};
