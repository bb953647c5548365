//! A row of asks at a desk over any keeper, and what comes of it, for tests.
#![tactic(auto)]

mod asks;
mod desks;
mod runs;
mod shown;

pub use asks::{LAST_CHANGE, QUESTION, script};
pub use desks::{Manner, ReplyKind, front_of, settings_of};
pub use runs::{DeskRun, Reached, asked, asked_in_memory};
