//! Conversations of refused requests, and of extra records, as lines of a text (`harness_pipe` says how they are written), for
//! tests.
#![tactic(auto)]

mod extras;
mod refusals;

pub use extras::{FAULTY_RECORDS, RECORDS};
pub use refusals::{FAULTY_BODIES, REFUSALS};
