//! What runs `serve` over memory objects, and the top call, for tests.
#![tactic(auto)]

mod given;
mod runs;
mod top;

pub use given::{Given, given_with, noon};
pub use runs::{
    NOTHING, POLLING, ServeFails, ServeRun, answers_of, door_with, has_bytes, one_door,
    requests_of, run_over, served,
};
pub use top::{FIRST, top_over};
