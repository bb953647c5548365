//! A row of asks at a desk over a database whose disks fail at a call, and what new starts find behind it.
#![tactic(auto)]

mod runs;
mod script;
mod stopping;
mod tables;

pub use runs::{Asked, Run, run_from};
pub use script::Script;
pub use stopping::{
    Ending, LEFTS, MANY, StartFinds, TriedStop, ending_of, found_by, goes_on, is_tried_elsewhere,
    stopped, stops,
};
pub use tables::{KINDS, are_everywhere};
