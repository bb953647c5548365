//! Runs of `pipe` over memory objects, and conversations as lines of a text, for tests.
#![tactic(auto)]

mod runs;
mod talks;

pub use runs::{
    CALM, PipeRun, Plan, SETTINGS, entropy_of, failing, files_of, piped, piped_behind, piped_over,
    tables_at, tables_with,
};
pub use talks::{Talk, cut, first_not_held, talk_bytes, talks_of};
