//! How runs end: their statuses, the lines that they leave on standard error, and bytes written whole.
#![tactic(auto)]

mod closed;
mod ended;
mod noting;
mod status;
mod writing;

pub use closed::Closed;
pub use ended::{Ended, status_of};
pub use noting::{note, note_line, note_usage};
pub use status::Status;
pub use writing::{send, write_all};
