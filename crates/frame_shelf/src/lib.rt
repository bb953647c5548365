//! The last frames of machines' sessions, kept so that a client that lost the end of a poll can be sent them again.
#![tactic(auto)]

mod copying;
mod laws;
mod limits;
mod line;
mod shelf;

pub use laws::{reached_responses_follow, shelves_keep_their_rules};
pub use limits::{FRAME_BYTES, LINE_FRAMES, SHELF_LINES};
pub use shelf::FrameShelf;
