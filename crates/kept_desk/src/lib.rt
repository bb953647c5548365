//! A desk that keeps the last frames of machines' sessions, so that a client that lost the end of
//! a poll is sent them again.
#![tactic(auto)]

mod keeping;
mod kept_desk;
mod owing;

pub use kept_desk::KeptDesk;
pub use owing::Owing;
