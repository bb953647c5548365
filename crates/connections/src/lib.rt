//! One connection over a desk: its requests one after another, and their answers.
#![tactic(auto)]

mod answering;
mod law;
mod polling;
mod replying;
mod seated;
mod serving;
mod streaming;

pub use law::{answers_are_heard, nothing_follows_the_end};
pub use seated::serve_desk;
pub use serving::serve;
