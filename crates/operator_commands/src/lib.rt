//! The operator's commands over a link: one request, and its answer on the output or on errors.
#![tactic(auto)]

mod asking;
mod exchanging;
mod filing;
mod law;
mod operating;
mod telling;
mod unanswered;

pub use law::the_numbers_are_these;
pub use operating::operator_command;
pub use unanswered::Unanswered;
