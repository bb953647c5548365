//! The commands `explain` and `reach`: why a flow is granted, and which machine reaches which, over what a store keeps.
#![tactic(auto)]

mod answering;
mod explaining;
mod law;
mod opened;
mod question;

pub use explaining::{explain_command, reach_command};
pub use law::explaining_completeness;
pub use question::Question;
