//! What a request asks of the desk, and the bytes of the desk's reply.
#![tactic(auto)]

mod action;
mod admin;
mod bodies;
mod faults;
mod front;
mod front_settings;
mod header;
mod machine;
mod poll;
mod refusals;
mod replies;
mod want;

pub use action::{Action, MachineAction, OperatorAction};
pub use front::Front;
pub use front_settings::FrontSettings;
pub use header::HeaderKey;
pub use poll::Poll;
pub use want::Wanted;
