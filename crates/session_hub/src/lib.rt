//! One desk that many callers share, as if each call were alone.
#![tactic(auto)]

mod call;
mod hub;
mod hub_turns;
mod known;
mod plays;
mod seat;
mod steps;

pub use hub::Hub;
pub use hub_turns::HubTurns;
pub use known::{Known, Line, Portion, Stage};
pub use seat::Seat;
