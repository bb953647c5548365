//! A client that follows the map of its machine: what the responses of its session bring it to.
#![tactic(auto)]

mod follower;
mod laws;

pub use follower::{Follower, OutOfOrder};
pub use laws::views_are_folds;
