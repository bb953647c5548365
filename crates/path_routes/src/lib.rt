//! The paths of the server, and what a path leads to.
#![tactic(auto)]

mod found;
mod laws;
mod paths;
mod route;
mod segments;
mod table;

pub use found::Found;
pub use laws::{only_these_paths_lead, paths_lead, the_paths_are_these};
pub use paths::{Paths, owner_in, text_of};
pub use route::Route;
pub use table::PATHS;
