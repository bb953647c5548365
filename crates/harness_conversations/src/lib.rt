//! Conversations as lines of a text (`harness_pipe` says how they are written), and policies, for tests.
#![tactic(auto)]

mod grants;
mod lives;
mod office;
mod policies;
mod polls;
mod routes;
mod worked;

pub use grants::{GRANTS, KEPT_GRANTS};
pub use lives::LIVES;
pub use office::{OFFICE, OFFICE_GRANTS};
pub use policies::{KEPT, SAVES, TAGS, TESTS};
pub use polls::FAULTED_POLLS;
pub use routes::{FIRST_ROUTER, ROUTE_BODIES, ROUTE_ROWS};
pub use worked::{POLLS, WORKED};
