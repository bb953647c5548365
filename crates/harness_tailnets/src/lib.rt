//! A small tailnet and an office's as tables, and policies over the small one, for tests.
#![tactic(auto)]

mod policies;
mod tailnets;

pub use policies::{EXIT_RULES, ROUTER_RULES, stated_policy};
pub use tailnets::{OFFICE_LIVE, SMALL_LIVE, office_tables, small_tables};
