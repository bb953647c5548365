//! The tables of a tailnet in a SQLite database: keepers over a store, and what opens them.
#![tactic(auto)]

mod host_keeper;
mod host_opener;
mod keeper;
mod opener;

pub use host_keeper::HostKeeper;
pub use host_opener::HostOpener;
pub use keeper::SqliteKeeper;
pub use opener::SqliteOpener;
