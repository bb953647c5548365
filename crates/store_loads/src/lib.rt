//! What a SQLite database tells of the tables of a tailnet, and how they are loaded.
#![tactic(auto)]

mod forms;
mod schema;
mod tables;

pub use tables::load;
