//! The rows that a SQLite database keeps, read from what it shows of them.
#![tactic(auto)]

mod cells;
mod listed;
mod loaded;
mod single;
mod sql;
mod whole;

pub use listed::load_fault;
pub use sql::rows_of;
pub use whole::read_rows;
