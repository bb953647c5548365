//! Changes of the tables as transactions of a SQLite database: what runs, and what it makes of the
//! tables.
#![tactic(auto)]

mod commits;
mod creation;
mod database_row;
mod fault;
mod sql;
mod values;

pub use commits::commit;
pub use creation::{FIRST, create};
pub use database_row::DatabaseRow;
pub use fault::Fault;
