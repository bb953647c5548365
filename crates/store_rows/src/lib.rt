//! Rows as a database stores them, and what they are read as: a row is read exactly where it is the
//! stored row of a value. Nothing here knows the database.
#![tactic(auto)]

mod addresses;
mod auth_key;
mod cell;
mod column;
mod extra;
mod fixed;
mod grouped;
mod keys;
mod laws;
mod list;
mod listed;
mod machine;
mod meta;
mod names;
mod part;
mod pending;
mod policy;
mod routes;
mod same;
mod scalars;
mod tags;
mod user;
mod utf8;

pub use auth_key::{read_auth_key, write_auth_key};
pub use cell::Cell;
pub use column::Column;
pub use extra::{read_extra, write_extra};
pub use laws::{rows_are_read_by_columns, stored_rows_are_read_again, stored_rows_differ};
pub use listed::Listed;
pub use machine::{read_machine, write_machine};
pub use meta::{read_meta, write_meta};
pub use pending::{read_pending, write_pending};
pub use policy::{read_policy_text, write_policy_text};
pub use user::{read_user, write_user};
