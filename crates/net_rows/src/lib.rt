//! The rows of a tailnet's tables: users, keys, pending entries, machines, extra DNS records and the
//! policy; and tables that keep their rules whatever change is made.
#![tactic(auto)]

mod change;
mod check;
mod fits;
mod id;
mod key;
mod laws;
mod limits;
mod lists;
mod machine;
mod named;
mod pending;
mod rows;
mod shelf;
mod tables;
mod user;

pub use change::{Change, Counters, Damage, Kind, Row, RowKey};
pub use check::damage;
pub use fits::TableRow;
pub use id::HasId;
pub use key::AuthKey;
pub use laws::{rows_are_maps, sound_rows_have_no_damage, the_numbers_are_these};
pub use limits::{
    COUNTER_LIMIT, EXTRA_LIMIT, KEY_LIMIT, MACHINE_LIMIT, PENDING_LIMIT, TAG_LIMIT, USER_LIMIT,
};
pub use lists::Lists;
pub use machine::Machine;
pub use pending::Pending;
pub use rows::Rows;
pub use shelf::{Shelf, row_of};
pub use tables::Tables;
pub use user::User;
