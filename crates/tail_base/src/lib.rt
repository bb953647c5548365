//! The small types that everything stands on: texts and lists that may want memory, keys, and the
//! checked texts of names.
#![tactic(auto)]

mod ascii;
mod bytes;
mod failure;
mod items;
mod key;
mod label;
mod laws;
mod limits;
mod login;
mod memory;
mod naming;
mod numerals;
mod secret;
mod sorted;
mod tag;
mod text;

pub use bytes::Bytes;
pub use failure::Failure;
pub use items::Items;
pub use key::{DiscoKey, MachineKey, NodeKey};
pub use label::Label;
pub use laws::{
    key_texts_differ, labels_are_read_again, logins_are_read_again, searches_find,
    sorted_lists_rise, tags_are_read_again, the_numbers_are_these,
};
pub use limits::POLICY_LIMIT;
pub use login::Login;
pub use memory::{Duplicate, NoMemory};
pub use numerals::{digits_in, number_in, short_numeral};
pub use secret::is_same_secret;
pub use sorted::sorted_once;
pub use tag::Tag;
pub use text::Text;
