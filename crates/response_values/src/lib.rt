//! What the types of a response's fields say of its values, as facts. Nothing here changes or answers
//! anything: each function reads the numbers in a value, and what it promises is all that it is for.
#![tactic(auto)]

mod dns;
mod filters;
mod known;
mod nodes;
mod responses;
mod values;

pub use responses::known_values;
