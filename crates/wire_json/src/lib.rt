//! The JSON of requests, read: registrations and map requests of `tailcfg`; and the words by which
//! other bodies are read.
#![tactic(auto)]

mod admin_field;
mod body;
mod fault;
mod field;
mod map_request;
mod readers;
mod register;
mod spelled;

pub use admin_field::AdminField;
pub use body::{field_of, list_of_body, object_of_body};
pub use fault::WireFault;
pub use field::Field;
pub use map_request::read_map_request;
pub use readers::{flag_of, some_time_of};
pub use register::read_register;
pub use spelled::{Spelled, list_of, short_array};
