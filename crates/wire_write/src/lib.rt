//! The JSON of `tailcfg` that is written: responses of map sessions and answers to registrations; and the
//! words by which other JSON is written.
#![tactic(auto)]

mod addr_text;
mod dns;
mod filter;
mod groups;
mod joined;
mod json_form;
mod key_text;
mod lists;
mod marks;
mod members;
mod moment_text;
mod node;
mod numerals;
mod parts;
mod patch;
mod profile;
mod registered;
mod response;
mod response_parts;
mod routes;
mod token_form;
mod values;

pub use dns::record_type;
pub use joined::{append_before_peers, append_behind_peers, append_node};
pub use json_form::JsonForm;
pub use members::put_form;
pub use parts::text_value;
pub use registered::{login_at_text, registered_text};
pub use response::{append_response, response_text};
pub use response_parts::ResponseParts;
