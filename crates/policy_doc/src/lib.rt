//! A policy's text (<https://tailscale.com/kb/1337/policy-syntax>), read as its document or its first
//! fault.
#![tactic(auto)]

mod acls;
mod approvers;
mod document;
mod grants;
mod groups;
mod hosts;
mod keys;
mod laws;
mod limits;
mod owner;
mod proto;
mod routes;
mod tags;
mod testing;
mod walk;

pub use document::read_policy;
pub use laws::{
    first_faults_count, first_faulty_grants_count, policies_are_sound,
    texts_without_grants_read_as_before, the_numbers_are_these,
};
pub use limits::{ENTRY_LIMIT, LIST_LIMIT, RULE_LIMIT};
