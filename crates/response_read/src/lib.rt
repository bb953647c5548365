//! Responses of a map session, read: the JSON of `tailcfg.MapResponse` as a client takes it.
#![tactic(auto)]

mod dns;
mod filters;
mod members;
mod misfit;
mod nodes;
mod responses;
mod values;

pub use responses::read_response;
