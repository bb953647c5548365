//! The rows of a policy, which is a Tailscale policy file
//! (<https://tailscale.com/kb/1337/policy-syntax>), and what single texts in it are read as:
//! selectors, destinations, flows and protocols; whom a selector names, and what the internet is. A policy's
//! fault has a code and a place.
#![tactic(auto)]

mod approver;
mod code;
mod dest;
mod escaping;
mod fault;
mod flow;
mod group;
mod host;
mod internet;
mod laws;
mod names;
mod naming;
mod nets;
mod part;
mod place;
mod policy;
mod ports;
mod protocols;
mod rule;
mod selecting;
mod selector;
mod tag_owner;
mod test;

pub use approver::Approver;
pub use code::PolicyCode;
pub use dest::{Dest, read_dest, read_test_dest};
pub use fault::{PolicyFault, fault_text, refused};
pub use flow::{Flow, read_flow};
pub use group::Group;
pub use host::Host;
pub use internet::{
    GLOBAL_V6_BASE, GLOBAL_V6_LEN, LINK_LOCAL_BASE, LINK_LOCAL_LEN, PRIVATE_8_BASE, PRIVATE_8_LEN,
    PRIVATE_12_BASE, PRIVATE_12_LEN, PRIVATE_16_BASE, PRIVATE_16_LEN, internet_nets, is_internet,
    not_internet,
};
pub use laws::the_numbers_are_these;
pub use names::{Names, is_name};
pub use naming::{is_named, members_of};
pub use nets::host_net;
pub use place::{indexed, under};
pub use policy::Policy;
pub use protocols::{needs_star, number_of, protos_numbered};
pub use rule::Rule;
pub use selecting::{read_approver, read_selector, read_source, read_test_end};
pub use selector::Selector;
pub use tag_owner::TagOwner;
pub use test::Test;
