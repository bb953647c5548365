//! Addresses, prefixes, endpoints and moments, and their texts.
#![tactic(auto)]

mod addr;
mod civil;
mod endpoint;
mod group_reader;
mod groups;
mod laws;
mod moment;
mod numbers;
mod parts;
mod prefix;
mod prefix_fault;
mod quad;
mod stamp;
mod tailnet;

pub use addr::Addr;
pub use civil::date_after;
pub use endpoint::Endpoint;
pub use groups::{longest_run, start_of_run, v6_groups};
pub use laws::{
    addr_texts_differ, address_searches_find, endpoint_texts_differ, moment_texts_differ,
    prefix_texts_differ, sorted_routes_rise, the_numbers_are_these,
};
pub use moment::{FIRST_SECOND, LAST_SECOND, Moment};
pub use numbers::ones;
pub use prefix::{Prefix, sorted_routes};
pub use prefix_fault::PrefixFault;
pub use tailnet::{
    TAILNET_V4_BASE, TAILNET_V4_LEN, TAILNET_V6_BASE, TAILNET_V6_LEN, tailnet_v4, tailnet_v6,
};
