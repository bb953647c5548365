//! Whether parts of two maps are the same: nodes, profiles, packet filters and DNS.
#![tactic(auto)]

mod dns;
mod filters;
mod laws;
mod lists;
mod nodes;

pub use dns::{same_dns, same_extras};
pub use filters::same_filter;
pub use laws::{
    same_dns_are_equal, same_extras_are_equal, same_filters_are_equal, same_nodes_are_equal,
};
pub use nodes::{same_endpoints, same_fixed, same_node_row, same_profile};
