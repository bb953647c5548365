//! Packet filters of machines, from the policy in force.
#![tactic(auto)]

mod dest_ranges;
mod dests;
mod filter;
mod holdings;
mod laws;
mod own;
mod protocols;
mod rule_parts;

pub use filter::filter_for;
pub use laws::{
    a_filter_admits_what_is_granted, a_filter_without_rules_is_open, closed_policies_close,
    who_does_not_reach_a_machine_adds_nothing,
};
