//! What a policy sees of the live machines of a tailnet, and what its rules say of them: which routes of
//! a machine are approved, which machine is an exit node and what a machine serves; sites, the ends of
//! flows, which ends selectors cover, and which flows rules grant.
#![tactic(auto)]

mod approvals;
mod beyond;
mod by_rule;
mod covering;
mod end;
mod ends;
mod exit_nodes;
mod exits;
mod fitting;
mod granting;
mod id_list;
mod laws;
mod listing;
mod owner;
mod route_laws;
mod rules;
mod serving;
mod site;
mod tailnets;
mod touching;

pub use approvals::approved;
pub use beyond::covers_beyond;
pub use by_rule::{covers_site, has_own_devices};
pub use covering::{covers, is_own_devices, joins_own};
pub use end::{End, Holder};
pub use ends::{end_at, holder_of};
pub use exit_nodes::is_exit;
pub use exits::{both_exits, exit_routes, has_route, is_exit_route};
pub use fitting::sites_fit;
pub use granting::{ports_hold, some_rule_grants, some_source};
pub use id_list::IdList;
pub use laws::{a_reach_is_by_flags, a_reach_is_by_rules, an_address_has_one_site};
pub use listing::{add_all, add_covered};
pub use route_laws::{approved_routes_leave_tailnets, routes_are_approved_apart};
pub use rules::{groups_of, look_at_rules, rules_of};
pub use serving::{served, served_routes, served_with};
pub use site::{Site, are_own, sites_of};
pub use tailnets::overlaps_tailnet;
pub use touching::dests_into;
