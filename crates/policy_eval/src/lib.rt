//! Policies expanded over the live machines of a tailnet: the addresses that their rules cover, which
//! machines send and take by them, and the policy in force.
#![tactic(auto)]

mod cover;
mod cover_list;
mod expanded;
mod flags;
mod in_force;
mod rule_sets;
mod selector_hash;
mod site_flags;

pub use expanded::Expanded;
pub use in_force::InForce;
pub use site_flags::SiteFlags;
