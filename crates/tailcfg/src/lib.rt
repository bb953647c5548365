//! What `tailcfg` calls messages, as far as this server reads and writes them: registrations, map
//! requests and responses. Nothing here knows how they are written.
#![tactic(auto)]

mod dns;
mod filter;
mod host_update;
mod laws;
mod limits;
mod map_ask;
mod node_row;
mod patch;
mod profile;
mod register;
mod response;
mod update;

pub use dns::{Dns, DnsExtra, DnsRoute, DnsSettings};
pub use filter::{DestRange, FilterRule, Sources};
pub use host_update::HostUpdate;
pub use laws::the_numbers_are_these;
pub use limits::{ASKED_TAG_LIMIT, ENDPOINT_LIMIT, HOST_LIMIT, REGION_LIMIT, ROUTE_LIMIT};
pub use map_ask::MapAsk;
pub use node_row::NodeRow;
pub use patch::Patch;
pub use profile::Profile;
pub use register::Register;
pub use response::Response;
pub use update::Update;
