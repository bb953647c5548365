//! Port sets and protocols of a rule, as a policy file writes them
//! (<https://tailscale.com/kb/1337/policy-syntax>).
#![tactic(auto)]

mod fault;
mod laws;
mod merge;
mod ports;
mod protos;
mod range;
mod splitting;

pub use fault::PortFault;
pub use laws::{ports_hold_one, read_ports_are_some};
pub use ports::Ports;
pub use protos::Protos;
pub use range::PortRange;
