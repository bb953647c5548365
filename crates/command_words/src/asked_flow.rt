//! The flow that words ask about.
use net_addr::Addr;

/// Packets of a protocol between two addresses. The port is the destination's; it is given for every
/// protocol, also for one without ports.
#[derive(Clone, Copy, Drop)]
pub struct AskedFlow {
    pub source: Addr,
    pub dest: Addr,
    /// By the numbers of IANA's list.
    pub proto: u8,
    pub port: u16,
}
