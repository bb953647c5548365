//! Maps.
use std::alloc::Global;
use tail_base::{Duplicate, Items, NoMemory, Text};
use tailcfg::{Dns, FilterRule, NodeRow, Profile};

/// What a machine knows of the tailnet: its netmap.
#[derive(Drop)]
pub struct View {
    /// The machine's own node.
    pub node: NodeRow,
    /// The nodes of the machines that it sees, by ascending id.
    pub peers: Items<NodeRow>,
    /// The packet filter that it applies.
    pub filter: Items<FilterRule>,
    pub dns: Dns,
    /// The name of the tailnet.
    pub domain: Text,
    /// The users that own these nodes, by ascending id.
    pub profiles: Items<Profile>,
}

impl Duplicate for View {
    fn copy(&self, alloc: Global) -> Result<Self, NoMemory> {
        Ok(View {
            domain: self.domain.copy(alloc)?,
            peers: self.peers.copy(alloc)?,
            filter: self.filter.copy(alloc)?,
            profiles: self.profiles.copy(alloc)?,
            dns: self.dns.copy(alloc)?,
            node: self.node.copy(alloc)?,
        })
    }
}
