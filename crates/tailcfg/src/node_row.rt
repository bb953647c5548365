//! Nodes as a map shows them.
use net_addr::{Endpoint, Moment, Prefix};
use std::alloc::Global;
use tail_base::{DiscoKey, Duplicate, Items, MachineKey, NoMemory, NodeKey, Tag, Text};

/// A node as a machine is shown it (`tailcfg.Node`).
#[derive(Drop)]
pub struct NodeRow {
    pub id: u32,
    /// The id of the user that owns it.
    pub user: u32,
    pub key: NodeKey,
    pub machine: MachineKey,
    /// All zero if it isn't known.
    pub disco: DiscoKey,
    /// The whole name in DNS, with the dot at its end.
    pub name: Text,
    /// The host name as the machine gave it.
    pub host: Text,
    /// Its own addresses.
    pub addresses: Items<Prefix>,
    /// Where packets may be sent through it: its addresses and the routes that it serves.
    pub allowed: Items<Prefix>,
    pub endpoints: Items<Endpoint>,
    /// The DERP region that relays for it; 0 if none does.
    pub derp: u32,
    pub tags: Items<Tag>,
    pub created: Moment,
    /// From this moment on its key isn't valid.
    pub expiry: Option<Moment>,
    pub online: bool,
}

impl Duplicate for NodeRow {
    fn copy(&self, alloc: Global) -> Result<Self, NoMemory> {
        Ok(NodeRow {
            id: self.id,
            user: self.user,
            key: self.key,
            machine: self.machine,
            disco: self.disco,
            name: self.name.copy(alloc)?,
            host: self.host.copy(alloc)?,
            addresses: self.addresses.copy(alloc)?,
            allowed: self.allowed.copy(alloc)?,
            endpoints: self.endpoints.copy(alloc)?,
            derp: self.derp,
            tags: self.tags.copy(alloc)?,
            created: self.created,
            expiry: self.expiry,
            online: self.online,
        })
    }
}
