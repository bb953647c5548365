//! Patches of peers.
use net_addr::Endpoint;
use std::alloc::Global;
use tail_base::{DiscoKey, Duplicate, Items, NoMemory};

/// What changed of a peer (`tailcfg.PeerChange`); None stays as it was.
#[derive(Drop)]
pub struct Patch {
    /// The id of the peer's node.
    pub id: u32,
    pub derp: Option<u32>,
    pub disco: Option<DiscoKey>,
    pub endpoints: Option<Items<Endpoint>>,
    pub online: Option<bool>,
}

impl Duplicate for Patch {
    fn copy(&self, alloc: Global) -> Result<Self, NoMemory> {
        Ok(Patch {
            id: self.id,
            derp: self.derp,
            disco: self.disco,
            endpoints: self.endpoints.copy(alloc)?,
            online: self.online,
        })
    }
}
