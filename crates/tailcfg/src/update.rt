//! What a machine tells of itself.
use crate::host_update::HostUpdate;
use net_addr::Endpoint;
use std::alloc::Global;
use tail_base::{DiscoKey, Duplicate, Items, NoMemory};

/// What a machine tells of itself in a map request (`tailcfg.MapRequest`).
#[derive(Drop)]
pub struct Update {
    pub endpoints: Items<Endpoint>,
    /// None leaves it as it was.
    pub disco: Option<DiscoKey>,
    /// None leaves all of it as it was.
    pub host: Option<HostUpdate>,
}

impl Duplicate for Update {
    fn copy(&self, alloc: Global) -> Result<Self, NoMemory> {
        Ok(Update {
            endpoints: self.endpoints.copy(alloc)?,
            disco: self.disco,
            host: self.host.copy(alloc)?,
        })
    }
}
