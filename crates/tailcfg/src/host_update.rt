//! What a machine tells of its host.
use net_addr::Prefix;
use std::alloc::Global;
use tail_base::{Duplicate, Items, NoMemory, Text};

/// What a machine tells of its host (`tailcfg.Hostinfo`), as far as it is read.
#[derive(Drop)]
pub struct HostUpdate {
    /// The host name; None leaves it as it was.
    pub name: Option<Text>,
    /// The DERP region that relays for it, 0 if none does; None leaves it as it was.
    pub derp: Option<u32>,
    /// The routes that it advertises, by family, base and length, each once.
    pub routes: Items<Prefix>,
}

impl Duplicate for HostUpdate {
    fn copy(&self, alloc: Global) -> Result<Self, NoMemory> {
        Ok(HostUpdate {
            name: self.name.copy(alloc)?,
            derp: self.derp,
            routes: self.routes.copy(alloc)?,
        })
    }
}
