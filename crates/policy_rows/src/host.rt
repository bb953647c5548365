//! Hosts.

use net_addr::Prefix;
use std::alloc::Global;
use tail_base::{Duplicate, NoMemory, Text};

/// A name for addresses.
#[derive(Drop)]
pub struct Host {
    pub name: Text,
    pub prefix: Prefix,
}

impl Duplicate for Host {
    fn copy(&self, alloc: Global) -> Result<Self, NoMemory> {
        let name = self.name.copy(alloc)?;
        let prefix = self.prefix;
        Ok(Host { name, prefix })
    }
}
