//! The packet filter that a machine applies to what reaches it.
use net_addr::Prefix;
use port_sets::PortRange;
use std::alloc::Global;
use tail_base::{Duplicate, Items, NoMemory};

/// Where packets that a filter rule admits come from (`SrcIPs` of `tailcfg.FilterRule`).
#[derive(Drop)]
pub enum Sources {
    /// Every address, written `*`.
    Any,
    /// The addresses of these prefixes.
    Only(Items<Prefix>),
}

/// Addresses and ports to which a filter rule admits packets (`tailcfg.NetPortRange`).
#[derive(Clone, Copy, Debug, PartialEq, Eq, Drop)]
pub struct DestRange {
    pub to: Prefix,
    pub ports: PortRange,
}

/// A rule of the packet filter (`tailcfg.FilterRule`).
#[derive(Drop)]
pub struct FilterRule {
    pub sources: Sources,
    pub dests: Items<DestRange>,
    /// The numbers of the IP protocols that it admits, ascending.
    pub protos: Items<u8>,
}

impl Duplicate for Sources {
    fn copy(&self, alloc: Global) -> Result<Self, NoMemory> {
        Ok(match self {
            Sources::Any => Sources::Any,
            Sources::Only(prefixes) => Sources::Only(prefixes.copy(alloc)?),
        })
    }
}

impl Duplicate for DestRange {
    fn copy(&self, _: Global) -> Result<Self, NoMemory> {
        Ok(*self)
    }
}

impl Duplicate for FilterRule {
    fn copy(&self, alloc: Global) -> Result<Self, NoMemory> {
        Ok(FilterRule {
            sources: self.sources.copy(alloc)?,
            dests: self.dests.copy(alloc)?,
            protos: self.protos.copy(alloc)?,
        })
    }
}
