//! Map requests.
use crate::update::Update;
use std::alloc::Global;
use tail_base::{Duplicate, NoMemory, NodeKey, Text};

/// What a machine sends to be shown the tailnet (`tailcfg.MapRequest`).
#[derive(Drop)]
pub struct MapAsk {
    pub node: NodeKey,
    /// Whether it wants responses from now on, and not one alone.
    pub stream: bool,
    /// Whether it wants no peers.
    pub omit_peers: bool,
    /// Whether what it tells of itself isn't to be kept.
    pub read_only: bool,
    /// The handle of the session to be resumed; empty if there is none.
    pub handle: Text,
    /// The number of the last response of that session that it has.
    pub seq: u64,
    pub update: Update,
}

impl Duplicate for MapAsk {
    fn copy(&self, alloc: Global) -> Result<Self, NoMemory> {
        Ok(MapAsk {
            node: self.node,
            stream: self.stream,
            omit_peers: self.omit_peers,
            read_only: self.read_only,
            handle: self.handle.copy(alloc)?,
            seq: self.seq,
            update: self.update.copy(alloc)?,
        })
    }
}
