//! Rules.

use crate::dest::Dest;
use crate::selector::Selector;
use port_sets::Protos;
use std::alloc::Global;
use tail_base::{Duplicate, Items, NoMemory};

/// What an entry of `acls` lets through, or an entry of `grants` by one element of its `ip`: each of the
/// protocols from each of the sources to each of the destinations.
#[derive(Drop)]
pub struct Rule {
    pub protos: Protos,
    pub sources: Items<Selector>,
    pub dests: Items<Dest>,
}

impl Duplicate for Rule {
    fn copy(&self, alloc: Global) -> Result<Self, NoMemory> {
        let protos = self.protos;
        let sources = self.sources.copy(alloc)?;
        let dests = self.dests.copy(alloc)?;
        Ok(Rule {
            protos,
            sources,
            dests,
        })
    }
}
