//! Pending entries.
ghost use Rattle.std.specs.Prelude.{◌≡◌};

use crate::id::HasId;
use net_addr::{Moment, Prefix};
use std::alloc::Global;
use tail_base::{Duplicate, Items, MachineKey, NoMemory, NodeKey, Tag, Text};

/// A machine that waits for an operator to admit it, with what it asked for.
#[derive(Drop)]
pub struct Pending {
    pub id: u32,
    /// What the operator is given: `reg-`, the id, a hyphen and random digits.
    pub text: Text,
    pub machine: MachineKey,
    pub node: NodeKey,
    /// The host name as the machine gave it.
    pub host: Text,
    /// The routes that the machine advertises.
    pub routes: Items<Prefix>,
    /// The tags that it asked for, as they were given.
    pub tags: Items<Tag>,
    pub ephemeral: bool,
    /// The expiry that it asked for.
    pub expiry: Option<Moment>,
    /// When the entry was made.
    pub made: Moment,
}

impl HasId for Pending {
    ghost id = { λ r. r.id };

    fn id(&self) -> u32 {
        self.id
    }
}

impl Duplicate for Pending {
    fn copy(&self, alloc: Global) -> Result<Self, NoMemory> {
        Ok(Pending {
            id: self.id,
            text: self.text.copy(alloc)?,
            machine: self.machine,
            node: self.node,
            host: self.host.copy(alloc)?,
            routes: self.routes.copy(alloc)?,
            tags: self.tags.copy(alloc)?,
            ephemeral: self.ephemeral,
            expiry: self.expiry,
            made: self.made,
        })
    }
}
