//! Machines.
ghost use Rattle.std.specs.Prelude.{◌≡◌};

use crate::id::HasId;
use net_addr::{Addr, Endpoint, Moment, Prefix};
use std::alloc::Global;
use tail_base::{DiscoKey, Duplicate, Items, Label, MachineKey, NoMemory, NodeKey, Tag, Text};

/// A machine of the tailnet, also one whose life has ended: its row keeps its keys, name and
/// addresses until it is removed.
#[derive(Drop)]
pub struct Machine {
    pub id: u32,
    /// The id of its user.
    pub user: u32,
    pub machine: MachineKey,
    pub node: NodeKey,
    pub disco: DiscoKey,
    /// The host name as the machine gave it.
    pub host: Text,
    /// Its name in the tailnet.
    pub name: Label,
    pub v4: Addr,
    pub v6: Addr,
    pub endpoints: Items<Endpoint>,
    /// The DERP region that relays for it; 0 where none does.
    pub derp: u32,
    /// The routes that it advertises.
    pub routes: Items<Prefix>,
    /// The routes that an operator approved.
    pub approved: Items<Prefix>,
    pub tags: Items<Tag>,
    pub ephemeral: bool,
    /// From this moment on it isn't live.
    pub expiry: Option<Moment>,
    pub created: Moment,
}

impl HasId for Machine {
    ghost id = { λ r. r.id };

    fn id(&self) -> u32 {
        self.id
    }
}

impl Duplicate for Machine {
    fn copy(&self, alloc: Global) -> Result<Self, NoMemory> {
        Ok(Machine {
            id: self.id,
            user: self.user,
            machine: self.machine,
            node: self.node,
            disco: self.disco,
            host: self.host.copy(alloc)?,
            name: self.name.copy(alloc)?,
            v4: self.v4,
            v6: self.v6,
            endpoints: self.endpoints.copy(alloc)?,
            derp: self.derp,
            routes: self.routes.copy(alloc)?,
            approved: self.approved.copy(alloc)?,
            tags: self.tags.copy(alloc)?,
            ephemeral: self.ephemeral,
            expiry: self.expiry,
            created: self.created,
        })
    }
}
