//! Whether machines are online.
ghost use Rattle.std.specs.Prelude.{◌≡◌};

use net_addr::Moment;
use net_rows::HasId;
use std::alloc::Global;
use tail_base::{Duplicate, NoMemory};

/// Whether a machine is online, or since when it isn't.
#[derive(Clone, Copy, Debug, PartialEq, Eq, Drop)]
pub enum Presence {
    Online,
    OfflineSince(Moment),
}

/// The presence of the machine of an id.
#[derive(Clone, Copy, Debug, PartialEq, Eq, Drop)]
pub struct MachinePresence {
    pub id: u32,
    pub presence: Presence,
}

impl HasId for MachinePresence {
    ghost id = { λ r. r.id };

    fn id(&self) -> u32 {
        self.id
    }
}

impl Duplicate for MachinePresence {
    fn copy(&self, _: Global) -> Result<Self, NoMemory> {
        Ok(*self)
    }
}
