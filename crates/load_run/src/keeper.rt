//! The keeper of a load's tables.
ghost use Rattle.std.specs.Prelude.{◌≡◌, Some};
ghost use Rattle.net_rows.specs.Rows.{empty_rows};

use io_edge::EdgeFault;
use net_rows::{Change, Tables};
use row_keeper::{Keeper, LoadFault, MemoryKeeper};
use std::alloc::Global;
use tail_base::Items;

/// A keeper in memory without faults: where it fails, memory was refused.
#[derive(Drop)]
pub struct SureKeeper {
    keeper: MemoryKeeper,
}

impl SureKeeper {
    /// A keeper of empty tables.
    pub(crate) fn new(alloc: Global) -> SureKeeper
        ensures told { ⟦<SureKeeper as Keeper>⟧.told result ≡ Some empty_rows }
    {
        SureKeeper {
            keeper: MemoryKeeper::new(Tables::empty(alloc), Items::new(alloc)),
        }
    }
}

impl Keeper for SureKeeper {
    ghost told = { λ k. ⟦<MemoryKeeper as Keeper>⟧.told k.keeper };

    ghost is_clean = { λ k. ⟦<MemoryKeeper as Keeper>⟧.is_clean k.keeper };

    ghost may_leave = { λ k found. ⟦<MemoryKeeper as Keeper>⟧.may_leave k.keeper found };

    ghost faults = { λ k. 0 };

    ghost calls = { λ k. ⟦<MemoryKeeper as Keeper>⟧.calls k.keeper };

    fn load(&mut self, alloc: Global) -> Result<Tables, LoadFault> {
        match self.keeper.load(alloc) {
            Ok(tables) => Ok(tables),
            Err(LoadFault::Damaged { kind, id }) => Err(LoadFault::Damaged { kind, id }),
            Err(LoadFault::Failed | LoadFault::NoMemory) => Err(LoadFault::NoMemory),
        }
    }

    fn commit(&mut self, alloc: Global, change: &Change) -> Result<(), EdgeFault> {
        match self.keeper.commit(alloc, change) {
            Ok(()) => Ok(()),
            Err(EdgeFault::Failed | EdgeFault::NoMemory) => Err(EdgeFault::NoMemory),
        }
    }
}
