//! A keeper in memory.
ghost use Rattle.std.specs.Prelude.{◌≡◌, Some, None, true, IfOk, OnOk, OnErr};
ghost use Rattle.net_rows.specs.Rows.{after};
ghost use Rattle.net_rows.specs.Damage.{damage};

use crate::keeper::{Keeper, LoadFault};
use io_edge::{EdgeFault, Faults};
use net_rows::{Change, Tables};
use std::alloc::Global;
use tail_base::{Duplicate, Items, NoMemory};

/// A keeper in memory, which tells what it keeps.
#[derive(Drop)]
pub struct MemoryKeeper {
    pub(crate) tables: Tables,
    pub(crate) faults: Faults,
}

/// Makes the change where there is memory for it.
fn make(alloc: Global, tables: &mut Tables, change: &Change) -> Result<(), NoMemory>
    requires sound { damage (after tables.old.rows change.now) ≡ None }
    ensures ok { OnOk result (tables.new.rows ≡ after tables.old.rows change.now) }
    ensures err { OnErr result (tables.new.rows ≡ tables.old.rows) }
{
    let change = change.copy(alloc)?;
    tables.reserve(&change)?;
    tables.apply(change);
    Ok(())
}

impl MemoryKeeper {
    /// A keeper of these tables, of which the calls with these numbers fail.
    pub fn new(tables: Tables, fails: Items<u32>) -> MemoryKeeper
        ensures told { ⟦<MemoryKeeper as Keeper>⟧.told result ≡ Some tables.rows }
        ensures faults { ⟦<MemoryKeeper as Keeper>⟧.faults result ≡ 0 }
        ensures calls { ⟦<MemoryKeeper as Keeper>⟧.calls result ≡ 0 }
        ensures planned { result.faults.fails ≡ fails }
    {
        MemoryKeeper {
            tables,
            faults: Faults::new(fails),
        }
    }
}

impl Keeper for MemoryKeeper {
    ghost told = { λ k. Some k.tables.rows };

    ghost is_clean = { λ _. true };

    // A crash loses all.
    ghost may_leave = { λ _ _. ⊥ };

    ghost faults = { λ k. k.faults.count };

    ghost calls = { λ k. k.faults.calls };

    fn load(&mut self, alloc: Global) -> Result<Tables, LoadFault> {
        if self.faults.next() {
            return Err(LoadFault::Failed);
        }
        match self.tables.copy(alloc) {
            Ok(tables) => Ok(tables),
            Err(NoMemory) => Err(LoadFault::NoMemory),
        }
    }

    fn commit(&mut self, alloc: Global, change: &Change) -> Result<(), EdgeFault> {
        if self.faults.next() {
            return Err(EdgeFault::Failed);
        }
        match make(alloc, &mut self.tables, change) {
            Ok(()) => Ok(()),
            Err(NoMemory) => Err(EdgeFault::NoMemory),
        }
    }
}
