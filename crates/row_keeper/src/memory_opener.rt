//! An opener in memory.
ghost use Rattle.std.specs.Prelude.{◌≡◌, ◌∷◌, ◌++◌, [], Some, true, IfOk, OnOk, OnErr};

use crate::keeper::Keeper;
use crate::memory_keeper::MemoryKeeper;
use crate::opener::Opener;
use io_edge::{EdgeFault, Faults};
use net_rows::Tables;
use std::alloc::Global;
use tail_base::{Duplicate, Items, NoMemory, Text};

/// Opens keepers in memory, all of the same tables whatever the name, and tells them. A keeper that is
/// closed gives its tables back.
#[derive(Drop)]
pub struct MemoryOpener {
    tables: Tables,
    asked: Items<Text>,
    faults: Faults,
    keeper_fails: Items<u32>,
}

impl MemoryOpener {
    /// An opener of keepers of these tables. Of its own calls those with the numbers `fails` fail, and
    /// of each keeper's those with the numbers `keeper_fails`.
    pub fn new(
        alloc: Global,
        tables: Tables,
        fails: Items<u32>,
        keeper_fails: Items<u32>,
    ) -> MemoryOpener
        ensures told { ⟦<MemoryOpener as Opener>⟧.told result ≡ Some tables.rows }
        ensures asked { ⟦<MemoryOpener as Opener>⟧.asked result ≡ Some [] }
        ensures faults { ⟦<MemoryOpener as Opener>⟧.faults result ≡ 0 }
        ensures planned { result.faults.fails ≡ fails }
        ensures keeper_planned { result.keeper_fails ≡ keeper_fails }
    {
        MemoryOpener {
            tables,
            asked: Items::new(alloc),
            faults: Faults::new(fails),
            keeper_fails,
        }
    }

    /// The tables that it tells.
    pub fn tables(&self) -> &Tables
        ensures told { ⟦<MemoryOpener as Opener>⟧.told self.now ≡ Some result.now.rows }
    {
        &self.tables
    }

    /// The names that it was asked for, in order.
    pub fn asked(&self) -> &[Text]
        ensures told { ⟦<MemoryOpener as Opener>⟧.asked self.now ≡ Some result.now }
    {
        self.asked.as_slice()
    }
}

/// A keeper of equal tables, of which the calls with these numbers fail.
fn keeper_of(alloc: Global, tables: &Tables, fails: &Items<u32>) -> Result<MemoryKeeper, NoMemory>
    ensures told { IfOk result
        (λ keeper. ⟦<MemoryKeeper as Keeper>⟧.told keeper ≡ Some tables.now.rows) }
    ensures faults { IfOk result (λ keeper. ⟦<MemoryKeeper as Keeper>⟧.faults keeper ≡ 0) }
    ensures calls { IfOk result (λ keeper. ⟦<MemoryKeeper as Keeper>⟧.calls keeper ≡ 0) }
    ensures planned { IfOk result (λ keeper. keeper.faults.fails ≡ fails.now) }
{
    let fails = fails.copy(alloc)?;
    let tables = tables.copy(alloc)?;
    Ok(MemoryKeeper::new(tables, fails))
}

/// Adds a name to those that were asked for.
fn note(alloc: Global, asked: &mut Items<Text>, name: &str) -> Result<(), NoMemory>
    ensures ok { OnOk result (asked.new ≡ asked.old ++ name.now ∷ []) }
    ensures err { OnErr result (asked.new ≡ asked.old) }
{
    asked.push(Text::from_str(alloc, name)?)
}

impl Opener for MemoryOpener {
    type Keeper = MemoryKeeper;

    ghost told = { λ o. Some o.tables.rows };

    ghost is_clean = { λ _. true };

    // A crash loses all.
    ghost may_leave = { λ _ _. ⊥ };

    ghost asked = { λ o. Some o.asked };

    ghost faults = { λ o. o.faults.count };

    fn open(&mut self, alloc: Global, name: &str) -> Result<MemoryKeeper, EdgeFault> {
        let fails = self.faults.next();
        let Ok(keeper) = keeper_of(alloc, &self.tables, &self.keeper_fails) else {
            return Err(EdgeFault::NoMemory);
        };
        if note(alloc, &mut self.asked, name).is_err() {
            return Err(EdgeFault::NoMemory);
        }
        if fails {
            return Err(EdgeFault::Failed);
        }
        Ok(keeper)
    }

    fn close(&mut self, keeper: MemoryKeeper) {
        let MemoryKeeper { tables, faults } = keeper;
        self.tables = tables;
        self.faults.count = self.faults.count.saturating_add(faults.count);
    }
}
