//! The keeper of the shipped program.
ghost use Rattle.std.specs.Prelude.{◌≡◌};
ghost use Rattle.keeper_sqlite.specs.Host.{calls_of, faults_of, is_clean_of, may_leave_of, told_of};

use crate::keeper::SqliteKeeper;
use io_edge::EdgeFault;
use net_rows::{Change, Tables};
use row_keeper::{Keeper, LoadFault};
use sqlite::{File, FileStore, MemStore};
use std::alloc::Global;

/// A keeper over a database in memory, or over one in a file. It has no type parameter, so that
/// code that asks for `Send` sees nothing of the stores.
#[derive(Drop)]
pub enum HostKeeper {
    Memory(SqliteKeeper<MemStore>),
    File(SqliteKeeper<FileStore<File>>),
}

impl HostKeeper {
    /// How often a call has failed.
    pub fn faults(&self) -> u64
        ensures value { result ≡ faults_of self.now }
    {
        // Fields and no calls, here and in `end`: a call at the file's store costs a proof half a
        // minute, since its type is large.
        match self {
            HostKeeper::Memory(keeper) => keeper.faults,
            HostKeeper::File(keeper) => keeper.faults,
        }
    }

    /// Lets the database go. A file first gets what stands in its log; where that fails, the log
    /// keeps it.
    pub(crate) fn end(self) {
        match self {
            HostKeeper::Memory(_keeper) => {}
            HostKeeper::File(SqliteKeeper { conn, .. }) => {
                let _closed = conn.close();
            }
        }
    }
}

impl Keeper for HostKeeper {
    ghost told = { told_of };

    ghost is_clean = { is_clean_of };

    ghost may_leave = { may_leave_of };

    ghost faults = { faults_of };

    ghost calls = { calls_of };

    fn load(&mut self, alloc: Global) -> Result<Tables, LoadFault> {
        match self {
            HostKeeper::Memory(keeper) => keeper.load(alloc),
            HostKeeper::File(keeper) => keeper.load(alloc),
        }
    }

    fn commit(&mut self, alloc: Global, change: &Change) -> Result<(), EdgeFault> {
        match self {
            HostKeeper::Memory(keeper) => keeper.commit(alloc, change),
            HostKeeper::File(keeper) => keeper.commit(alloc, change),
        }
    }
}
