//! The opener of the shipped program.
ghost use Rattle.std.specs.Prelude.{◌≡◌, ◌≢◌, false, true, None, Err, IfOk, codes, ⊤};
ghost use Rattle.keeper_sqlite.specs.Host.{calls_of, faults_of, is_in_memory};

use crate::host_keeper::HostKeeper;
use crate::keeper::SqliteKeeper;
use io_edge::EdgeFault;
use row_keeper::Opener;
use sqlite::{Connection, Error};
use std::alloc::Global;
use std::fs::OpenOptions;
use std::io;
use std::os::unix::fs::OpenOptionsExt;
use store_commits::Fault;

/// The mode of a file that is made: the owner alone may read it, since it holds keys.
const OWNER_ALONE: u32 = 0o600;

/// Opens databases by their names: `:memory:` is a new one in memory, any other name a file.
#[derive(Drop)]
pub struct HostOpener {
    rt: HostRuntime,
    faults: u64,
}

impl HostOpener {
    /// The databases that the runtime opens, with a count of 0.
    pub fn new(rt: HostRuntime) -> HostOpener
        ensures faults { ⟦<HostOpener as Opener>⟧.faults result ≡ 0 }
    {
        HostOpener { rt, faults: 0 }
    }
}

/// A keeper over a new database in memory.
fn in_memory(alloc: Global) -> Result<HostKeeper, EdgeFault>
    ensures never { result ≢ Err EdgeFault.Failed }
    ensures faults { IfOk result (λ keeper. faults_of keeper ≡ 0) }
    ensures calls { IfOk result (λ keeper. calls_of keeper ≡ 0) }
    ensures memory { IfOk result (λ keeper. is_in_memory keeper ≡ true) }
{
    match Connection::open_in_memory(alloc) {
        Ok(conn) => Ok(HostKeeper::Memory(SqliteKeeper::adopt(conn))),
        Err(_) => Err(EdgeFault::NoMemory),
    }
}

/// Makes the file, empty, where nothing has its name.
fn make_file(rt: &HostRuntime, name: &str) -> io::Result<()> {
    let made = OpenOptions::new()
        .read(true)
        .write(true)
        .create_new(true)
        .mode(OWNER_ALONE)
        .open(rt, name);
    match made {
        Ok(_) => Ok(()),
        Err(error) if error.kind() == io::ErrorKind::AlreadyExists => Ok(()),
        Err(error) => Err(error),
    }
}

/// What an error of the store means for an open.
fn fault_of(error: Error) -> EdgeFault {
    match Fault::from(error) {
        Fault::NoMemory => EdgeFault::NoMemory,
        Fault::Failed => EdgeFault::Failed,
    }
}

/// A keeper over the database in the file of this name, which is made where it isn't there.
fn in_file(rt: &HostRuntime, name: &str) -> Result<HostKeeper, EdgeFault>
    ensures faults { IfOk result (λ keeper. faults_of keeper ≡ 0) }
    ensures calls { IfOk result (λ keeper. calls_of keeper ≡ 0) }
    ensures file { IfOk result (λ keeper. is_in_memory keeper ≡ false) }
{
    match make_file(rt, name) {
        Ok(()) => {}
        Err(error) if error.kind() == io::ErrorKind::OutOfMemory => {
            return Err(EdgeFault::NoMemory);
        }
        Err(_) => return Err(EdgeFault::Failed),
    }
    match Connection::open(rt, name) {
        // Written out: to call `adopt` at this store costs a proof half a minute, since its type is
        // large.
        Ok(conn) => Ok(HostKeeper::File(SqliteKeeper {
            conn,
            is_loaded: false,
            faults: 0,
            calls: 0,
        })),
        Err(error) => Err(fault_of(error)),
    }
}

/// A keeper over the database of this name.
fn open_named(rt: &HostRuntime, alloc: Global, name: &str) -> Result<HostKeeper, EdgeFault>
    ensures faults { IfOk result (λ keeper. faults_of keeper ≡ 0) }
    ensures calls { IfOk result (λ keeper. calls_of keeper ≡ 0) }
    ensures memory { IfOk result (λ keeper. is_in_memory keeper ≡ true
        → name.now ≡ codes ":memory:") }
{
    if name == ":memory:" {
        in_memory(alloc)
    } else if name.starts_with("file:") {
        // The store reads such a name as an address, and opens none.
        Err(EdgeFault::Failed)
    } else {
        in_file(rt, name)
    }
}

impl Opener for HostOpener {
    type Keeper = HostKeeper;

    ghost told = { λ _. None };

    // Nothing is known of files.
    ghost is_clean = { λ _. false };

    ghost may_leave = { λ _ _. ⊤ };

    ghost asked = { λ _. None };

    ghost faults = { λ o. o.faults };

    fn open(&mut self, alloc: Global, name: &str) -> Result<HostKeeper, EdgeFault> {
        let opened = open_named(&self.rt, alloc, name);
        match opened {
            Err(EdgeFault::Failed) => self.faults = self.faults.saturating_add(1),
            Err(EdgeFault::NoMemory) | Ok(_) => {}
        }
        opened
    }

    fn close(&mut self, keeper: HostKeeper) {
        self.faults = self.faults.saturating_add(keeper.faults());
        keeper.end();
    }
}
