//! A keeper over a connection to a database.
ghost use Rattle.std.specs.Prelude.{◌≡◌, ◌≤◌, ℕ, true, None, Err, false, is_ok, IsTrue, IfOk, IfErr, IfSome, OnOk, OnErr, IsErrOf};
ghost use Rattle.std.specs.Option.{option_map};
ghost use Rattle.io_edge.specs.Edge.{IsWhereTold, Rose, StillTells};
ghost use Rattle.keeper_sqlite.specs.Known.{knows_if_loaded};
ghost use Rattle.keeper_sqlite.specs.Left.{MayBeFound};
ghost use Rattle.net_rows.specs.declared.change.Kind.{Kind};
ghost use Rattle.net_rows.specs.Damage.{damage};
ghost use Rattle.net_rows.specs.Rows.{after, empty_rows};
ghost use Rattle.net_rows.specs.declared.rows.Rows.{Rows};
ghost use Rattle.store_commits.specs.Kept.{AreStored, HoldsChange, Keeps, Makes};
ghost use Rattle.store_commits.specs.Pending.{IsSettled, Leaves};
ghost use Rattle.store_loads.specs.First.{IsFirstDamage};
ghost use Rattle.store_loads.specs.Tells.{IsKnown};
ghost use Rattle.store_loads.specs.Told.{store_tells};
ghost use Rattle.store_reads.specs.Damages.{NamesDamage};
ghost use Rattle.store_reads.specs.Readable.{AreReadable, IsOutside};
ghost use Rattle.store_reads.specs.Seen.{IsSeen};
ghost use Rattle.store_rows.specs.Readable.{IsReadableChange};
ghost use Rattle.store_sql.specs.Schema.{no_schema, schema_1};
ghost use Rattle.sqlite.specs.Held.{state};
ghost use Rattle.sqlite.specs.State.{HasCleanDisk, Survives};

use io_edge::EdgeFault;
use net_rows::{Change, Tables};
use row_keeper::{Keeper, LoadFault};
use sqlite::{Alter, Connection};
use std::alloc::Global;
use store_commits::{Fault, commit};
use store_loads::load;

/// Keeps the tables in the database of a connection, and tells what its store tells. Before it has
/// loaded them it takes no change; from then on the store, as long as it is clean and open, tells.
#[derive(Drop)]
pub struct SqliteKeeper<S: Alter> {
    pub(crate) conn: Connection<S>,
    pub(crate) is_loaded: bool,
    pub(crate) faults: u64,
    pub(crate) calls: u64,
    ghost is_known_once_loaded: { knows_if_loaded is_loaded (state S.Store conn) ≡ true },
}

impl<S: Alter> SqliteKeeper<S> {
    /// A keeper over this connection that was not called yet.
    pub fn adopt(conn: Connection<S>) -> SqliteKeeper<S>
        ensures conn { result.conn ≡ conn }
        ensures waits { result.is_loaded ≡ false }
        ensures faults { result.faults ≡ 0 }
        ensures calls { result.calls ≡ 0 }
    {
        SqliteKeeper {
            conn,
            is_loaded: false,
            faults: 0,
            calls: 0,
        }
    }

    /// The connection.
    pub fn give_back(self) -> Connection<S>
        ensures conn { result ≡ self.conn }
    {
        let SqliteKeeper { conn, .. } = self;
        conn
    }

    /// How often a call has failed.
    pub fn faults(&self) -> u64
        ensures value { result ≡ self.now.faults }
    {
        self.faults
    }

    /// Raises the count of faults.
    fn raise(&mut self)
        ensures rose { Rose self.old.faults self.new.faults }
        ensures later { self.old.faults ≤ self.new.faults }
        ensures conn { self.new.conn ≡ self.old.conn }
        ensures is_loaded { self.new.is_loaded ≡ self.old.is_loaded }
        ensures calls { self.new.calls ≡ self.old.calls }
    {
        self.faults = self.faults.saturating_add(1);
    }

    /// The tables that the database keeps; from then on changes are taken.
    fn read(&mut self, alloc: Global) -> Result<Tables, LoadFault>
        ensures loaded { HasCleanDisk (state S.Store self.new.conn) → (rows : Rows)
            → Keeps (state S.Store self.old.conn).now rows → AreReadable rows
            → damage rows ≡ None → IfOk result (λ tables. tables.rows ≡ rows) }
        ensures whole { HasCleanDisk (state S.Store self.new.conn) → (rows : Rows)
            → Keeps (state S.Store self.old.conn).now rows → AreReadable rows
            → damage rows ≡ None → IfErr result IsOutside }
        ensures seen { (state S.Store self.old.conn).now.schema ≡ schema_1
            → IsSeen schema_1 (state S.Store self.old.conn) (state S.Store self.new.conn)
            (is_ok result) }
        ensures first { HasCleanDisk (state S.Store self.new.conn)
            → (state S.Store self.old.conn).now.schema ≡ no_schema
            → IfOk result (λ tables. tables.rows ≡ empty_rows) }
        ensures first_whole { HasCleanDisk (state S.Store self.new.conn)
            → (state S.Store self.old.conn).now.schema ≡ no_schema → IfErr result IsOutside }
        ensures first_crash { HasCleanDisk (state S.Store self.new.conn)
            → (state S.Store self.old.conn).now.schema ≡ no_schema
            → Survives (state S.Store self.old.conn) (state S.Store self.new.conn)
            (λ trees. AreStored trees empty_rows) }
        ensures tells { IfOk result (λ tables.
            IsWhereTold tables.rows (store_tells (state S.Store self.new.conn))) }
        ensures damaged { IfErr result (λ e. (kind : Kind) (id : ℕ)
            → e ≡ LoadFault.Damaged kind id → store_tells (state S.Store self.new.conn) ≡ None) }
        ensures named { HasCleanDisk (state S.Store self.new.conn)
            → IfErr result (NamesDamage (IsFirstDamage (state S.Store self.old.conn).now)) }
        ensures still { StillTells (store_tells (state S.Store self.old.conn))
            (store_tells (state S.Store self.new.conn)) }
        ensures clean { HasCleanDisk (state S.Store self.new.conn)
            → HasCleanDisk (state S.Store self.old.conn) }
        ensures known { OnOk result (IsKnown (state S.Store self.new.conn)) }
        ensures taken { OnOk result (IsTrue self.new.is_loaded) }
        ensures calls { self.new.calls ≡ self.old.calls }
        ensures later { self.old.faults ≤ self.new.faults }
        ensures cause { IsErrOf result LoadFault.Failed → Rose self.old.faults self.new.faults }
    {
        let loaded = load(&mut self.conn, alloc);
        match &loaded {
            Ok(_) => self.is_loaded = true,
            Err(LoadFault::Failed) => self.raise(),
            Err(LoadFault::Damaged { .. } | LoadFault::NoMemory) => {}
        }
        loaded
    }

    /// Keeps the change. Before the tables were loaded it fails, and nothing is asked of the store.
    fn keep(&mut self, alloc: Global, change: &Change) -> Result<(), EdgeFault>
        requires sound { IfSome (store_tells (state S.Store self.old.conn))
            (λ rows. damage (after rows change.now) ≡ None) }
        ensures waits { self.old.is_loaded ≡ false
            → (result ≡ Err EdgeFault.Failed) × (self.new.conn ≡ self.old.conn) }
        ensures ok { HasCleanDisk (state S.Store self.new.conn)
            → OnOk result (IsSettled (state S.Store self.new.conn)) }
        ensures made { HasCleanDisk (state S.Store self.new.conn) → OnOk result (Makes
            (state S.Store self.old.conn).now (state S.Store self.new.conn).now
            (λ rows. after rows change.now)) }
        ensures err { HasCleanDisk (state S.Store self.new.conn)
            → OnErr result (Leaves (state S.Store self.old.conn) (state S.Store self.new.conn)) }
        ensures crash { Survives (state S.Store self.old.conn) (state S.Store self.new.conn)
            (HoldsChange (state S.Store self.old.conn).now change.now) }
        ensures readable { OnOk result (IsReadableChange change.now) }
        ensures still_ok { OnOk result (StillTells (option_map (λ rows. after rows change.now)
            (store_tells (state S.Store self.old.conn)))
            (store_tells (state S.Store self.new.conn))) }
        ensures still_err { OnErr result (StillTells (store_tells (state S.Store self.old.conn))
            (store_tells (state S.Store self.new.conn))) }
        ensures calls { self.new.calls ≡ self.old.calls }
        ensures later { self.old.faults ≤ self.new.faults }
        ensures cause { IsErrOf result EdgeFault.Failed → Rose self.old.faults self.new.faults }
    {
        if !self.is_loaded {
            self.raise();
            return Err(EdgeFault::Failed);
        }
        match commit(&mut self.conn, alloc, change) {
            Ok(()) => Ok(()),
            Err(Fault::NoMemory) => Err(EdgeFault::NoMemory),
            Err(Fault::Failed) => {
                self.raise();
                Err(EdgeFault::Failed)
            }
        }
    }
}

impl<S: Alter + Drop> Keeper for SqliteKeeper<S> {
    ghost told = { λ k. store_tells (state S.Store k.conn) };

    ghost is_clean = { λ k. (state S.Store k.conn).is_clean };

    ghost may_leave = { λ k. MayBeFound (state S.Store k.conn) };

    ghost faults = { λ k. k.faults };

    ghost calls = { λ k. k.calls };

    fn load(&mut self, alloc: Global) -> Result<Tables, LoadFault> {
        self.calls = self.calls.saturating_add(1);
        self.read(alloc)
    }

    fn commit(&mut self, alloc: Global, change: &Change) -> Result<(), EdgeFault> {
        self.calls = self.calls.saturating_add(1);
        self.keep(alloc, change)
    }
}
