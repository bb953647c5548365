//! An opener over one connection.
ghost use Rattle.std.specs.Prelude.{◌≡◌, None, Some, Err, false, IfOk, OnErr};
ghost use Rattle.std.specs.Option.{option_and_then};
ghost use Rattle.keeper_sqlite.specs.Left.{is_clean_in, may_be_found};
ghost use Rattle.sqlite.specs.Held.{state};
ghost use Rattle.store_loads.specs.Told.{store_tells};

use crate::keeper::SqliteKeeper;
use io_edge::EdgeFault;
use row_keeper::Opener;
use sqlite::{Alter, Connection};
use std::alloc::Global;

/// Hands one connection out as a keeper, whatever the name, and takes it back. It tells what the
/// connection's store tells, while it has it.
#[derive(Drop)]
pub struct SqliteOpener<S: Alter> {
    conn: Option<Connection<S>>,
    faults: u64,
}

impl<S: Alter> SqliteOpener<S> {
    /// An opener that holds this connection.
    pub fn new(conn: Connection<S>) -> SqliteOpener<S>
        ensures conn { result.conn ≡ Some conn }
        ensures faults { result.faults ≡ 0 }
    {
        SqliteOpener {
            conn: Some(conn),
            faults: 0,
        }
    }

    /// The connection as a keeper; a fault, and nothing else, while it is out.
    fn hand_out(&mut self) -> Result<SqliteKeeper<S>, EdgeFault>
        ensures held { IfOk result (λ keeper. self.old.conn ≡ Some keeper.conn) }
        ensures fresh { IfOk result (λ keeper. (keeper.faults ≡ 0) × (keeper.calls ≡ 0)) }
        ensures waits { IfOk result (λ keeper. keeper.is_loaded ≡ false) }
        ensures out { self.old.conn ≡ None → result ≡ Err EdgeFault.Failed }
        ensures err { OnErr result (result ≡ Err EdgeFault.Failed) }
        ensures left { OnErr result (self.new.conn ≡ self.old.conn) }
        ensures faults { self.new.faults ≡ self.old.faults }
    {
        match self.conn.take() {
            Some(conn) => Ok(SqliteKeeper::adopt(conn)),
            None => Err(EdgeFault::Failed),
        }
    }
}

impl<S: Alter + Drop + Send> Opener for SqliteOpener<S> {
    type Keeper = SqliteKeeper<S>;

    ghost told = { λ o. option_and_then (λ c. store_tells (state S.Store c)) o.conn };

    ghost is_clean = { λ o. is_clean_in (state S.Store) o.conn };

    ghost may_leave = { λ o. may_be_found (state S.Store) o.conn };

    ghost asked = { λ _. None };

    ghost faults = { λ o. o.faults };

    fn open(&mut self, _: Global, _: &str) -> Result<SqliteKeeper<S>, EdgeFault> {
        let handed = self.hand_out();
        if handed.is_err() {
            self.faults = self.faults.saturating_add(1);
        }
        handed
    }

    fn close(&mut self, keeper: SqliteKeeper<S>) {
        self.faults = self.faults.saturating_add(keeper.faults());
        self.conn = Some(keeper.give_back());
    }
}
