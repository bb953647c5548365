//! The tables of a database that has none.
ghost use Rattle.std.specs.Prelude.{◌≡◌, ◌∷◌, ℕ, List, drop, is_ok, IsTrue, OnErr, OnOk};
ghost use Rattle.net_rows.specs.Rows.{empty_rows};
ghost use Rattle.sqlite.specs.Held.{state};
ghost use Rattle.sqlite.specs.State.{HasCleanDisk, Survives};
ghost use Rattle.sqlite_schema.specs.declared.schema.Table.{Table};
ghost use Rattle.store_sql.specs.Making.{LeadsTo, making_texts};
ghost use Rattle.store_sql.specs.Schema.{no_schema};
ghost use Rattle.store_commits.specs.Kept.{AreStored, Keeps};
ghost use Rattle.store_commits.specs.Pending.{IsPending, IsSettled, Leaves};

use crate::commits::put_next;
use crate::fault::Fault;
use crate::sql::run;
use net_rows::Counters;
use sqlite::{Alter, Connection, Transaction};
use std::alloc::Global;
use store_sql::{
    CREATE_AUTH_KEYS, CREATE_EXTRAS, CREATE_MACHINES, CREATE_META, CREATE_PENDING, CREATE_POLICY,
    CREATE_USERS,
};

/// The first id of each kind.
pub const FIRST: Counters = Counters {
    user: 1,
    key: 1,
    pending: 1,
    machine: 1,
};

/// Makes the table of a text.
#[tactic(auto, using(crate::proofs::Pending::nothing, crate::proofs::Pending::then))]
fn make_table<S: Alter>(tx: &mut Transaction<'_, S>, text: &str) -> Result<(), Fault>
    ensures same_reference { tx.new.conn.ghost_name ≡ tx.old.conn.ghost_name }
    ensures pending { IsPending S.Store tx.old.conn.now tx.new.conn.now (is_ok result) }
    ensures leads { HasCleanDisk (state S.Store tx.new.conn.now)
        → (table : Table) (rest : List (List ℕ × Table))
        → LeadsTo ((text.now, table) ∷ rest) (state S.Store tx.old.conn.now).now
        → OnOk result (LeadsTo rest (state S.Store tx.new.conn.now).now) }
{
    run(tx, text, &[])?;
    Ok(())
}

/// Makes the tables of the counters, the users and their keys.
#[tactic(auto, using(crate::proofs::Pending::nothing, crate::proofs::Pending::then))]
fn make_owner_tables<S: Alter>(tx: &mut Transaction<'_, S>) -> Result<(), Fault>
    ensures same_reference { tx.new.conn.ghost_name ≡ tx.old.conn.ghost_name }
    ensures pending { IsPending S.Store tx.old.conn.now tx.new.conn.now (is_ok result) }
    ensures leads { HasCleanDisk (state S.Store tx.new.conn.now)
        → LeadsTo making_texts (state S.Store tx.old.conn.now).now
        → OnOk result (LeadsTo (drop 3 making_texts) (state S.Store tx.new.conn.now).now) }
{
    make_table(tx, CREATE_META)?;
    make_table(tx, CREATE_USERS)?;
    make_table(tx, CREATE_AUTH_KEYS)
}

/// Makes the tables of the pending entries and the machines.
#[tactic(auto, using(crate::proofs::Pending::nothing, crate::proofs::Pending::then))]
fn make_machine_tables<S: Alter>(tx: &mut Transaction<'_, S>) -> Result<(), Fault>
    ensures same_reference { tx.new.conn.ghost_name ≡ tx.old.conn.ghost_name }
    ensures pending { IsPending S.Store tx.old.conn.now tx.new.conn.now (is_ok result) }
    ensures leads { HasCleanDisk (state S.Store tx.new.conn.now)
        → LeadsTo (drop 3 making_texts) (state S.Store tx.old.conn.now).now
        → OnOk result (LeadsTo (drop 5 making_texts) (state S.Store tx.new.conn.now).now) }
{
    make_table(tx, CREATE_PENDING)?;
    make_table(tx, CREATE_MACHINES)
}

/// Makes the tables of the extra records and the policy.
#[tactic(auto, using(crate::proofs::Pending::nothing, crate::proofs::Pending::then))]
fn make_text_tables<S: Alter>(tx: &mut Transaction<'_, S>) -> Result<(), Fault>
    ensures same_reference { tx.new.conn.ghost_name ≡ tx.old.conn.ghost_name }
    ensures pending { IsPending S.Store tx.old.conn.now tx.new.conn.now (is_ok result) }
    ensures leads { HasCleanDisk (state S.Store tx.new.conn.now)
        → LeadsTo (drop 5 making_texts) (state S.Store tx.old.conn.now).now
        → OnOk result (LeadsTo (drop 7 making_texts) (state S.Store tx.new.conn.now).now) }
{
    make_table(tx, CREATE_EXTRAS)?;
    make_table(tx, CREATE_POLICY)
}

/// Makes all tables.
#[tactic(auto, using(crate::proofs::Pending::nothing, crate::proofs::Pending::then))]
fn make_tables<S: Alter>(tx: &mut Transaction<'_, S>) -> Result<(), Fault>
    ensures same_reference { tx.new.conn.ghost_name ≡ tx.old.conn.ghost_name }
    ensures pending { IsPending S.Store tx.old.conn.now tx.new.conn.now (is_ok result) }
    ensures leads { HasCleanDisk (state S.Store tx.new.conn.now)
        → LeadsTo making_texts (state S.Store tx.old.conn.now).now
        → OnOk result (LeadsTo (drop 7 making_texts) (state S.Store tx.new.conn.now).now) }
{
    make_owner_tables(tx)?;
    make_machine_tables(tx)?;
    make_text_tables(tx)
}

/// Makes the tables, and puts the first counters.
#[tactic(auto, using(crate::proofs::Pending::nothing, crate::proofs::Pending::then))]
fn write_first<S: Alter>(tx: &mut Transaction<'_, S>, alloc: Global) -> Result<(), Fault>
    ensures same_reference { tx.new.conn.ghost_name ≡ tx.old.conn.ghost_name }
    ensures pending { IsPending S.Store tx.old.conn.now tx.new.conn.now (is_ok result) }
    ensures made { HasCleanDisk (state S.Store tx.new.conn.now)
        → (state S.Store tx.old.conn.now).now.schema ≡ no_schema
        → OnOk result (Keeps (state S.Store tx.new.conn.now).now empty_rows) }
{
    make_tables(tx)?;
    put_next(tx, alloc, &FIRST)
}

/// Makes the tables, all empty but for the counters, which are 1, in one transaction.
pub fn create<S: Alter>(conn: &mut Connection<S>, alloc: Global) -> Result<(), Fault>
    ensures ok { HasCleanDisk (state S.Store conn.new)
        → OnOk result (IsSettled (state S.Store conn.new)) }
    ensures made { HasCleanDisk (state S.Store conn.new)
        → (state S.Store conn.old).now.schema ≡ no_schema
        → OnOk result (Keeps (state S.Store conn.new).now empty_rows) }
    ensures err { HasCleanDisk (state S.Store conn.new)
        → OnErr result (Leaves (state S.Store conn.old) (state S.Store conn.new)) }
    ensures opened { HasCleanDisk (state S.Store conn.new)
        → IsTrue (state S.Store conn.new).is_open → IsTrue (state S.Store conn.old).is_open }
    ensures crash { Survives (state S.Store conn.old) (state S.Store conn.new)
        (λ trees. (state S.Store conn.old).now.schema ≡ no_schema → AreStored trees empty_rows) }
{
    if !conn.is_autocommit() {
        return Err(Fault::Failed);
    }
    let mut tx = conn.transaction();
    write_first(&mut tx, alloc)?;
    tx.commit()?;
    Ok(())
}
