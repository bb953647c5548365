//! The tables that a database keeps.
ghost use Rattle.std.specs.Prelude.{◌≡◌, [], ℕ, false, Some, None, Ok, Err, IfOk, IfErr, IsTrue, OnOk, is_ok};
ghost use Rattle.io_edge.specs.Edge.{IsWhereTold, StillTells};
ghost use Rattle.net_rows.specs.declared.change.Kind.{Kind as RowKind};
ghost use Rattle.net_rows.specs.Damage.{damage};
ghost use Rattle.net_rows.specs.Rows.{empty_rows};
ghost use Rattle.net_rows.specs.declared.rows.Rows.{Rows};
ghost use Rattle.sqlite.specs.Held.{state};
ghost use Rattle.sqlite.specs.State.{HasCleanDisk, IsLive, Shown, Survives};
ghost use Rattle.store_commits.specs.Kept.{AreStored, Keeps};
ghost use Rattle.store_loads.specs.First.{IsFirstDamage};
ghost use Rattle.store_loads.specs.Tells.{Holds, IsAtRest, IsFirst, IsKnown, IsSpared};
ghost use Rattle.store_loads.specs.Told.{store_tells};
ghost use Rattle.store_reads.specs.Causes.{FailsOnlyFor, IsCaused};
ghost use Rattle.store_reads.specs.Damages.{IsFirstIn, NamesDamage, WhereOurs};
ghost use Rattle.store_reads.specs.Readable.{AreReadable, Fills, IsOutside};
ghost use Rattle.store_reads.specs.Seen.{IsSeen};
ghost use Rattle.store_sql.specs.Schema.{no_schema, schema_1};
ghost use Rattle.store_sql.specs.declared.texts.TheConstants.{SELECT_SCHEMA};

use crate::schema::{is_empty, is_schema_1};
use net_rows::{Damage, Kind, Rows, Tables};
use row_keeper::LoadFault;
use sqlite::{Alter, Connection, Row};
use std::alloc::Global;
use store_commits::{Fault, create};
use store_reads::{load_fault, read_rows, rows_of};
use store_sql::SELECT_SCHEMA;

/// What a database lists, whatever it is.
fn listed<S: Alter>(conn: &mut Connection<S>) -> Result<Vec<Row>, Fault>
    ensures seen { IsSeen no_schema (state S.Store conn.old) (state S.Store conn.new)
        (is_ok result) }
    ensures shown { HasCleanDisk (state S.Store conn.new) → IfOk result (λ rows.
        Shown SELECT_SCHEMA.now [] (state S.Store conn.old) (state S.Store conn.new)
        rows.items) }
{
    rows_of(conn, SELECT_SCHEMA)
}

/// Makes the tables in a database that has nothing. One that has what the store doesn't read is left
/// as it is.
fn make<S: Alter>(conn: &mut Connection<S>, alloc: Global) -> Result<(), Fault>
    ensures made { HasCleanDisk (state S.Store conn.new)
        → (state S.Store conn.old).now.schema ≡ no_schema
        → OnOk result (Keeps (state S.Store conn.new).now empty_rows) }
    ensures crash { HasCleanDisk (state S.Store conn.new)
        → (state S.Store conn.old).now.schema ≡ no_schema
        → Survives (state S.Store conn.old) (state S.Store conn.new)
        (λ trees. AreStored trees empty_rows) }
    ensures left { IsAtRest (state S.Store conn.old)
        → (state S.Store conn.old).now.schema ≡ no_schema
        → HasCleanDisk (state S.Store conn.new) → IsTrue (state S.Store conn.new).is_open
        → IsFirst (state S.Store conn.old) (state S.Store conn.new) }
    ensures rest { HasCleanDisk (state S.Store conn.new)
        → OnOk result (IsAtRest (state S.Store conn.new)) }
{
    match listed(conn) {
        Ok(listed) if listed.is_empty() => create(conn, alloc),
        Ok(_) => Err(Fault::Failed),
        Err(fault) => Err(fault),
    }
}

/// Sees that the database has our tables and nothing else.
fn require_ours<S: Alter>(conn: &Connection<S>) -> Result<(), LoadFault>
    ensures ours { OnOk result ((state S.Store conn.now).now.schema ≡ schema_1) }
    ensures there { (state S.Store conn.now).now.schema ≡ schema_1 → result ≡ Ok tt }
    ensures live { IsLive (state S.Store conn.now) }
    ensures foreign { ((state S.Store conn.now).now.schema ≡ schema_1 → ⊥)
        → result ≡ Err (LoadFault.Damaged RowKind.Meta 0) }
{
    if is_schema_1(conn.schema()) {
        Ok(())
    } else {
        Err(LoadFault::Damaged {
            kind: Kind::Meta,
            id: 0,
        })
    }
}

/// Makes the tables in a database that has nothing, and sees that it has them.
fn make_first<S: Alter>(conn: &mut Connection<S>, alloc: Global) -> Result<(), LoadFault>
    ensures ours { OnOk result ((state S.Store conn.new).now.schema ≡ schema_1) }
    ensures first { HasCleanDisk (state S.Store conn.new)
        → (state S.Store conn.old).now.schema ≡ no_schema
        → Fills result (Keeps (state S.Store conn.new).now empty_rows) }
    ensures crash { HasCleanDisk (state S.Store conn.new)
        → (state S.Store conn.old).now.schema ≡ no_schema
        → Survives (state S.Store conn.old) (state S.Store conn.new)
        (λ trees. AreStored trees empty_rows) }
    ensures left { IsAtRest (state S.Store conn.old)
        → (state S.Store conn.old).now.schema ≡ no_schema
        → HasCleanDisk (state S.Store conn.new) → IsTrue (state S.Store conn.new).is_open
        → IsFirst (state S.Store conn.old) (state S.Store conn.new) }
    ensures rest { HasCleanDisk (state S.Store conn.new)
        → OnOk result (IsAtRest (state S.Store conn.new)) }
    ensures live { OnOk result (IsLive (state S.Store conn.new)) }
{
    match make(conn, alloc) {
        Ok(()) => require_ours(conn),
        Err(fault) => Err(load_fault(fault)),
    }
}

/// Sees that the database has our tables and nothing else, and makes them where it has nothing.
#[tactic(auto, using(crate::proofs::Schemas::none_is_not_ours))]
fn prepare<S: Alter>(conn: &mut Connection<S>, alloc: Global) -> Result<(), LoadFault>
    ensures ours { OnOk result ((state S.Store conn.new).now.schema ≡ schema_1) }
    ensures there { (state S.Store conn.old).now.schema ≡ schema_1
        → (result ≡ Ok tt) × (conn.new ≡ conn.old) }
    ensures first { HasCleanDisk (state S.Store conn.new)
        → (state S.Store conn.old).now.schema ≡ no_schema
        → Fills result (Keeps (state S.Store conn.new).now empty_rows) }
    ensures crash { HasCleanDisk (state S.Store conn.new)
        → (state S.Store conn.old).now.schema ≡ no_schema
        → Survives (state S.Store conn.old) (state S.Store conn.new)
        (λ trees. AreStored trees empty_rows) }
    ensures left { IsAtRest (state S.Store conn.old)
        → (state S.Store conn.old).now.schema ≡ no_schema
        → HasCleanDisk (state S.Store conn.new) → IsTrue (state S.Store conn.new).is_open
        → IsFirst (state S.Store conn.old) (state S.Store conn.new) }
    ensures rest { HasCleanDisk (state S.Store conn.new) → IsAtRest (state S.Store conn.old)
        → OnOk result (IsAtRest (state S.Store conn.new)) }
    ensures live { OnOk result (IsLive (state S.Store conn.new)) }
    ensures other { ((state S.Store conn.old).now.schema ≡ no_schema → ⊥)
        → conn.new ≡ conn.old }
    ensures foreign { ((state S.Store conn.old).now.schema ≡ schema_1 → ⊥)
        → ((state S.Store conn.old).now.schema ≡ no_schema → ⊥)
        → result ≡ Err (LoadFault.Damaged RowKind.Meta 0) }
{
    if is_empty(conn.schema()) {
        make_first(conn, alloc)
    } else {
        require_ours(conn)
    }
}

/// The tables of these rows; the first rule that they break is their damage.
fn tables_of(rows: Rows) -> Result<Tables, LoadFault>
    ensures ok { IfOk result (λ tables. tables.rows ≡ rows) }
    ensures whole { damage rows ≡ None → IfErr result IsOutside }
    ensures sound { OnOk result (damage rows ≡ None) }
    ensures err { IfErr result (FailsOnlyFor ⊥) }
    ensures named { IfErr result (NamesDamage (λ d. damage rows ≡ Some d)) }
{
    match Tables::checked(rows) {
        Ok(tables) => Ok(tables),
        Err(Damage { kind, id }) => Err(LoadFault::Damaged { kind, id }),
    }
}

/// The tables that a database of schema 1 keeps.
fn read_tables<S: Alter>(conn: &mut Connection<S>, alloc: Global) -> Result<Tables, LoadFault>
    ensures seen { IsSeen schema_1 (state S.Store conn.old) (state S.Store conn.new)
        (is_ok result) }
    ensures loaded { HasCleanDisk (state S.Store conn.new) → (rows : Rows)
        → Keeps (state S.Store conn.old).now rows → AreReadable rows
        → IfOk result (λ tables. tables.rows ≡ rows) }
    ensures whole { HasCleanDisk (state S.Store conn.new) → (rows : Rows)
        → Keeps (state S.Store conn.old).now rows → AreReadable rows → damage rows ≡ None
        → IfErr result IsOutside }
    ensures known { HasCleanDisk (state S.Store conn.new)
        → (state S.Store conn.old).now.schema ≡ schema_1 → IsLive (state S.Store conn.old)
        → IfOk result (λ tables. IsTrue (state S.Store conn.new).is_open
        → Holds (state S.Store conn.new).now tables.rows) }
    ensures cause { IsCaused (state S.Store conn.old) (state S.Store conn.new) result }
    ensures named { WhereOurs (state S.Store conn.old) (state S.Store conn.new)
        (IfErr result (NamesDamage (IsFirstIn (state S.Store conn.old).now.trees))) }
{
    match read_rows(conn, alloc) {
        Ok(rows) => tables_of(rows),
        Err(fault) => Err(fault),
    }
}

/// The same where the database may have nothing: its tables are made first.
fn load_tables<S: Alter>(conn: &mut Connection<S>, alloc: Global) -> Result<Tables, LoadFault>
    ensures seen { (state S.Store conn.old).now.schema ≡ schema_1
        → IsSeen schema_1 (state S.Store conn.old) (state S.Store conn.new) (is_ok result) }
    ensures loaded { HasCleanDisk (state S.Store conn.new) → (rows : Rows)
        → Keeps (state S.Store conn.old).now rows → AreReadable rows
        → IfOk result (λ tables. tables.rows ≡ rows) }
    ensures whole { HasCleanDisk (state S.Store conn.new) → (rows : Rows)
        → Keeps (state S.Store conn.old).now rows → AreReadable rows → damage rows ≡ None
        → IfErr result IsOutside }
    ensures first { HasCleanDisk (state S.Store conn.new)
        → (state S.Store conn.old).now.schema ≡ no_schema
        → IfOk result (λ tables. tables.rows ≡ empty_rows) }
    ensures first_whole { HasCleanDisk (state S.Store conn.new)
        → (state S.Store conn.old).now.schema ≡ no_schema → IfErr result IsOutside }
    ensures first_crash { HasCleanDisk (state S.Store conn.new)
        → (state S.Store conn.old).now.schema ≡ no_schema
        → Survives (state S.Store conn.old) (state S.Store conn.new)
        (λ trees. AreStored trees empty_rows) }
    ensures still { IsAtRest (state S.Store conn.old)
        → StillTells (store_tells (state S.Store conn.old)) (store_tells (state S.Store conn.new)) }
    ensures known { HasCleanDisk (state S.Store conn.new) → IfOk result (λ tables.
        IsTrue (state S.Store conn.new).is_open
        → Holds (state S.Store conn.new).now tables.rows) }
    ensures keeps { IsAtRest (state S.Store conn.old) → IsKnown (state S.Store conn.old)
        → IsKnown (state S.Store conn.new) }
    ensures cause { IsCaused (state S.Store conn.old) (state S.Store conn.new) result }
    ensures foreign { ((state S.Store conn.old).now.schema ≡ schema_1 → ⊥)
        → ((state S.Store conn.old).now.schema ≡ no_schema → ⊥)
        → (result ≡ Err (LoadFault.Damaged RowKind.Meta 0)) × (conn.new ≡ conn.old) }
    ensures spared { IsAtRest (state S.Store conn.old)
        → (state S.Store conn.old).now.schema ≡ no_schema
        → HasCleanDisk (state S.Store conn.new) → IsTrue (state S.Store conn.new).is_open
        → IsSpared (state S.Store conn.old) (state S.Store conn.new) }
    ensures named { HasCleanDisk (state S.Store conn.new)
        → IfErr result (NamesDamage (IsFirstDamage (state S.Store conn.old).now)) }
{
    match prepare(conn, alloc) {
        Ok(()) => read_tables(conn, alloc),
        Err(fault) => Err(fault),
    }
}

/// The tables that the database keeps. Where it has nothing, they are made first.
///
/// `Damaged` is of what stands there: `Meta` and 0 of another schema than ours, else the kind and the
/// id of the first row that is no stored row, or of the first rule of the tables that the rows break.
/// `Failed` is of a transaction that is under way; over our tables else of a disk that has failed, of a
/// store that was shut, or of a limit of steps; and where the tables are made, of the store, and of what
/// it doesn't read.
#[tactic(auto, using(crate::proofs::Firsts::untouched, crate::proofs::Firsts::unseen))]
pub fn load<S: Alter>(conn: &mut Connection<S>, alloc: Global) -> Result<Tables, LoadFault>
    ensures loaded { HasCleanDisk (state S.Store conn.new) → (rows : Rows)
        → Keeps (state S.Store conn.old).now rows → AreReadable rows → damage rows ≡ None
        → IfOk result (λ tables. tables.rows ≡ rows) }
    ensures whole { HasCleanDisk (state S.Store conn.new) → (rows : Rows)
        → Keeps (state S.Store conn.old).now rows → AreReadable rows → damage rows ≡ None
        → IfErr result IsOutside }
    ensures first { HasCleanDisk (state S.Store conn.new)
        → (state S.Store conn.old).now.schema ≡ no_schema
        → IfOk result (λ tables. tables.rows ≡ empty_rows) }
    ensures first_whole { HasCleanDisk (state S.Store conn.new)
        → (state S.Store conn.old).now.schema ≡ no_schema → IfErr result IsOutside }
    ensures seen { (state S.Store conn.old).now.schema ≡ schema_1
        → IsSeen schema_1 (state S.Store conn.old) (state S.Store conn.new) (is_ok result) }
    ensures first_crash { HasCleanDisk (state S.Store conn.new)
        → (state S.Store conn.old).now.schema ≡ no_schema
        → Survives (state S.Store conn.old) (state S.Store conn.new)
        (λ trees. AreStored trees empty_rows) }
    ensures still { StillTells (store_tells (state S.Store conn.old))
        (store_tells (state S.Store conn.new)) }
    ensures known { HasCleanDisk (state S.Store conn.new) → IfOk result (λ tables.
        IsTrue (state S.Store conn.new).is_open
        → Holds (state S.Store conn.new).now tables.rows) }
    ensures tells { IfOk result (λ tables. IsWhereTold tables.rows
        (store_tells (state S.Store conn.new))) }
    ensures damaged { IfErr result (λ e. (kind : RowKind) (id : ℕ)
        → e ≡ LoadFault.Damaged kind id → store_tells (state S.Store conn.new) ≡ None) }
    ensures knows { OnOk result (IsKnown (state S.Store conn.new)) }
    ensures keeps { IsKnown (state S.Store conn.old) → IsKnown (state S.Store conn.new) }
    ensures busy { IsTrue (state S.Store conn.old).in_transaction
        → (result ≡ Err LoadFault.Failed) × (conn.new ≡ conn.old) }
    ensures cause { (state S.Store conn.old).in_transaction ≡ false
        → IsCaused (state S.Store conn.old) (state S.Store conn.new) result }
    ensures foreign { (state S.Store conn.old).in_transaction ≡ false
        → ((state S.Store conn.old).now.schema ≡ schema_1 → ⊥)
        → ((state S.Store conn.old).now.schema ≡ no_schema → ⊥)
        → (result ≡ Err (LoadFault.Damaged RowKind.Meta 0)) × (conn.new ≡ conn.old) }
    ensures spared { (state S.Store conn.old).now.schema ≡ no_schema
        → HasCleanDisk (state S.Store conn.new) → IsTrue (state S.Store conn.new).is_open
        → IsSpared (state S.Store conn.old) (state S.Store conn.new) }
    ensures named { HasCleanDisk (state S.Store conn.new)
        → IfErr result (NamesDamage (IsFirstDamage (state S.Store conn.old).now)) }
{
    if !conn.is_autocommit() {
        return Err(LoadFault::Failed);
    }
    load_tables(conn, alloc)
}
