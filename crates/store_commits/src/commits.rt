//! A change of the tables as one transaction.
ghost use Rattle.std.specs.Prelude.{◌≡◌, ◌∷◌, [], pos, true, map, is_ok, IsTrue, OnOk, OnErr};
ghost use Rattle.std.specs.List.{AllByRecursion};
ghost use Rattle.std.specs.Str.{is_utf8};
ghost use Rattle.net_rows.specs.Rows.{after, put as put_of, put_all as put_all_of, take_all_out, take_out};
ghost use Rattle.store_rows.specs.Readable.{IsReadableChange, IsReadableExtra, IsReadableRow};
ghost use Rattle.store_rows.specs.Rows.{IsTypedCounters, extra_cells, meta_cells, policy_cells};
ghost use Rattle.store_sql.specs.declared.texts.TheConstants.{INSERT_META, INSERT_POLICY, UPDATE_META, UPDATE_POLICY};
ghost use Rattle.sqlite.specs.State.{HasCleanDisk, Survives};
ghost use Rattle.sqlite.specs.Held.{state};
ghost use Rattle.store_sql.specs.Ran.{IsPutBy};
ghost use Rattle.store_commits.specs.Gone.{gone_text, gone_id};
ghost use Rattle.store_commits.specs.Kept.{HoldsChange, IsAdded, Makes, value_of};
ghost use Rattle.store_commits.specs.Pending.{IsPending, IsSettled, Leaves};

use crate::database_row::DatabaseRow;
use crate::fault::Fault;
use crate::sql::run;
use crate::values::{id_value, values_of};
use net_rows::{Change, Counters, Row, RowKey};
use sqlite::{Alter, Connection, Transaction};
use std::alloc::Global;
use store_rows::{Cell, write_extra, write_meta, write_policy_text};
use store_sql::{
    CLEAR_EXTRAS, DELETE_AUTH_KEYS, DELETE_MACHINES, DELETE_PENDING, DELETE_USERS, INSERT_EXTRAS,
    INSERT_META, INSERT_POLICY, UPDATE_META, UPDATE_POLICY,
};
use tail_base::Text;
use tailcfg::DnsExtra;

/// The text that takes out a row of this kind, and the id that it is given.
fn goes_by(gone: RowKey) -> (&'static str, u32)
    ensures text { result.0.now ≡ gone_text gone }
    ensures id { result.1 ≡ gone_id gone }
{
    match gone {
        RowKey::User(id) => (DELETE_USERS, id),
        RowKey::Key(id) => (DELETE_AUTH_KEYS, id),
        RowKey::Pending(id) => (DELETE_PENDING, id),
        RowKey::Machine(id) => (DELETE_MACHINES, id),
    }
}

/// Takes out the row of an id.
#[tactic(auto, using(crate::proofs::Pending::nothing, crate::proofs::Pending::then))]
fn remove<S: Alter>(tx: &mut Transaction<'_, S>, gone: RowKey) -> Result<(), Fault>
    ensures same_reference { tx.new.conn.ghost_name ≡ tx.old.conn.ghost_name }
    ensures pending { IsPending S.Store tx.old.conn.now tx.new.conn.now (is_ok result) }
    ensures made { HasCleanDisk (state S.Store tx.new.conn.now) → OnOk result (Makes
        (state S.Store tx.old.conn.now).now (state S.Store tx.new.conn.now).now
        (λ rows. take_out rows gone)) }
{
    let (text, id) = goes_by(gone);
    let value = id_value(id);
    run(tx, text, &[value])?;
    Ok(())
}

#[tactic(auto, using(crate::proofs::Pending::nothing, crate::proofs::Pending::then))]
fn remove_all<S: Alter>(tx: &mut Transaction<'_, S>, gone: &[RowKey]) -> Result<(), Fault>
    ensures same_reference { tx.new.conn.ghost_name ≡ tx.old.conn.ghost_name }
    ensures pending { IsPending S.Store tx.old.conn.now tx.new.conn.now (is_ok result) }
    ensures made { HasCleanDisk (state S.Store tx.new.conn.now) → OnOk result (Makes
        (state S.Store tx.old.conn.now).now (state S.Store tx.new.conn.now).now
        (λ rows. take_all_out rows gone.now)) }
{
    for key in gone {
        remove(tx, *key)?;
    }
    Ok(())
}

/// Replaces the row that has the key of these cells, and adds it where there is none.
#[tactic(auto, using(crate::proofs::Pending::nothing, crate::proofs::Pending::then))]
fn put_cells<S: Alter>(
    tx: &mut Transaction<'_, S>,
    alloc: Global,
    update: &str,
    insert: &str,
    cells: &[Cell],
) -> Result<(), Fault>
    ensures same_reference { tx.new.conn.ghost_name ≡ tx.old.conn.ghost_name }
    ensures pending { IsPending S.Store tx.old.conn.now tx.new.conn.now (is_ok result) }
    ensures put { HasCleanDisk (state S.Store tx.new.conn.now) → OnOk result (IsPutBy
        update.now insert.now (map value_of cells.now)
        (state S.Store tx.old.conn.now).now (state S.Store tx.new.conn.now).now) }
{
    let values = values_of(alloc, cells)?;
    let replaced = run(tx, update, values.as_slice())?;
    if replaced > 0 {
        return Ok(());
    }
    run(tx, insert, values.as_slice())?;
    Ok(())
}

/// Puts the row of an id.
#[tactic(auto, using(crate::proofs::Pending::nothing, crate::proofs::Pending::then))]
fn put<T: DatabaseRow, S: Alter>(
    tx: &mut Transaction<'_, S>,
    alloc: Global,
    row: &T,
) -> Result<(), Fault>
    ensures same_reference { tx.new.conn.ghost_name ≡ tx.old.conn.ghost_name }
    ensures pending { IsPending S.Store tx.old.conn.now tx.new.conn.now (is_ok result) }
    ensures put { HasCleanDisk (state S.Store tx.new.conn.now) → OnOk result (IsPutBy
        T.update_text T.insert_text (map value_of (T.cells row.now))
        (state S.Store tx.old.conn.now).now (state S.Store tx.new.conn.now).now) }
    ensures readable { OnOk result (T.Readable row.now) }
{
    let cells = row.write(alloc)?;
    put_cells(tx, alloc, T::update(), T::insert(), cells.as_slice())
}

/// Adds the extra record of a place.
#[tactic(auto, using(crate::proofs::Pending::nothing, crate::proofs::Pending::then))]
fn add_extra<S: Alter>(
    tx: &mut Transaction<'_, S>,
    alloc: Global,
    place: u32,
    extra: &DnsExtra,
) -> Result<(), Fault>
    ensures same_reference { tx.new.conn.ghost_name ≡ tx.old.conn.ghost_name }
    ensures pending { IsPending S.Store tx.old.conn.now tx.new.conn.now (is_ok result) }
    ensures added { HasCleanDisk (state S.Store tx.new.conn.now) → OnOk result (IsAdded
        (map value_of (extra_cells place extra.now))
        (state S.Store tx.old.conn.now).now (state S.Store tx.new.conn.now).now) }
    ensures readable { OnOk result (IsReadableExtra extra.now) }
{
    let cells = write_extra(alloc, place, extra)?;
    let values = values_of(alloc, cells.as_slice())?;
    run(tx, INSERT_EXTRAS, values.as_slice())?;
    Ok(())
}

/// Puts the list of extra records: all rows go, and the new ones stand from place 1 on.
#[tactic(auto, using(crate::proofs::Pending::nothing, crate::proofs::Pending::then))]
fn put_extras<S: Alter>(
    tx: &mut Transaction<'_, S>,
    alloc: Global,
    extras: &[DnsExtra],
) -> Result<(), Fault>
    ensures same_reference { tx.new.conn.ghost_name ≡ tx.old.conn.ghost_name }
    ensures pending { IsPending S.Store tx.old.conn.now tx.new.conn.now (is_ok result) }
    ensures made { HasCleanDisk (state S.Store tx.new.conn.now) → OnOk result (Makes
        (state S.Store tx.old.conn.now).now (state S.Store tx.new.conn.now).now
        (λ rows. record rows { extras = extras.now })) }
    ensures readable { OnOk result (AllByRecursion IsReadableExtra extras.now) }
{
    run(tx, CLEAR_EXTRAS, &[])?;
    let mut last = 0u32;
    for extra in extras {
        let place = last.checked_add(1).ok_or(Fault::Failed)?;
        add_extra(tx, alloc, place, extra)?;
        last = place;
    }
    Ok(())
}

#[tactic(auto, using(crate::proofs::Pending::nothing, crate::proofs::Pending::then))]
fn put_policy<S: Alter>(
    tx: &mut Transaction<'_, S>,
    alloc: Global,
    text: &Text,
) -> Result<(), Fault>
    ensures same_reference { tx.new.conn.ghost_name ≡ tx.old.conn.ghost_name }
    ensures pending { IsPending S.Store tx.old.conn.now tx.new.conn.now (is_ok result) }
    ensures put { HasCleanDisk (state S.Store tx.new.conn.now) → OnOk result (IsPutBy
        UPDATE_POLICY.now INSERT_POLICY.now (map value_of (policy_cells text.now))
        (state S.Store tx.old.conn.now).now (state S.Store tx.new.conn.now).now) }
    ensures readable { OnOk result (is_utf8 text.now ≡ true) }
{
    let cells = write_policy_text(alloc, text)?;
    put_cells(tx, alloc, UPDATE_POLICY, INSERT_POLICY, cells.as_slice())
}

#[tactic(auto, using(crate::proofs::Pending::nothing, crate::proofs::Pending::then))]
fn put_row<S: Alter>(tx: &mut Transaction<'_, S>, alloc: Global, row: &Row) -> Result<(), Fault>
    ensures same_reference { tx.new.conn.ghost_name ≡ tx.old.conn.ghost_name }
    ensures pending { IsPending S.Store tx.old.conn.now tx.new.conn.now (is_ok result) }
    ensures made { HasCleanDisk (state S.Store tx.new.conn.now) → OnOk result (Makes
        (state S.Store tx.old.conn.now).now (state S.Store tx.new.conn.now).now
        (λ rows. put_of rows row.now)) }
    ensures readable { OnOk result (IsReadableRow row.now) }
{
    match row {
        Row::User(user) => put(tx, alloc, user),
        Row::Key(key) => put(tx, alloc, key),
        Row::Pending(entry) => put(tx, alloc, entry),
        Row::Machine(machine) => put(tx, alloc, machine),
        Row::Extras(extras) => put_extras(tx, alloc, extras.as_slice()),
        Row::Policy(text) => put_policy(tx, alloc, text),
    }
}

#[tactic(auto, using(crate::proofs::Pending::nothing, crate::proofs::Pending::then))]
fn put_all<S: Alter>(tx: &mut Transaction<'_, S>, alloc: Global, puts: &[Row]) -> Result<(), Fault>
    ensures same_reference { tx.new.conn.ghost_name ≡ tx.old.conn.ghost_name }
    ensures pending { IsPending S.Store tx.old.conn.now tx.new.conn.now (is_ok result) }
    ensures made { HasCleanDisk (state S.Store tx.new.conn.now) → OnOk result (Makes
        (state S.Store tx.old.conn.now).now (state S.Store tx.new.conn.now).now
        (λ rows. put_all_of rows puts.now)) }
    ensures readable { OnOk result (AllByRecursion IsReadableRow puts.now) }
{
    for row in puts {
        put_row(tx, alloc, row)?;
    }
    Ok(())
}

/// Puts the row of the counters.
#[tactic(auto, using(crate::proofs::Pending::nothing, crate::proofs::Pending::then))]
pub(crate) fn put_next<S: Alter>(
    tx: &mut Transaction<'_, S>,
    alloc: Global,
    next: &Counters,
) -> Result<(), Fault>
    ensures same_reference { tx.new.conn.ghost_name ≡ tx.old.conn.ghost_name }
    ensures pending { IsPending S.Store tx.old.conn.now tx.new.conn.now (is_ok result) }
    ensures put { HasCleanDisk (state S.Store tx.new.conn.now) → OnOk result (IsPutBy
        UPDATE_META.now INSERT_META.now (map value_of (meta_cells next.now))
        (state S.Store tx.old.conn.now).now (state S.Store tx.new.conn.now).now) }
    ensures readable { OnOk result (IsTypedCounters next.now) }
{
    let cells = write_meta(alloc, next)?;
    put_cells(tx, alloc, UPDATE_META, INSERT_META, cells.as_slice())
}

/// Writes the change: gone rows go first, then the rows are put in order, and then the counters.
#[tactic(auto, using(crate::proofs::Pending::nothing, crate::proofs::Pending::then))]
fn write<S: Alter>(tx: &mut Transaction<'_, S>, alloc: Global, change: &Change) -> Result<(), Fault>
    ensures same_reference { tx.new.conn.ghost_name ≡ tx.old.conn.ghost_name }
    ensures pending { IsPending S.Store tx.old.conn.now tx.new.conn.now (is_ok result) }
    ensures made { HasCleanDisk (state S.Store tx.new.conn.now) → OnOk result (Makes
        (state S.Store tx.old.conn.now).now (state S.Store tx.new.conn.now).now
        (λ rows. after rows change.now)) }
    ensures readable { OnOk result (IsReadableChange change.now) }
{
    remove_all(tx, change.gone.as_slice())?;
    put_all(tx, alloc, change.puts.as_slice())?;
    put_next(tx, alloc, &change.next)
}

/// Keeps the change in one transaction, which is rolled back where a statement fails.
pub fn commit<S: Alter>(
    conn: &mut Connection<S>,
    alloc: Global,
    change: &Change,
) -> Result<(), Fault>
    ensures ok { HasCleanDisk (state S.Store conn.new)
        → OnOk result (IsSettled (state S.Store conn.new)) }
    ensures made { HasCleanDisk (state S.Store conn.new) → OnOk result (Makes
        (state S.Store conn.old).now (state S.Store conn.new).now
        (λ rows. after rows change.now)) }
    ensures err { HasCleanDisk (state S.Store conn.new)
        → OnErr result (Leaves (state S.Store conn.old) (state S.Store conn.new)) }
    ensures opened { HasCleanDisk (state S.Store conn.new)
        → IsTrue (state S.Store conn.new).is_open → IsTrue (state S.Store conn.old).is_open }
    ensures readable { OnOk result (IsReadableChange change.now) }
    ensures crash { Survives (state S.Store conn.old) (state S.Store conn.new)
        (HoldsChange (state S.Store conn.old).now change.now) }
{
    if !conn.is_autocommit() {
        return Err(Fault::Failed);
    }
    let mut tx = conn.transaction();
    write(&mut tx, alloc, change)?;
    tx.commit()?;
    Ok(())
}
