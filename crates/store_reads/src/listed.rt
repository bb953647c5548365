//! The rows of a kind, read from those that its table shows.
ghost use Rattle.std.specs.Prelude.{◌≡◌, ◌∷◌, ◌++◌, [], List, Some, map, is_ok, IfErr, IfOk, IfSome, OnOk};
ghost use Rattle.std.specs.List.{AllByRecursion};
ghost use Rattle.sqlite.specs.Given.{IsPlain};
ghost use Rattle.sqlite.specs.Held.{state};
ghost use Rattle.sqlite.specs.Listing.{understood};
ghost use Rattle.sqlite.specs.State.{HasCleanDisk, Shown};
ghost use Rattle.sqlite_value.specs.Order.{Row};
ghost use Rattle.store_commits.specs.declared.fault.Fault.TheVariants.{NoMemory};
ghost use Rattle.store_sql.specs.Schema.{schema_1};
ghost use Rattle.store_reads.specs.Readable.{Fills, IsOutside, IsReadable, Yields, shown_row};
ghost use Rattle.store_reads.specs.Causes.{FailsOnlyFor, IsCaused, ListsOurs, load_fault_of};
ghost use Rattle.store_reads.specs.Back.{IsRowTaken};
ghost use Rattle.store_reads.specs.Damages.{IsFirstUnread, NamesDamage, id_in};
ghost use Rattle.store_reads.specs.Seen.{IsSeen};

use crate::cells::cells_of;
use crate::loaded::Loaded;
use crate::sql::rows_of;
use row_keeper::LoadFault;
use sqlite::types::ValueRef;
use sqlite::{Alter, Connection, Row};
use std::alloc::Global;
use store_commits::Fault;
use tail_base::Items;

/// What it means for a load that the store did nothing.
pub fn load_fault(fault: Fault) -> LoadFault
    ensures value { result ≡ load_fault_of fault }
    ensures outside { IsOutside result }
{
    match fault {
        Fault::Failed => LoadFault::Failed,
        Fault::NoMemory => LoadFault::NoMemory,
    }
}

/// The id that a row shows; 0 where it shows none.
fn id_of(row: &Row) -> u32
    ensures value { result ≡ id_in row.now }
{
    match row.get_ref(0) {
        Ok(ValueRef::Int(n)) => u32::try_from(n).unwrap_or(0),
        _ => 0,
    }
}

/// The row of an id that stands so in the database, if it is one.
fn read_row<T: Loaded>(alloc: Global, row: &Row) -> Result<Option<T>, Fault>
    ensures read { (x : T) → row.now ≡ shown_row (T.stored x) → IsReadable T.stored T.Typed x
        → IfOk result (λ found. found ≡ Some x) }
    ensures back { IfOk result (λ found. IfSome found (λ x.
        (row.now ≡ shown_row (T.stored x)) × IsReadable T.stored T.Typed x)) }
    ensures err { IfErr result (λ fault. fault ≡ NoMemory) }
{
    T::cells_are_of_ours();
    let cells = cells_of(alloc, row)?;
    Ok(T::read(alloc, cells.as_slice())?)
}

/// Adds the row of a kind that this is, if it is one; else it is damaged.
fn take_row<T: Loaded>(alloc: Global, row: &Row, all: &mut Items<T>) -> Result<(), LoadFault>
    ensures read { (x : T) → row.now ≡ shown_row (T.stored x) → IsReadable T.stored T.Typed x
        → Fills result (all.new ≡ all.old ++ x ∷ []) }
    ensures back { OnOk result (IsRowTaken T.stored T.Typed row.now all.old all.new) }
    ensures err { IfErr result (FailsOnlyFor ⊥) }
    ensures unread { IfErr result (NamesDamage (λ d.
        d ≡ record { kind = T.kind_is; id = id_in row.now })) }
{
    match read_row(alloc, row) {
        Ok(Some(read)) => match all.push(read) {
            Ok(()) => Ok(()),
            Err(_) => Err(LoadFault::NoMemory),
        },
        Ok(None) => Err(LoadFault::Damaged {
            kind: T::kind(),
            id: id_of(row),
        }),
        Err(fault) => Err(load_fault(fault)),
    }
}

/// The rows of a kind; the first that is no stored row is damaged.
fn rows_in<T: Loaded>(alloc: Global, rows: &[Row]) -> Result<Items<T>, LoadFault>
    ensures read { (xs : List T) → rows.now ≡ map (λ x. shown_row (T.stored x)) xs
        → AllByRecursion (IsReadable T.stored T.Typed) xs → Yields result xs }
    ensures back { IfOk result (λ xs. (rows.now ≡ map (λ x. shown_row (T.stored x)) xs)
        × AllByRecursion (IsReadable T.stored T.Typed) xs) }
    ensures err { IfErr result (FailsOnlyFor ⊥) }
    ensures unread { IfErr result (NamesDamage
        (IsFirstUnread T.stored T.Typed T.kind_is rows.now)) }
{
    let mut all = Items::new(alloc);
    for row in rows {
        match take_row(alloc, row, &mut all) {
            Ok(()) => {}
            Err(fault) => return Err(fault),
        }
    }
    Ok(all)
}

/// The rows of a kind that the database keeps.
pub(crate) fn read_all<T: Loaded, S: Alter>(
    conn: &mut Connection<S>,
    alloc: Global,
) -> Result<Items<T>, LoadFault>
    ensures seen { IsPlain (understood schema_1 T.select_text)
        → IsSeen schema_1 (state S.Store conn.old) (state S.Store conn.new) (is_ok result) }
    ensures cause { ListsOurs T.select_text
        → IsCaused (state S.Store conn.old) (state S.Store conn.new) result }
    ensures read { HasCleanDisk (state S.Store conn.new) → (xs : List T)
        → ((rows : List Row)
        → Shown T.select_text [] (state S.Store conn.old) (state S.Store conn.new) rows
        → rows ≡ map (λ x. shown_row (T.stored x)) xs)
        → AllByRecursion (IsReadable T.stored T.Typed) xs → Yields result xs }
    ensures back { HasCleanDisk (state S.Store conn.new) → IfOk result (λ xs.
        Shown T.select_text [] (state S.Store conn.old) (state S.Store conn.new)
        (map (λ x. shown_row (T.stored x)) xs)
        × AllByRecursion (IsReadable T.stored T.Typed) xs) }
    ensures unread { HasCleanDisk (state S.Store conn.new) → IfErr result (NamesDamage (λ d.
        (rows : List Row)
        × Shown T.select_text [] (state S.Store conn.old) (state S.Store conn.new) rows
        × IsFirstUnread T.stored T.Typed T.kind_is rows d)) }
{
    match rows_of(conn, T::select()) {
        Ok(rows) => rows_in(alloc, rows.as_slice()),
        Err(fault) => Err(load_fault(fault)),
    }
}
