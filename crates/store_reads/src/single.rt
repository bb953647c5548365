//! Counters, extra records and the policy, which have no ids.
ghost use Rattle.std.specs.Prelude.{◌≡◌, ◌∷◌, ◌++◌, [], ℕ, true, List, Option, Some, map, is_ok, IfErr, IfOk, IfSome, OnOk};
ghost use Rattle.std.specs.List.{AllByRecursion};
ghost use Rattle.std.specs.Option.{option_to_list};
ghost use Rattle.std.specs.Str.{is_utf8};
ghost use Rattle.net_rows.specs.declared.change.Counters.{Counters};
ghost use Rattle.net_rows.specs.declared.change.Kind.{Kind as RowKind};
ghost use Rattle.net_rows.specs.declared.rows.Rows.{Rows};
ghost use Rattle.row_keeper.specs.declared.keeper.LoadFault.TheVariants.{Damaged};
ghost use Rattle.sqlite.specs.Held.{state};
ghost use Rattle.sqlite.specs.State.{HasCleanDisk};
ghost use Rattle.tailcfg.specs.declared.dns.DnsExtra.{DnsExtra};
ghost use Rattle.store_commits.specs.Kept.{Keeps};
ghost use Rattle.store_commits.specs.declared.fault.Fault.TheVariants.{NoMemory};
ghost use Rattle.store_reads.specs.Back.{HoldsExtras, HoldsNext, HoldsPolicy, IsOurs, IsTakenExtra};
ghost use Rattle.store_rows.specs.Rows.{IsTypedCounters, extra_cells, meta_cells, policy_cells};
ghost use Rattle.store_sql.specs.Schema.{schema_1};
ghost use Rattle.store_reads.specs.Causes.{FailsOnlyFor, IsCaused};
ghost use Rattle.store_reads.specs.Damages.{FindsOne, NamesDamage, WhereOurs};
ghost use Rattle.store_reads.specs.Readable.{AreReadable, Fills, IsReadableExtra, Yields, shown_extras, shown_row};
ghost use Rattle.store_reads.specs.Seen.{IsSeen};
ghost use Rattle.store_reads.specs.Values.{extras_in, next_in, policy_in_rows};

use crate::cells::cells_of;
use crate::listed::load_fault;
use crate::sql::rows_of;
use net_rows::{Counters, Kind};
use row_keeper::LoadFault;
use sqlite::{Alter, Connection, Row};
use std::alloc::Global;
use store_commits::Fault;
use store_rows::{read_extra, read_meta, read_policy_text};
use store_sql::{SELECT_EXTRAS, SELECT_META, SELECT_POLICY};
use tail_base::{Items, Text};
use tailcfg::DnsExtra;

/// Damage of what has no id.
fn damaged(kind: Kind) -> LoadFault
    ensures value { result ≡ Damaged kind 0 }
{
    LoadFault::Damaged { kind, id: 0 }
}

/// The counters in the one row that holds them, if it is such a row.
#[tactic(auto, using(crate::proofs::GivenBack::all_given_back))]
fn next_in(alloc: Global, rows: &[Row]) -> Result<Option<Counters>, Fault>
    ensures read { (next : Counters) → rows.now ≡ shown_row (meta_cells next) ∷ []
        → IsTypedCounters next → IfOk result (λ found. found ≡ Some next) }
    ensures back { IfOk result (λ found. IfSome found (λ next.
        (rows.now ≡ shown_row (meta_cells next) ∷ []) × IsTypedCounters next)) }
    ensures err { IfErr result (λ fault. fault ≡ NoMemory) }
{
    let [row] = rows else {
        return Ok(None);
    };
    let cells = cells_of(alloc, row)?;
    Ok(read_meta(alloc, cells.as_slice())?)
}

/// The counters that these rows hold.
fn next_of(alloc: Global, rows: &[Row]) -> Result<Counters, LoadFault>
    ensures read { (next : Counters) → rows.now ≡ shown_row (meta_cells next) ∷ []
        → IsTypedCounters next → Yields result next }
    ensures back { IfOk result (λ next.
        (rows.now ≡ shown_row (meta_cells next) ∷ []) × IsTypedCounters next) }
    ensures err { IfErr result (FailsOnlyFor ⊥) }
    ensures unread { IfErr result (NamesDamage
        (λ d. d ≡ record { kind = RowKind.Meta; id = 0 })) }
{
    match next_in(alloc, rows) {
        Ok(Some(next)) => Ok(next),
        Ok(None) => Err(damaged(Kind::Meta)),
        Err(fault) => Err(load_fault(fault)),
    }
}

/// The counters that the database keeps.
pub(crate) fn read_next<S: Alter>(
    conn: &mut Connection<S>,
    alloc: Global,
) -> Result<Counters, LoadFault>
    ensures seen { IsSeen schema_1 (state S.Store conn.old) (state S.Store conn.new)
        (is_ok result) }
    ensures cause { IsCaused (state S.Store conn.old) (state S.Store conn.new) result }
    ensures read { HasCleanDisk (state S.Store conn.new) → (all : Rows)
        → Keeps (state S.Store conn.old).now all → AreReadable all → Yields result all.next }
    ensures back { HasCleanDisk (state S.Store conn.new) → IsOurs (state S.Store conn.old).now
        → IfOk result (HoldsNext ((state S.Store conn.old).now.trees 0)) }
    ensures finds { WhereOurs (state S.Store conn.old) (state S.Store conn.new)
        (FindsOne RowKind.Meta next_in ((state S.Store conn.old).now.trees 0) result) }
{
    match rows_of(conn, SELECT_META) {
        Ok(rows) => next_of(alloc, rows.as_slice()),
        Err(fault) => Err(load_fault(fault)),
    }
}

/// The extra record of a place that stands so in the database, if it is one.
#[tactic(auto, using(crate::proofs::GivenBack::all_given_back))]
fn extra_in(alloc: Global, place: u32, row: &Row) -> Result<Option<DnsExtra>, Fault>
    ensures read { (x : DnsExtra) → row.now ≡ shown_row (extra_cells place x)
        → IsReadableExtra x → IfOk result (λ found. found ≡ Some x) }
    ensures back { IfOk result (λ found. IfSome found (λ x.
        (row.now ≡ shown_row (extra_cells place x)) × IsReadableExtra x)) }
    ensures err { IfErr result (λ fault. fault ≡ NoMemory) }
{
    let cells = cells_of(alloc, row)?;
    Ok(read_extra(alloc, place, cells.as_slice())?)
}

/// Adds the extra record of a place that this is, if it is one; else the records are damaged.
fn take_extra(
    alloc: Global,
    place: u32,
    row: &Row,
    extras: &mut Items<DnsExtra>,
) -> Result<(), LoadFault>
    ensures read { (x : DnsExtra) → row.now ≡ shown_row (extra_cells place x)
        → IsReadableExtra x → Fills result (extras.new ≡ extras.old ++ x ∷ []) }
    ensures back { OnOk result (IsTakenExtra place row.now extras.old extras.new) }
    ensures err { IfErr result (FailsOnlyFor ⊥) }
    ensures unread { IfErr result (NamesDamage
        (λ d. d ≡ record { kind = RowKind.Extras; id = 0 })) }
{
    match extra_in(alloc, place, row) {
        Ok(Some(extra)) => match extras.push(extra) {
            Ok(()) => Ok(()),
            Err(_) => Err(LoadFault::NoMemory),
        },
        Ok(None) => Err(damaged(Kind::Extras)),
        Err(fault) => Err(load_fault(fault)),
    }
}

/// The extra records of these rows, whose places count from 1.
fn extras_in(alloc: Global, rows: &[Row]) -> Result<Items<DnsExtra>, LoadFault>
    ensures read { (xs : List DnsExtra) → rows.now ≡ shown_extras 1 xs
        → AllByRecursion IsReadableExtra xs → Yields result xs }
    ensures back { IfOk result (λ xs.
        (rows.now ≡ shown_extras 1 xs) × AllByRecursion IsReadableExtra xs) }
    ensures err { IfErr result (FailsOnlyFor ⊥) }
    ensures unread { IfErr result (NamesDamage
        (λ d. d ≡ record { kind = RowKind.Extras; id = 0 })) }
{
    let mut extras = Items::new(alloc);
    let mut last = 0u32;
    for row in rows {
        // More records than a place can count would be more than memory holds.
        let Some(place) = last.checked_add(1) else {
            return Err(LoadFault::NoMemory);
        };
        match take_extra(alloc, place, row, &mut extras) {
            Ok(()) => {}
            Err(fault) => return Err(fault),
        }
        last = place;
    }
    Ok(extras)
}

/// The extra records that the database keeps.
pub(crate) fn read_extras<S: Alter>(
    conn: &mut Connection<S>,
    alloc: Global,
) -> Result<Items<DnsExtra>, LoadFault>
    ensures seen { IsSeen schema_1 (state S.Store conn.old) (state S.Store conn.new)
        (is_ok result) }
    ensures cause { IsCaused (state S.Store conn.old) (state S.Store conn.new) result }
    ensures read { HasCleanDisk (state S.Store conn.new) → (all : Rows)
        → Keeps (state S.Store conn.old).now all → AreReadable all → Yields result all.extras }
    ensures back { HasCleanDisk (state S.Store conn.new) → IsOurs (state S.Store conn.old).now
        → IfOk result (HoldsExtras ((state S.Store conn.old).now.trees 14)) }
    ensures finds { WhereOurs (state S.Store conn.old) (state S.Store conn.new)
        (FindsOne RowKind.Extras (extras_in 1) ((state S.Store conn.old).now.trees 14) result) }
{
    match rows_of(conn, SELECT_EXTRAS) {
        Ok(rows) => extras_in(alloc, rows.as_slice()),
        Err(fault) => Err(load_fault(fault)),
    }
}

/// The policy's text in the one row that holds it, if it is such a row.
#[tactic(auto, using(crate::proofs::GivenBack::all_given_back))]
fn policy_in(alloc: Global, row: &Row) -> Result<Option<Text>, Fault>
    ensures read { (body : List ℕ) → row.now ≡ shown_row (policy_cells body)
        → is_utf8 body ≡ true → IfOk result (λ found. found ≡ Some body) }
    ensures back { IfOk result (λ found. IfSome found (λ body.
        (row.now ≡ shown_row (policy_cells body)) × (is_utf8 body ≡ true))) }
    ensures err { IfErr result (λ fault. fault ≡ NoMemory) }
{
    let cells = cells_of(alloc, row)?;
    Ok(read_policy_text(alloc, cells.as_slice())?)
}

/// The policy's text that these rows hold; None before the first is kept.
fn policy_of(alloc: Global, rows: &[Row]) -> Result<Option<Text>, LoadFault>
    ensures read { (policy : Option (List ℕ))
        → rows.now ≡ map (λ body. shown_row (policy_cells body)) (option_to_list policy)
        → IfSome policy (λ body. is_utf8 body ≡ true) → Yields result policy }
    ensures back { IfOk result (λ policy.
        (rows.now ≡ map (λ body. shown_row (policy_cells body)) (option_to_list policy))
        × IfSome policy (λ body. is_utf8 body ≡ true)) }
    ensures err { IfErr result (FailsOnlyFor ⊥) }
    ensures unread { IfErr result (NamesDamage
        (λ d. d ≡ record { kind = RowKind.Policy; id = 0 })) }
{
    match rows {
        [] => Ok(None),
        [row] => match policy_in(alloc, row) {
            Ok(Some(text)) => Ok(Some(text)),
            Ok(None) => Err(damaged(Kind::Policy)),
            Err(fault) => Err(load_fault(fault)),
        },
        _ => Err(damaged(Kind::Policy)),
    }
}

/// The policy's text that the database keeps; None before the first is kept.
pub(crate) fn read_policy<S: Alter>(
    conn: &mut Connection<S>,
    alloc: Global,
) -> Result<Option<Text>, LoadFault>
    ensures seen { IsSeen schema_1 (state S.Store conn.old) (state S.Store conn.new)
        (is_ok result) }
    ensures cause { IsCaused (state S.Store conn.old) (state S.Store conn.new) result }
    ensures read { HasCleanDisk (state S.Store conn.new) → (all : Rows)
        → Keeps (state S.Store conn.old).now all → AreReadable all → Yields result all.policy }
    ensures back { HasCleanDisk (state S.Store conn.new) → IsOurs (state S.Store conn.old).now
        → IfOk result (HoldsPolicy ((state S.Store conn.old).now.trees 15)) }
    ensures finds { WhereOurs (state S.Store conn.old) (state S.Store conn.new)
        (FindsOne RowKind.Policy policy_in_rows ((state S.Store conn.old).now.trees 15) result) }
{
    match rows_of(conn, SELECT_POLICY) {
        Ok(rows) => policy_of(alloc, rows.as_slice()),
        Err(fault) => Err(load_fault(fault)),
    }
}
