//! All rows that a database keeps.
ghost use Rattle.std.specs.Prelude.{◌≡◌, is_ok, IfErr, IfOk, OnOk};
ghost use Rattle.store_rows.specs.Reading.{auth_key_of, machine_in_cells, pending_in_cells, user_in_cells};
ghost use Rattle.store_rows.specs.Rows.{IsTypedKey, IsTypedMachine, IsTypedPending, IsTypedUser, auth_key_cells, machine_cells, pending_cells, user_cells};
ghost use Rattle.net_rows.specs.declared.change.Kind.{Kind as RowKind};
ghost use Rattle.net_rows.specs.declared.rows.Rows.{Rows};
ghost use Rattle.sqlite.specs.Held.{state};
ghost use Rattle.sqlite.specs.State.{HasCleanDisk};
ghost use Rattle.store_commits.specs.Kept.{AreStored, Keeps};
ghost use Rattle.store_sql.specs.Schema.{schema_1};
ghost use Rattle.store_reads.specs.Readable.{AreReadable, Fills, Yields};
ghost use Rattle.store_reads.specs.Causes.{IsCaused};
ghost use Rattle.store_reads.specs.Back.{HoldsReadable, IsOurs};
ghost use Rattle.store_reads.specs.Damages.{Breaks, FindsAll, IsFirstIn, NamesDamage, WhereOurs};
ghost use Rattle.store_reads.specs.Seen.{IsSeen};

use crate::listed::read_all;
use crate::single::{read_extras, read_next, read_policy};
use net_rows::{AuthKey, Machine, Pending, Rows, User};
use row_keeper::LoadFault;
use sqlite::{Alter, Connection};
use std::alloc::Global;
use store_commits::FIRST;
use tail_base::Items;

/// The users that the database keeps.
fn read_users<S: Alter>(conn: &mut Connection<S>, alloc: Global) -> Result<Items<User>, LoadFault>
    ensures seen { IsSeen schema_1 (state S.Store conn.old) (state S.Store conn.new)
        (is_ok result) }
    ensures cause { IsCaused (state S.Store conn.old) (state S.Store conn.new) result }
    ensures read { HasCleanDisk (state S.Store conn.new) → (all : Rows)
        → Keeps (state S.Store conn.old).now all → AreReadable all → Yields result all.users }
    ensures back { HasCleanDisk (state S.Store conn.new) → IsOurs (state S.Store conn.old).now
        → IfOk result (HoldsReadable user_cells IsTypedUser
        ((state S.Store conn.old).now.trees 1)) }
    ensures finds { WhereOurs (state S.Store conn.old) (state S.Store conn.new)
        (FindsAll RowKind.User user_in_cells ((state S.Store conn.old).now.trees 1) result) }
{
    read_all(conn, alloc)
}

/// The keys that the database keeps.
fn read_keys<S: Alter>(conn: &mut Connection<S>, alloc: Global) -> Result<Items<AuthKey>, LoadFault>
    ensures seen { IsSeen schema_1 (state S.Store conn.old) (state S.Store conn.new)
        (is_ok result) }
    ensures cause { IsCaused (state S.Store conn.old) (state S.Store conn.new) result }
    ensures read { HasCleanDisk (state S.Store conn.new) → (all : Rows)
        → Keeps (state S.Store conn.old).now all → AreReadable all → Yields result all.keys }
    ensures back { HasCleanDisk (state S.Store conn.new) → IsOurs (state S.Store conn.old).now
        → IfOk result (HoldsReadable auth_key_cells IsTypedKey
        ((state S.Store conn.old).now.trees 3)) }
    ensures finds { WhereOurs (state S.Store conn.old) (state S.Store conn.new)
        (FindsAll RowKind.Key auth_key_of ((state S.Store conn.old).now.trees 3) result) }
{
    read_all(conn, alloc)
}

/// The pending entries that the database keeps.
fn read_pending_entries<S: Alter>(
    conn: &mut Connection<S>,
    alloc: Global,
) -> Result<Items<Pending>, LoadFault>
    ensures seen { IsSeen schema_1 (state S.Store conn.old) (state S.Store conn.new)
        (is_ok result) }
    ensures cause { IsCaused (state S.Store conn.old) (state S.Store conn.new) result }
    ensures read { HasCleanDisk (state S.Store conn.new) → (all : Rows)
        → Keeps (state S.Store conn.old).now all → AreReadable all → Yields result all.pending }
    ensures back { HasCleanDisk (state S.Store conn.new) → IsOurs (state S.Store conn.old).now
        → IfOk result (HoldsReadable pending_cells IsTypedPending
        ((state S.Store conn.old).now.trees 5)) }
    ensures finds { WhereOurs (state S.Store conn.old) (state S.Store conn.new)
        (FindsAll RowKind.Pending pending_in_cells ((state S.Store conn.old).now.trees 5) result) }
{
    read_all(conn, alloc)
}

/// The machines that the database keeps.
fn read_machines<S: Alter>(
    conn: &mut Connection<S>,
    alloc: Global,
) -> Result<Items<Machine>, LoadFault>
    ensures seen { IsSeen schema_1 (state S.Store conn.old) (state S.Store conn.new)
        (is_ok result) }
    ensures cause { IsCaused (state S.Store conn.old) (state S.Store conn.new) result }
    ensures read { HasCleanDisk (state S.Store conn.new) → (all : Rows)
        → Keeps (state S.Store conn.old).now all → AreReadable all → Yields result all.machines }
    ensures back { HasCleanDisk (state S.Store conn.new) → IsOurs (state S.Store conn.old).now
        → IfOk result (HoldsReadable machine_cells IsTypedMachine
        ((state S.Store conn.old).now.trees 8)) }
    ensures finds { WhereOurs (state S.Store conn.old) (state S.Store conn.new)
        (FindsAll RowKind.Machine machine_in_cells ((state S.Store conn.old).now.trees 8) result) }
{
    read_all(conn, alloc)
}

/// Reads each list and the counters, one behind the other. It fills what its caller holds, since rows
/// that stand here would be taken apart at each `?`.
fn fill<S: Alter>(conn: &mut Connection<S>, alloc: Global, rows: &mut Rows) -> Result<(), LoadFault>
    ensures seen { IsSeen schema_1 (state S.Store conn.old) (state S.Store conn.new)
        (is_ok result) }
    ensures cause { IsCaused (state S.Store conn.old) (state S.Store conn.new) result }
    ensures read { HasCleanDisk (state S.Store conn.new) → (all : Rows)
        → Keeps (state S.Store conn.old).now all → AreReadable all
        → Fills result (rows.new ≡ all) }
    ensures back { HasCleanDisk (state S.Store conn.new) → IsOurs (state S.Store conn.old).now
        → OnOk result (AreStored (state S.Store conn.old).now.trees rows.new
        × AreReadable rows.new) }
    ensures unread { WhereOurs (state S.Store conn.old) (state S.Store conn.new)
        (IfErr result (NamesDamage (IsFirstIn (state S.Store conn.old).now.trees))) }
    ensures broken { WhereOurs (state S.Store conn.old) (state S.Store conn.new)
        (OnOk result (Breaks (state S.Store conn.old).now.trees rows.new)) }
{
    rows.next = read_next(conn, alloc)?;
    rows.users = read_users(conn, alloc)?;
    rows.keys = read_keys(conn, alloc)?;
    rows.pending = read_pending_entries(conn, alloc)?;
    rows.machines = read_machines(conn, alloc)?;
    rows.extras = read_extras(conn, alloc)?;
    rows.policy = read_policy(conn, alloc)?;
    Ok(())
}

/// No rows, and counters at 1.
fn no_rows(alloc: Global) -> Rows {
    Rows {
        users: Items::new(alloc),
        keys: Items::new(alloc),
        pending: Items::new(alloc),
        machines: Items::new(alloc),
        extras: Items::new(alloc),
        policy: None,
        next: FIRST,
    }
}

/// All rows that the database keeps. The first in the order of reading that is no stored row is
/// damaged.
pub fn read_rows<S: Alter>(conn: &mut Connection<S>, alloc: Global) -> Result<Rows, LoadFault>
    ensures seen { IsSeen schema_1 (state S.Store conn.old) (state S.Store conn.new)
        (is_ok result) }
    ensures cause { IsCaused (state S.Store conn.old) (state S.Store conn.new) result }
    ensures read { HasCleanDisk (state S.Store conn.new) → (all : Rows)
        → Keeps (state S.Store conn.old).now all → AreReadable all → Yields result all }
    ensures back { HasCleanDisk (state S.Store conn.new) → IsOurs (state S.Store conn.old).now
        → IfOk result (λ all.
        AreStored (state S.Store conn.old).now.trees all × AreReadable all) }
    ensures unread { WhereOurs (state S.Store conn.old) (state S.Store conn.new)
        (IfErr result (NamesDamage (IsFirstIn (state S.Store conn.old).now.trees))) }
    ensures broken { WhereOurs (state S.Store conn.old) (state S.Store conn.new)
        (IfOk result (Breaks (state S.Store conn.old).now.trees)) }
{
    let mut rows = no_rows(alloc);
    match fill(conn, alloc, &mut rows) {
        Ok(()) => Ok(rows),
        Err(fault) => Err(fault),
    }
}
