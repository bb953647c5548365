//! Changes that are tried on the tables before they are committed: a keeper that tells its rows takes
//! no change that breaks their rules.
ghost use Rattle.std.specs.Prelude.{◌≡◌, [], None, IfOk, OnOk};
ghost use Rattle.io_edge.specs.Edge.{IsWhereTold};
ghost use Rattle.net_rows.specs.Damage.{damage};
ghost use Rattle.net_rows.specs.Rows.{after};

use io_edge::EdgeFault;
use net_rows::{AuthKey, Change, Counters, Lists, Machine, Pending, Rows, Tables, User};
use row_keeper::Keeper;
use std::alloc::Global;
use std::test::Fail;
use tail_base::{Duplicate, Items, NoMemory, Text};
use tailcfg::DnsExtra;

/// Rows without machines, extra records and a policy.
fn small_rows(
    alloc: Global,
    users: &[User],
    keys: &[AuthKey],
    pending: &[Pending],
    next: Counters,
) -> Result<Rows, NoMemory>
    ensures rows { IfOk result (λ rows. rows ≡ record {
      users = users.now;
      keys = keys.now;
      pending = pending.now;
      machines = [];
      extras = [];
      policy = None;
      next = next;
    }) }
{
    let users = Items::from_slice(alloc, users)?;
    let keys = Items::from_slice(alloc, keys)?;
    let pending = Items::from_slice(alloc, pending)?;
    Ok(Rows {
        users,
        keys,
        pending,
        machines: Items::new(alloc),
        extras: Items::new(alloc),
        policy: None,
        next,
    })
}

/// These rows with machines, extra records and a policy.
fn with_others(
    alloc: Global,
    mut rows: Rows,
    machines: &[Machine],
    extras: &[DnsExtra],
    policy: &Option<Text>,
) -> Result<Rows, NoMemory>
    ensures rows { IfOk result (λ made. made ≡ record rows {
      machines = machines.now;
      extras = extras.now;
      policy = policy.now;
    }) }
{
    rows.policy = policy.copy(alloc)?;
    rows.extras = Items::from_slice(alloc, extras)?;
    rows.machines = Items::from_slice(alloc, machines)?;
    Ok(rows)
}

/// The rows of these tables.
fn rows_of(alloc: Global, tables: &Tables) -> Result<Rows, NoMemory>
    ensures rows { IfOk result (λ rows. rows ≡ tables.now.rows) }
    ensures sound { damage tables.now.rows ≡ None }
{
    let (users, keys) = (tables.users(), tables.keys());
    let rows = small_rows(alloc, users, keys, tables.pending(), tables.next())?;
    with_others(
        alloc,
        rows,
        tables.machines(),
        tables.extras(),
        tables.policy(),
    )
}

/// The rows of these lists.
fn rows_in(alloc: Global, lists: &Lists) -> Result<Rows, NoMemory>
    ensures rows { IfOk result (λ rows. rows ≡ lists.now.rows) }
{
    let (users, keys) = (lists.users(), lists.keys());
    let rows = small_rows(alloc, users, keys, lists.pending(), lists.next())?;
    with_others(
        alloc,
        rows,
        lists.machines(),
        lists.extras(),
        lists.policy(),
    )
}

/// The rows of these lists after the change.
fn rows_applied(alloc: Global, mut lists: Lists, change: Change) -> Result<Rows, NoMemory>
    ensures rows { IfOk result (λ rows. rows ≡ after lists.rows change) }
{
    lists.reserve(change.puts.as_slice())?;
    lists.apply(change);
    rows_in(alloc, &lists)
}

/// The rows after the change, whatever they are: those of the tables in lists that keep no rules, where
/// it is applied.
fn rows_after(alloc: Global, tables: &Tables, change: &Change) -> Result<Rows, NoMemory>
    ensures rows { IfOk result (λ rows. rows ≡ after tables.now.rows change.now) }
{
    let change = change.copy(alloc)?;
    let rows = rows_of(alloc, tables)?;
    rows_applied(alloc, Lists::from_rows(rows), change)
}

/// The tables after the change, which is to keep their rules.
fn tables_after(alloc: Global, tables: &Tables, change: &Change) -> Result<Tables, Fail>
    ensures rows { IfOk result (λ left. left.rows ≡ after tables.now.rows change.now) }
    ensures sound { OnOk result (damage (after tables.now.rows change.now) ≡ None) }
{
    match Tables::checked(rows_after(alloc, tables, change)?) {
        Ok(left) => Ok(left),
        Err(_) => Err(Fail::from("the change breaks a rule")),
    }
}

/// Commits a change of these tables, and gives those after it.
fn commit<K: Keeper>(
    alloc: Global,
    keeper: &mut K,
    tables: &Tables,
    change: &Change,
) -> Result<Tables, Fail>
    requires told { IsWhereTold tables.now.rows (K.told keeper.old) }
    ensures told { IfOk result (λ left. IsWhereTold left.rows (K.told keeper.new)) }
{
    let left = tables_after(alloc, tables, change)?;
    match keeper.commit(alloc, change) {
        Ok(()) => Ok(left),
        Err(_) => Err(Fail::from("the change isn't kept")),
    }
}

/// The tables that the keeper keeps.
pub fn load<K: Keeper>(alloc: Global, keeper: &mut K) -> Result<Tables, Fail>
    ensures told { IfOk result (λ tables. IsWhereTold tables.rows (K.told keeper.new)) }
{
    match keeper.load(alloc) {
        Ok(tables) => Ok(tables),
        Err(_) => Err(Fail::from("the tables aren't loaded")),
    }
}

/// Loads the tables, commits a change of them, and gives those after it.
pub(crate) fn commit_over<K: Keeper>(
    alloc: Global,
    keeper: &mut K,
    change: &Change,
) -> Result<Tables, Fail>
    ensures told { IfOk result (λ left. IsWhereTold left.rows (K.told keeper.new)) }
{
    let tables = load(alloc, keeper)?;
    commit(alloc, keeper, &tables, change)
}

/// What a keeper answers to a change of these tables.
pub fn answer_to<K: Keeper>(
    alloc: Global,
    keeper: &mut K,
    tables: &Tables,
    change: &Change,
) -> Result<Result<(), EdgeFault>, Fail>
    requires told { IsWhereTold tables.now.rows (K.told keeper.old) }
{
    let _left = tables_after(alloc, tables, change)?;
    Ok(keeper.commit(alloc, change))
}

/// Loads the tables, and commits the change twice, so that each row is added and then replaced.
pub fn commit_twice<K: Keeper>(alloc: Global, keeper: &mut K, change: &Change) -> Result<(), Fail> {
    let added = commit_over(alloc, keeper, change)?;
    let _replaced = commit(alloc, keeper, &added, change)?;
    Ok(())
}
