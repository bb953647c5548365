//! Rows that have outlived their time go.
ghost use Rattle.std.specs.Prelude.{◌≡◌, ◌≤◌, ◌++◌, IfOk, length};
ghost use Rattle.net_rows.specs.declared.limits.TheConstants.{MACHINE_LIMIT, PENDING_LIMIT};
ghost use Rattle.tail_base.specs.Steps.{Gives};
ghost use Rattle.admin_asks.specs.Sweep as spec;

use crate::operator_answer::OperatorAnswer;
use desk_state::{Decision, Refusal, Snapshot, is_live, is_overdue};
use net_rows::{Change, Machine, Pending, RowKey, Tables};
use std::alloc::Global;
use tail_base::{Failure, Items, NoMemory};

fn is_lost(at: &Snapshot<'_>, machine: &Machine) -> bool
    ensures value { result ≡ spec.is_lost at.now machine.now }
{
    machine.ephemeral && !is_live(at, machine)
}

/// The ephemeral machines that aren't live.
fn lost_machines(
    alloc: Global,
    at: &Snapshot<'_>,
    machines: &[Machine],
) -> Result<Items<RowKey>, NoMemory>
    ensures value { IfOk result (λ gone. gone ≡ spec.lost_machines at.now machines.now) }
{
    let mut gone = Items::new(alloc);
    for machine in machines {
        if is_lost(at, machine) {
            gone.push(RowKey::Machine(machine.id))?;
        }
    }
    Ok(gone)
}

/// The pending entries whose time has passed.
fn overdue_entries(
    alloc: Global,
    at: &Snapshot<'_>,
    entries: &[Pending],
) -> Result<Items<RowKey>, NoMemory>
    ensures value { IfOk result (λ gone. gone ≡ spec.overdue_entries at.now entries.now) }
{
    let mut gone = Items::new(alloc);
    for entry in entries {
        if is_overdue(at, entry) {
            gone.push(RowKey::Pending(entry.id))?;
        }
    }
    Ok(gone)
}

fn append(first: Items<RowKey>, more: &[RowKey]) -> Result<Items<RowKey>, NoMemory>
    ensures value { IfOk result (λ all. all ≡ first ++ more.now) }
{
    let mut all = first.into_vec();
    all.extend_from_slice(more)?;
    Ok(Items::from_vec(all))
}

fn sweep_change(
    alloc: Global,
    tables: &Tables,
    machines: Items<RowKey>,
    pending: &[RowKey],
) -> Result<Change, NoMemory>
    ensures value { IfOk result (λ c. c ≡ spec.sweep_change tables.now.rows machines pending.now) }
{
    Ok(Change {
        puts: Items::new(alloc),
        gone: append(machines, pending)?,
        next: tables.next(),
    })
}

fn sweep_decision(
    alloc: Global,
    tables: &Tables,
    machines: Items<RowKey>,
    pending: Items<RowKey>,
) -> Result<Decision<OperatorAnswer>, NoMemory>
    requires machines { length machines ≤ MACHINE_LIMIT }
    requires pending { length pending ≤ PENDING_LIMIT }
    ensures value { IfOk result (λ d. d ≡ spec.sweep_decision tables.now.rows machines pending) }
{
    let machine_count = machines.len() as u32;
    let pending_count = pending.len() as u32;
    let answer = OperatorAnswer::Swept {
        machines: machine_count,
        pending: pending_count,
    };
    if machine_count + pending_count == 0 {
        return Ok(Decision::only(alloc, answer));
    }
    let change = sweep_change(alloc, tables, machines, pending.as_slice())?;
    Ok(Decision::changing(alloc, change, answer))
}

/// The ephemeral machines that aren't live go, and the pending entries whose time has passed.
pub fn sweep(alloc: Global, at: &Snapshot<'_>) -> Result<Decision<OperatorAnswer>, Failure<Refusal>>
    ensures value { Gives (λ d. d) result (spec.sweep at.now) }
{
    let machines = lost_machines(alloc, at, at.tables.machines())?;
    let pending = overdue_entries(alloc, at, at.tables.pending())?;
    Ok(sweep_decision(alloc, at.tables, machines, pending)?)
}
