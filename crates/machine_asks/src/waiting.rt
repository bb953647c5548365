//! A machine waits for an operator.
ghost use Rattle.std.specs.Prelude.{◌≡◌, ◌<◌, IfOk, length};
ghost use Rattle.std.specs.Option.{option_copied};
ghost use Rattle.tail_base.specs.Steps.{Gives};
ghost use Rattle.net_rows.specs.Shelf.{without};
ghost use Rattle.net_rows.specs.declared.pending.Pending.{Pending};
ghost use Rattle.machine_asks.specs.Waiting as spec;

use crate::MachineAnswer;
use desk_state::{Decision, Refusal, Scarce, Snapshot, is_overdue, pending_gone, row_text};
use net_rows::{COUNTER_LIMIT, Change, Counters, PENDING_LIMIT, Pending, Row, Tables};
use std::alloc::Global;
use tail_base::{Duplicate, Failure, Items, MachineKey, NoMemory, NodeKey};
use tailcfg::Register;

fn waits(at: &Snapshot<'_>, node: &NodeKey, entry: &Pending) -> bool
    ensures value { result ≡ spec.waits at.now node.now entry.now }
{
    entry.node == *node && !is_overdue(at, entry)
}

/// How many entries have another id.
fn count_others(pending: &[Pending], id: u32) -> usize
    ensures value { result ≡ length (without (λ (r : Pending). r.id) pending.now id) }
{
    let mut count = 0;
    for entry in pending {
        if entry.id != id {
            count += 1;
        }
    }
    count
}

/// How many entries are left without the one that goes.
fn count_left(pending: &[Pending], old: Option<&Pending>) -> usize
    ensures value { result ≡ length (spec.pending_left pending.now (option_copied old.entry)) }
{
    match old {
        None => pending.len(),
        Some(old) => count_others(pending, old.id),
    }
}

fn has_place(tables: &Tables, old: Option<&Pending>) -> bool
    ensures value { result ≡ spec.has_place tables.now.rows (option_copied old.entry) }
{
    count_left(tables.pending(), old) < PENDING_LIMIT && tables.next().pending < COUNTER_LIMIT
}

fn new_entry(
    alloc: Global,
    at: &Snapshot<'_>,
    machine: &MachineKey,
    form: &Register,
    words: &[u64; 4],
) -> Result<Pending, NoMemory>
    ensures value { IfOk result (λ p. p ≡ spec.new_entry at.now machine.now form.now words.now) }
{
    let id = at.tables.next().pending;
    Ok(Pending {
        id,
        text: row_text(alloc, "reg-", id, &words[..2])?,
        machine: *machine,
        node: form.node,
        host: form.host.copy(alloc)?,
        routes: form.routes.copy(alloc)?,
        tags: form.tags.copy(alloc)?,
        ephemeral: form.ephemeral,
        expiry: form.expiry,
        made: at.time,
    })
}

fn entry_change(
    alloc: Global,
    tables: &Tables,
    entry: Pending,
    old: Option<&Pending>,
) -> Result<Change, NoMemory>
    requires counter { tables.now.rows.next.pending < 2147483647 }
    ensures value { IfOk result (λ c. c
        ≡ spec.entry_change tables.now.rows entry (option_copied old.entry)) }
{
    let next = tables.next();
    let mut puts = Items::new(alloc);
    puts.push(Row::Pending(entry))?;
    Ok(Change {
        puts,
        gone: pending_gone(alloc, old)?,
        next: Counters {
            pending: next.pending + 1,
            ..next
        },
    })
}

fn waiting_entered(
    alloc: Global,
    tables: &Tables,
    entry: Pending,
    old: Option<&Pending>,
) -> Result<Decision<MachineAnswer>, NoMemory>
    requires counter { tables.now.rows.next.pending < 2147483647 }
    ensures value { IfOk result (λ d. d
        ≡ spec.waiting_entered tables.now.rows entry (option_copied old.entry)) }
{
    let pending = entry.text.copy(alloc)?;
    let change = entry_change(alloc, tables, entry, old)?;
    let answer = MachineAnswer::LoginAt { pending };
    Ok(Decision::changing(alloc, change, answer))
}

fn waits_on(alloc: Global, entry: &Pending) -> Result<Decision<MachineAnswer>, NoMemory>
    ensures value { IfOk result (λ d. d ≡ spec.waits_on entry.now) }
{
    let answer = MachineAnswer::LoginAt {
        pending: entry.text.copy(alloc)?,
    };
    Ok(Decision::only(alloc, answer))
}

/// A machine waits for an operator: under its entry, where that is for this node key and its time
/// hasn't passed, and else under a new one.
pub(crate) fn wait(
    alloc: Global,
    at: &Snapshot<'_>,
    machine: &MachineKey,
    form: &Register,
    words: Option<[u64; 4]>,
) -> Result<Decision<MachineAnswer>, Failure<Refusal>>
    ensures value { Gives (λ d. d) result (spec.wait at.now machine.now form.now words) }
{
    let old = at.tables.pending_of(machine);
    if let Some(entry) = old
        && waits(at, &form.node, entry)
    {
        return Ok(waits_on(alloc, entry)?);
    }
    if !has_place(at.tables, old) {
        return Err(Failure::Fault(Refusal::Full(Scarce::Pending)));
    }
    let Some(words) = words else {
        return Err(Failure::Fault(Refusal::EntropyFault));
    };
    let entry = new_entry(alloc, at, machine, form, &words)?;
    Ok(waiting_entered(alloc, at.tables, entry, old)?)
}
