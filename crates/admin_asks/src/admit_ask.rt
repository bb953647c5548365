//! An operator admits a machine that waits.
ghost use Rattle.std.specs.Prelude.{◌≡◌, IfOk, None, Some};
ghost use Rattle.tail_base.specs.Steps.{Gives};
ghost use Rattle.desk_state.specs.Rows.{row_change};
ghost use Rattle.admin_asks.specs.Admit as spec;

use crate::operator_answer::OperatorAnswer;
use desk_state::{
    Decision, Entrant, Refusal, Snapshot, expiry_of, is_overdue, is_taken, machine_row,
    offline_line, place_for, row_change, tags_granted, user_named,
};
use net_rows::{Change, Machine, Pending, Tables};
use std::alloc::Global;
use tail_base::{Duplicate, Failure, Items, NoMemory, Text, sorted_once};

fn timely_entry<'a>(at: &Snapshot<'a>, text: &Text) -> Result<&'a Pending, Failure<Refusal>>
    ensures value { Gives (λ p. p.now) result (spec.timely_entry at.now text.now) }
{
    let Some(entry) = at.tables.pending_with(text.as_str()) else {
        return Err(Failure::Fault(Refusal::PendingUnknown));
    };
    if is_overdue(at, entry) {
        return Err(Failure::Fault(Refusal::PendingUnknown));
    }
    Ok(entry)
}

fn entrant_of_entry(
    alloc: Global,
    at: &Snapshot<'_>,
    entry: &Pending,
    user: u32,
) -> Result<Entrant, NoMemory>
    ensures value { IfOk result (λ entrant. entrant ≡ spec.entrant_of_entry at.now entry.now user) }
{
    let tags = sorted_once(alloc, entry.tags.as_slice())?;
    let expiry = expiry_of(at, entry.expiry, tags.as_slice());
    Ok(Entrant {
        node: entry.node,
        user,
        host: entry.host.copy(alloc)?,
        routes: entry.routes.copy(alloc)?,
        tags,
        ephemeral: entry.ephemeral,
        expiry,
    })
}

/// The row is put, this is the next id, and the entry goes.
fn admission_change(
    alloc: Global,
    tables: &Tables,
    entry: &Pending,
    row: &Machine,
    next: u32,
) -> Result<Change, NoMemory>
    ensures value { IfOk result (λ change. change
        ≡ row_change tables.now.rows row.now next None (Some entry.now)) }
{
    row_change(alloc, tables, row.copy(alloc)?, next, None, Some(entry))
}

fn admission(
    alloc: Global,
    at: &Snapshot<'_>,
    entry: &Pending,
    row: Machine,
    next: u32,
) -> Result<Decision<OperatorAnswer>, NoMemory>
    ensures value { IfOk result (λ d. d ≡ spec.admission at.now entry.now row next) }
{
    let mut offline = Items::new(alloc);
    offline.push(row.id)?;
    let change = admission_change(alloc, at.tables, entry, &row, next)?;
    let line = offline_line(alloc, at, row)?;
    Ok(Decision {
        change: Some(change),
        policy: None,
        offline,
        ended: Items::new(alloc),
        answer: OperatorAnswer::Node(line),
    })
}

/// The machine that waits under the pending entry of this text is admitted for the user of this
/// login.
///
/// The entry's time mustn't have passed, its node key mustn't be another machine's, and the user has
/// to be granted its tags. The machine's row is made or renewed from what the entry holds, and the
/// entry goes.
pub fn admit(
    alloc: Global,
    at: &Snapshot<'_>,
    pending: &Text,
    login: &Text,
) -> Result<Decision<OperatorAnswer>, Failure<Refusal>>
    ensures value { Gives (λ d. d) result (spec.admit at.now pending.now login.now) }
{
    let entry = timely_entry(at, pending)?;
    let user = user_named(alloc, at.tables, login)?;
    if is_taken(at.tables.machines(), &entry.machine, &entry.node) {
        return Err(Failure::Fault(Refusal::NodeKeyTaken));
    }
    tags_granted(at, user.id, entry.tags.as_slice())?;
    let place = place_for(alloc, at, &entry.host, at.tables.machine_of(&entry.machine))?;
    let next = place.next;
    let entrant = entrant_of_entry(alloc, at, entry, user.id)?;
    let row = machine_row(alloc, &entry.machine, entrant, place);
    Ok(admission(alloc, at, entry, row, next)?)
}
