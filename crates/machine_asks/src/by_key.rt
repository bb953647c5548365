//! A machine registers with a pre-auth key.
ghost use Rattle.std.specs.Prelude.{◌≡◌, IfOk};
ghost use Rattle.std.specs.Option.{option_copied};
ghost use Rattle.tail_base.specs.Steps.{Gives};
ghost use Rattle.machine_asks.specs.ByKey as spec;

use crate::MachineAnswer;
use crate::ids::one_id;
use desk_state::{
    Decision, Entrant, Refusal, Snapshot, expiry_of, is_ahead, joined, machine_row, place_for,
    row_change, same_row, tags_granted,
};
use fresh_maps::profile_of;
use net_addr::Moment;
use net_rows::{AuthKey, Change, Machine, Pending};
use std::alloc::Global;
use tail_base::{Duplicate, Failure, Items, MachineKey, NoMemory, Tag, Text, sorted_once};
use tailcfg::Register;

fn usable_key<'a>(at: &Snapshot<'a>, text: &Text) -> Result<&'a AuthKey, Failure<Refusal>>
    ensures value { Gives (λ k. k.now) result (spec.usable_key at.now text.now) }
{
    let Some(key) = at.tables.key_of(text.as_str()) else {
        return Err(Failure::Fault(Refusal::KeyUnknown));
    };
    if !is_ahead(at.time, key.expiry) {
        return Err(Failure::Fault(Refusal::KeyExpired));
    }
    if key.used && !key.reusable {
        return Err(Failure::Fault(Refusal::KeyUsed));
    }
    Ok(key)
}

fn all_tags(alloc: Global, key: &AuthKey, form: &Register) -> Result<Items<Tag>, NoMemory>
    ensures value { IfOk result (λ tags. tags ≡ spec.all_tags key.now form.now) }
{
    let tags = joined(alloc, key.tags.as_slice(), form.tags.as_slice())?;
    sorted_once(alloc, tags.as_slice())
}

fn entrant_of_key(
    alloc: Global,
    at: &Snapshot<'_>,
    form: &Register,
    key: &AuthKey,
) -> Result<Entrant, NoMemory>
    ensures value { IfOk result (λ entrant. entrant ≡ spec.entrant_of_key at.now form.now key.now) }
{
    let tags = all_tags(alloc, key, form)?;
    let expiry = expiry_of(at, form.expiry, tags.as_slice());
    Ok(Entrant {
        node: form.node,
        user: key.user,
        host: form.host.copy(alloc)?,
        routes: form.routes.copy(alloc)?,
        tags,
        ephemeral: key.ephemeral || form.ephemeral,
        expiry,
    })
}

/// Whether a registration leaves all rows as they are.
fn changes_nothing(
    row: Option<&Machine>,
    renewed: &Machine,
    key: &AuthKey,
    pending: Option<&Pending>,
) -> bool
    ensures value { result ≡ spec.changes_nothing (option_copied row.entry) renewed.now key.now
        (option_copied pending.entry) }
{
    match row {
        None => false,
        Some(row) => same_row(row, renewed) && key.used && pending.is_none(),
    }
}

/// The change that puts the row, unless nothing changes.
fn change_by_key(
    alloc: Global,
    at: &Snapshot<'_>,
    was: Option<&Machine>,
    row: Machine,
    next: u32,
    key: &AuthKey,
) -> Result<Option<Change>, NoMemory>
    ensures value { IfOk result (λ change. change
        ≡ spec.change_by_key at.now (option_copied was.entry) row next key.now) }
{
    let pending = at.tables.pending_of(&row.machine);
    if changes_nothing(was, &row, key, pending) {
        return Ok(None);
    }
    Ok(Some(row_change(alloc, at.tables, row, next, Some(key), pending)?))
}

/// The answer to a machine that is registered for this user, with a node key of this expiry.
fn registered(
    alloc: Global,
    at: &Snapshot<'_>,
    user: u32,
    expiry: Option<Moment>,
) -> Result<MachineAnswer, NoMemory>
    ensures value { IfOk result (λ answer. answer ≡ spec.registered at.now user expiry) }
{
    Ok(MachineAnswer::Registered {
        profile: profile_of(alloc, at.tables, user)?,
        expired: !is_ahead(at.time, expiry),
    })
}

fn admitted_by_key(
    alloc: Global,
    at: &Snapshot<'_>,
    was: Option<&Machine>,
    row: Machine,
    next: u32,
    key: &AuthKey,
) -> Result<Decision<MachineAnswer>, NoMemory>
    ensures value { IfOk result (λ d. d
        ≡ spec.admitted_by_key at.now (option_copied was.entry) row next key.now) }
{
    let (id, user, expiry) = (row.id, row.user, row.expiry);
    let change = change_by_key(alloc, at, was, row, next, key)?;
    let offline = one_id(alloc, id)?;
    let answer = registered(alloc, at, user, expiry)?;
    Ok(Decision {
        change,
        policy: None,
        offline,
        ended: Items::new(alloc),
        answer,
    })
}

/// A machine registers with the pre-auth key of its form. A machine without a row gets one; one
/// with a row keeps its place, and takes the rest anew. If that leaves each row as it is, none changes.
pub(crate) fn by_key(
    alloc: Global,
    at: &Snapshot<'_>,
    machine: &MachineKey,
    form: &Register,
    was: Option<&Machine>,
) -> Result<Decision<MachineAnswer>, Failure<Refusal>>
    ensures value { Gives (λ d. d) result
        (spec.by_key at.now machine.now form.now (option_copied was.entry)) }
{
    let key = usable_key(at, &form.auth)?;
    tags_granted(at, key.user, form.tags.as_slice())?;
    let place = place_for(alloc, at, &form.host, was)?;
    let next = place.next;
    let entrant = entrant_of_key(alloc, at, form, key)?;
    let row = machine_row(alloc, machine, entrant, place);
    Ok(admitted_by_key(alloc, at, was, row, next, key)?)
}
