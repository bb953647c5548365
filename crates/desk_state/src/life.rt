//! What an event sees of the state, and which machines are live in it.
ghost use Rattle.std.specs.Prelude.{◌≡◌, ◌∷◌, ◌++◌, [], IfOk, OnOk, Some, if◌then◌else◌};
ghost use Rattle.desk_state.specs.State.{State, is_ahead, is_live, is_live_with, is_online, is_overdue, is_past, live_ids, presence_of, stays, stays_with};

use crate::presence::{MachinePresence, Presence};
use crate::session::Sessions;
use net_addr::Moment;
use net_rows::{Machine, Pending, Shelf, Tables};
use policy_eval::InForce;
use settings::{Settings, SettingsFields};
use std::alloc::Global;
use std::marker::Model;
use tail_base::{Items, NoMemory};

/// The state at an event's moment, as its decision sees it.
#[derive(Drop)]
pub struct Snapshot<'a> {
    pub settings: &'a Settings,
    pub tables: &'a Tables,
    /// The policy in force.
    pub policy: &'a InForce,
    pub presence: &'a Shelf<MachinePresence>,
    pub sessions: &'a Sessions,
    pub time: Moment,
}

impl<'a> Model for Snapshot<'a> {
    ghost use Rattle.desk_state.specs.State.{State};

    ghost Value = { State };

    ghost view = { λ a. record {
      settings = a.settings.now;
      rows = a.tables.now.rows;
      policy = a.policy.now;
      presence = a.presence.now.0;
      sessions = a.sessions.now.rows.0;
      attached = a.sessions.now.attached.0;
      next_session = a.sessions.now.next;
      now = a.time;
    } };
}

/// Whether there is no end, or it is still to come.
pub fn is_ahead(now: Moment, end: Option<Moment>) -> bool
    ensures value { result ≡ is_ahead now end }
{
    match end {
        None => true,
        Some(end) => now.is_before(end),
    }
}

/// Whether this many seconds have passed since then.
fn is_past(now: Moment, since: Moment, seconds: u32) -> bool
    ensures value { result ≡ is_past now since seconds }
{
    !now.is_before(since.plus(seconds))
}

/// Whether the time of a machine that waits has passed.
pub fn is_overdue(at: &Snapshot<'_>, entry: &Pending) -> bool
    ensures value { result ≡ is_overdue at.now entry.now }
{
    is_past(at.time, entry.made, at.settings.fields().pending_seconds)
}

fn stays(settings: &SettingsFields, now: Moment, presence: &Presence) -> bool
    ensures value { result ≡ stays settings.now now presence.now }
{
    match presence {
        Presence::Online => true,
        Presence::OfflineSince(since) => now.is_before(since.plus(settings.ephemeral_seconds)),
    }
}

fn stays_with(settings: &SettingsFields, now: Moment, presence: Option<Presence>) -> bool
    ensures value { result ≡ stays_with settings.now now presence }
{
    match presence {
        None => false,
        Some(presence) => stays(settings, now, &presence),
    }
}

/// The presence of the machine of an id.
pub fn presence_of(presence: &Shelf<MachinePresence>, id: u32) -> Option<Presence>
    ensures value { result ≡ presence_of presence.now.0 id }
{
    presence.get(id).map(|held| held.presence)
}

/// Whether a machine with this presence is live.
pub fn is_live_with(at: &Snapshot<'_>, presence: Option<Presence>, machine: &Machine) -> bool
    ensures value { result ≡ is_live_with at.now presence machine.now }
{
    is_ahead(at.time, machine.expiry)
        && (!machine.ephemeral || stays_with(at.settings.fields(), at.time, presence))
}

/// Whether the machine is live. Its presence is looked up only if it is ephemeral: others live without
/// being online.
pub fn is_live(at: &Snapshot<'_>, machine: &Machine) -> bool
    ensures value { result ≡ is_live at.now machine.now }
{
    is_ahead(at.time, machine.expiry)
        && (!machine.ephemeral
            || stays_with(
                at.settings.fields(),
                at.time,
                presence_of(at.presence, machine.id),
            ))
}

/// Adds the machine's id, if it is live.
fn add_live(at: &Snapshot<'_>, ids: &mut Items<u32>, machine: &Machine) -> Result<(), NoMemory>
    ensures ok { OnOk result (ids.new
        ≡ ids.old ++ (if is_live at.now machine.now then machine.now.id ∷ [] else [])) }
{
    if is_live(at, machine) {
        ids.push(machine.id)
    } else {
        Ok(())
    }
}

/// The ids of the machines that are live.
pub fn live_ids(alloc: Global, at: &Snapshot<'_>) -> Result<Items<u32>, NoMemory>
    ensures value { IfOk result (λ ids. ids ≡ live_ids at.now) }
{
    let count = at.tables.machines().len();
    let mut ids = Items::from_vec(Vec::with_capacity(alloc, count)?);
    for machine in at.tables.machines() {
        add_live(at, &mut ids, machine)?;
    }
    Ok(ids)
}

/// Whether a machine of this presence is online.
pub fn is_online(presence: Option<Presence>) -> bool
    ensures value { result ≡ is_online presence }
{
    match presence {
        Some(Presence::Online) => true,
        Some(Presence::OfflineSince(_)) | None => false,
    }
}
