//! A poll drains its session: the client is brought to the map that its machine has now.
ghost use Rattle.std.specs.Prelude.{◌≡◌, ◌<◌, ◌≤◌, ◌+◌, ◌^◌, IfOk, IfSome, IsSome, length, true};
ghost use Rattle.std.specs.Option.{option_copied};
ghost use Rattle.map_delta.specs.Delta as delta;
ghost use Rattle.net_rows.specs.Rows.{machine_of};
ghost use Rattle.desk_state.specs.Sessions.{session_of};
ghost use Rattle.machine_asks.specs.Drain as spec;
ghost use Rattle.machine_asks.specs.OneMap.{IsLiveRow};

use crate::attaching::session_of;
use crate::detaching::is_held_under;
use crate::limits::NUMBER_LIMIT;
use crate::map_ask::fresh_view;
use desk_state::{Session, Snapshot, is_live};
use fresh_maps::View;
use map_delta::responses_for;
use net_rows::Machine;
use std::alloc::Global;
use tail_base::{Duplicate, Items, MachineKey, NoMemory, Text};
use tailcfg::Response;

/// The outcome of a drain of a session that hasn't ended.
#[derive(Drop)]
pub struct DrainDecision {
    /// The session as it is from now on.
    pub session: Session,
    /// The responses that bring its client there.
    pub responses: Items<Response>,
}

fn is_drained(at: &Snapshot<'_>, handle: &Text, session: &Session) -> bool
    ensures value { result ≡ spec.is_drained at.now handle.now session.now }
    ensures left { result ≡ true → session.now.seq < 2 ^ 63 }
{
    is_held_under(at, handle, session) && session.seq < NUMBER_LIMIT
}

/// The number of the last response.
fn last_number(seq: u64, responses: &[Response]) -> u64
    requires few { length responses.now ≤ 2 }
    requires numbered { seq < 2 ^ 63 }
    ensures value { result ≡ seq + length responses.now }
{
    seq + responses.len() as u64
}

/// The responses that bring a session to this map: two at most.
fn responses_to(alloc: Global, session: &Session, view: &View) -> Result<Items<Response>, NoMemory>
    requires numbered { session.now.seq < 2 ^ 63 }
    ensures value { IfOk result (λ made. made
        ≡ delta.responses_for session.now.handle session.now.seq session.now.sent view.now) }
    ensures few { IfOk result (λ made. length made ≤ 2) }
{
    let made = responses_for(
        alloc,
        &session.handle,
        session.seq,
        session.sent.as_ref(),
        view,
    )?;
    Ok(made)
}

/// A session with this map sent, under this copy of its handle, and the responses that send it.
fn session_at(
    alloc: Global,
    session: &Session,
    handle: Text,
    view: View,
) -> Result<DrainDecision, NoMemory>
    requires numbered { session.now.seq < 2 ^ 63 }
    requires same { handle ≡ session.now.handle }
    ensures value { IfOk result (λ d. d ≡ spec.session_at session.now view
        (delta.responses_for session.now.handle session.now.seq session.now.sent view)) }
{
    let responses = responses_to(alloc, session, &view)?;
    let seq = last_number(session.seq, responses.as_slice());
    Ok(DrainDecision {
        session: Session {
            id: session.id,
            handle,
            seq,
            sent: Some(view),
        },
        responses,
    })
}

fn session_drained(
    alloc: Global,
    at: &Snapshot<'_>,
    row: &Machine,
    session: &Session,
) -> Result<DrainDecision, NoMemory>
    requires live { IsLiveRow at.now row.now }
    requires numbered { session.now.seq < 2 ^ 63 }
    ensures value { IfOk result (λ d. d ≡ spec.session_drained at.now row.now session.now) }
{
    let handle = session.handle.copy(alloc)?;
    let view = fresh_view(alloc, at, row)?;
    session_at(alloc, session, handle, view)
}

/// The machine of this key, if it is live.
fn live_machine<'a>(at: &Snapshot<'a>, machine: &MachineKey) -> Option<&'a Machine>
    ensures value { option_copied result
        ≡ spec.if_live at.now (machine_of at.now.rows.machines machine.now.0) }
{
    let Some(row) = at.tables.machine_of(machine) else {
        return None;
    };
    if is_live(at, row) { Some(row) } else { None }
}

/// The session of a live machine is drained, if there is one and it hasn't ended.
fn drain_session(
    alloc: Global,
    at: &Snapshot<'_>,
    handle: &Text,
    row: &Machine,
    session: Option<&Session>,
) -> Result<Option<DrainDecision>, NoMemory>
    requires live { IsLiveRow at.now row.now }
    ensures value { IfOk result (λ d. d
        ≡ spec.drain_session at.now handle.now row.now (option_copied session.entry)) }
{
    match session {
        None => Ok(None),
        Some(session) => {
            if is_drained(at, handle, session) {
                let decision = session_drained(alloc, at, row, session)?;
                Ok(Some(decision))
            } else {
                Ok(None)
            }
        }
    }
}

fn drain_due(
    alloc: Global,
    at: &Snapshot<'_>,
    machine: &MachineKey,
    handle: &Text,
) -> Result<Option<DrainDecision>, NoMemory>
    ensures value { IfOk result (λ d. d ≡ spec.drain at.now machine.now handle.now) }
{
    let Some(row) = live_machine(at, machine) else {
        return Ok(None);
    };
    let session = session_of(at, row.id);
    drain_session(alloc, at, handle, row, session)
}

/// The outcome of a poll's drain; None if its session has ended: the machine isn't live, or its session
/// isn't attached under this handle, or no number is left for a response.
pub fn drain(
    alloc: Global,
    at: &Snapshot<'_>,
    machine: &MachineKey,
    handle: &Text,
) -> Result<Option<DrainDecision>, NoMemory>
    ensures value { IfOk result (λ d. d ≡ spec.drain at.now machine.now handle.now) }
    // The session is one that there is.
    ensures found { IfOk result (λ o. IfSome o
        (λ d. IsSome (session_of at.now.sessions d.session.id))) }
{
    let decision = drain_due(alloc, at, machine, handle)?;
    Ok(decision)
}
