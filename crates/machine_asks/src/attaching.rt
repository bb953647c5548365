//! A poll attaches: it takes up its machine's session, or begins another.
ghost use Rattle.std.specs.Prelude.{◌≡◌, ◌<◌, ◌^◌, IfOk, filter, length, true};
ghost use Rattle.std.specs.Option.{option_copied};
ghost use Rattle.desk_state.specs.Sessions.{is_attached, session_of};
ghost use Rattle.tail_base.specs.Steps.{Gives};
ghost use Rattle.machine_asks.specs.Attach as spec;
ghost use Rattle.machine_asks.specs.Attach.{waits_beside};

use crate::limits::NUMBER_LIMIT;
use crate::who_asks::asking;
use desk_state::{Attachment, Refusal, Scarce, Session, Snapshot, session_handle};
use std::alloc::Global;
use tail_base::{Duplicate, Failure, MachineKey, NoMemory, NodeKey, Text};

/// The outcome of an attach that isn't refused.
#[derive(Drop)]
pub struct AttachDecision {
    /// The id of the machine. From now on it is online, and its session attached.
    pub id: u32,
    /// The session that begins; None if the machine's session goes on.
    pub begun: Option<Session>,
    /// The number of the next session.
    pub next: u64,
    /// The handle of the session.
    pub handle: Text,
    /// The number of its last response.
    pub seq: u64,
    /// Whether the poll may wait.
    pub may_wait: bool,
}

/// The session of the machine of this id.
pub(crate) fn session_of<'a>(at: &Snapshot<'a>, id: u32) -> Option<&'a Session>
    ensures value { option_copied result ≡ session_of at.now.sessions id }
{
    at.sessions.rows.get(id)
}

/// Whether a poll holds the session of the machine of this id.
pub(crate) fn is_attached(at: &Snapshot<'_>, id: u32) -> bool
    ensures value { result ≡ is_attached at.now.attached id }
{
    at.sessions.attached.get(id).is_some()
}

/// The number of the next session.
fn next_number(at: &Snapshot<'_>) -> u64
    ensures value { result ≡ at.now.next_session }
{
    at.sessions.next
}

fn waits_beside(held: &Attachment, id: u32) -> bool
    ensures value { result ≡ waits_beside id held.now }
{
    held.may_wait && held.id != id
}

/// How many other machines have a poll that may wait.
fn count_waiting(attached: &[Attachment], id: u32) -> usize
    ensures value { result ≡ length (filter (waits_beside id) attached.now) }
{
    let mut count = 0;
    for held in attached {
        if waits_beside(held, id) {
            count += 1;
        }
    }
    count
}

/// Whether a poll of the machine may wait: one worker is left for those that don't.
fn is_worker_left(at: &Snapshot<'_>, id: u32) -> bool
    ensures value { result ≡ spec.is_worker_left at.now id }
{
    let waiting = count_waiting(at.sessions.attached.as_slice(), id);
    waiting < at.settings.fields().workers.saturating_sub(1) as usize
}

fn is_taken_up(at: &Snapshot<'_>, handle: &Text, seq: u64, session: &Session) -> bool
    ensures value { result ≡ spec.is_taken_up at.now handle.now seq session.now }
{
    !is_attached(at, session.id)
        && session.handle.as_slice() == handle.as_slice()
        && session.seq == seq
}

fn session_taken_up(
    alloc: Global,
    at: &Snapshot<'_>,
    session: &Session,
) -> Result<AttachDecision, NoMemory>
    ensures value { IfOk result (λ d. d ≡ spec.session_taken_up at.now session.now) }
{
    Ok(AttachDecision {
        id: session.id,
        begun: None,
        next: next_number(at),
        handle: session.handle.copy(alloc)?,
        seq: session.seq,
        may_wait: is_worker_left(at, session.id),
    })
}

fn new_session(
    alloc: Global,
    at: &Snapshot<'_>,
    id: u32,
    words: &[u64; 4],
) -> Result<Session, NoMemory>
    ensures value { IfOk result (λ x. x ≡ spec.new_session at.now id words.now) }
{
    Ok(Session {
        id,
        handle: session_handle(alloc, next_number(at), words)?,
        seq: 0,
        sent: None,
    })
}

fn session_begun(
    alloc: Global,
    at: &Snapshot<'_>,
    id: u32,
    words: &[u64; 4],
) -> Result<AttachDecision, NoMemory>
    requires numbered { at.now.next_session < 2 ^ 63 }
    ensures value { IfOk result (λ d. d ≡ spec.session_begun at.now id words.now) }
{
    let number = next_number(at);
    let handle = session_handle(alloc, number, words)?;
    let session = new_session(alloc, at, id, words)?;
    Ok(AttachDecision {
        id,
        begun: Some(session),
        next: number + 1,
        handle,
        seq: 0,
        may_wait: is_worker_left(at, id),
    })
}

fn has_number(at: &Snapshot<'_>) -> bool
    ensures value { result ≡ spec.has_number at.now }
    ensures left { result ≡ true → at.now.next_session < 2 ^ 63 }
{
    next_number(at) < NUMBER_LIMIT
}

fn session_due(
    alloc: Global,
    at: &Snapshot<'_>,
    id: u32,
    words: Option<[u64; 4]>,
) -> Result<AttachDecision, Failure<Refusal>>
    ensures value { Gives (λ d. d) result (spec.session_due at.now id words) }
{
    if !has_number(at) {
        return Err(Failure::Fault(Refusal::Full(Scarce::Session)));
    }
    let Some(words) = words else {
        return Err(Failure::Fault(Refusal::EntropyFault));
    };
    Ok(session_begun(alloc, at, id, &words)?)
}

/// The machine's session goes on, if it has one that does; else a new one is due.
fn attach_to(
    alloc: Global,
    at: &Snapshot<'_>,
    id: u32,
    handle: &Text,
    seq: u64,
    words: Option<[u64; 4]>,
    session: Option<&Session>,
) -> Result<AttachDecision, Failure<Refusal>>
    ensures value { Gives (λ d. d) result
        (spec.attach_to at.now id handle.now seq words (option_copied session.entry)) }
{
    match session {
        None => session_due(alloc, at, id, words),
        Some(session) => {
            if is_taken_up(at, handle, seq, session) {
                Ok(session_taken_up(alloc, at, session)?)
            } else {
                session_due(alloc, at, id, words)
            }
        }
    }
}

/// The outcome of a poll's attach. The machine has to be one with these keys, and live. Its session goes
/// on if no poll holds it and the client names its handle and its last number; else a new one begins,
/// whose handle has the next number and the first of the words.
pub fn attach(
    alloc: Global,
    at: &Snapshot<'_>,
    machine: &MachineKey,
    node: &NodeKey,
    handle: &Text,
    seq: u64,
    words: Option<[u64; 4]>,
) -> Result<AttachDecision, Failure<Refusal>>
    ensures value { Gives (λ d. d) result
        (spec.attach at.now machine.now node.now handle.now seq words) }
{
    let row = asking(at, machine, node)?;
    let session = session_of(at, row.id);
    attach_to(alloc, at, row.id, handle, seq, words, session)
}
