//! What a shelf does beside the drains of a desk.
ghost use Rattle.std.specs.Prelude.{◌≡◌, ◌++◌, IfOk, OnOk, OnErr};
ghost use Rattle.kept_desk.specs.Keeping as spec;
ghost use Rattle.kept_desk.specs.Keeping.{IsDropped, IsKeptDrain, IsKeptEnd, IsKeptFrames};
ghost use Rattle.frame_shelf.specs.Shelves.{lines_without};
ghost use Rattle.tailnet_desk.specs.Step.{drain_reply};

use crate::owing::Owing;
use frame_shelf::FrameShelf;
use std::alloc::Global;
use tail_base::{Items, MachineKey, NoMemory, Text};
use tailcfg::Response;
use tailnet_desk::{Drained, Reply};

/// Whether the session goes on.
fn is_resumed(reply: &Reply) -> bool
    ensures value { result ≡ spec.is_resumed reply.now }
{
    match reply {
        Reply::Attached { resumed, .. } => *resumed,
        Reply::Done(_)
        | Reply::Frames(_)
        | Reply::Ended
        | Reply::Detached
        | Reply::Refused(_)
        | Reply::Lost(_) => false,
    }
}

/// What is owed behind an attach with this number.
pub(crate) fn owed_by(
    machine: &MachineKey,
    number: u64,
    reached: Option<u64>,
    reply: &Reply,
) -> Option<Owing>
    ensures value { result ≡ spec.owed_by machine.now number reached reply.now }
{
    match reached {
        Some(_) => {
            if is_resumed(reply) {
                Some(Owing {
                    machine: *machine,
                    number,
                })
            } else {
                None
            }
        }
        None => None,
    }
}

/// Whether it is owed to this drain.
fn is_owed(shelf: &FrameShelf, machine: &MachineKey, handle: &Text, owing: Owing) -> bool
    ensures value { result ≡ spec.is_owed shelf.now machine.now handle.now owing }
{
    owing.machine == *machine && shelf.reach(machine, handle, owing.number).is_some()
}

/// The responses that are owed to a drain.
fn owed_to(
    alloc: Global,
    shelf: &FrameShelf,
    machine: &MachineKey,
    handle: &Text,
    owed: Option<Owing>,
) -> Result<Items<Response>, NoMemory>
    ensures value { IfOk result
        (λ made. made ≡ spec.owed_to shelf.now machine.now handle.now owed) }
{
    match owed {
        Some(owing) => {
            if is_owed(shelf, machine, handle, owing) {
                shelf.after(alloc, machine, owing.number)
            } else {
                Ok(Items::new(alloc))
            }
        }
        None => Ok(Items::new(alloc)),
    }
}

/// Keeps a response, if it has a number.
fn keep_numbered(
    alloc: Global,
    shelf: &mut FrameShelf,
    machine: &MachineKey,
    handle: &Text,
    response: &Response,
) -> Result<(), NoMemory>
    ensures ok { OnOk result
        (shelf.new ≡ spec.keep_numbered shelf.old machine.now handle.now response.now) }
    ensures err { OnErr result (shelf.new ≡ lines_without shelf.old machine.now) }
{
    if response.seq.unwrap_or(0) >= 1 {
        shelf.keep(alloc, machine, handle, response)
    } else {
        Ok(())
    }
}

/// Keeps responses in order. If memory is refused, the machine has no line.
fn keep_all(
    alloc: Global,
    shelf: &mut FrameShelf,
    machine: &MachineKey,
    handle: &Text,
    responses: &[Response],
) -> Result<(), NoMemory>
    ensures ok { OnOk result
        (shelf.new ≡ spec.keep_all shelf.old machine.now handle.now responses.now) }
    ensures err { OnErr result
        (IsDropped shelf.old machine.now handle.now responses.now shelf.new) }
{
    for response in responses {
        keep_numbered(alloc, shelf, machine, handle, response)?;
    }
    Ok(())
}

/// Two lists as one.
fn joined(first: Items<Response>, more: Items<Response>) -> Result<Items<Response>, NoMemory>
    ensures value { IfOk result (λ made. made ≡ first ++ more) }
{
    let mut all = first.into_vec();
    let mut rest = more.into_vec();
    all.append(&mut rest)?;
    Ok(Items::from_vec(all))
}

/// What a drain that answered these responses replies: what is owed, and then these. They are kept.
fn kept_frames(
    alloc: Global,
    shelf: &mut FrameShelf,
    machine: &MachineKey,
    handle: &Text,
    owed: Option<Owing>,
    responses: Items<Response>,
) -> Drained
    ensures kept { IsKeptFrames shelf.old machine.now handle.now
        (spec.owed_to shelf.old machine.now handle.now owed) responses
        (drain_reply result) shelf.new }
{
    let Ok(again) = owed_to(alloc, shelf, machine, handle, owed) else {
        shelf.forget(machine);
        return Drained::NoMemory;
    };
    if keep_all(alloc, shelf, machine, handle, responses.as_slice()).is_err() {
        return Drained::NoMemory;
    }
    let Ok(all) = joined(again, responses) else {
        shelf.forget(machine);
        return Drained::NoMemory;
    };
    Drained::Frames(all)
}

/// What a drain replies whose session has ended: what is owed.
fn kept_end(
    alloc: Global,
    shelf: &mut FrameShelf,
    machine: &MachineKey,
    handle: &Text,
    owed: Option<Owing>,
) -> Drained
    ensures kept { IsKeptEnd shelf.old machine.now handle.now
        (spec.owed_to shelf.old machine.now handle.now owed) (drain_reply result) shelf.new }
{
    let Ok(again) = owed_to(alloc, shelf, machine, handle, owed) else {
        shelf.forget(machine);
        return Drained::NoMemory;
    };
    if again.is_empty() {
        return Drained::Ended;
    }
    Drained::Frames(again)
}

/// What a drain of a desk with a shelf replies where the desk's own gave this.
pub(crate) fn kept_drain(
    alloc: Global,
    shelf: &mut FrameShelf,
    machine: &MachineKey,
    handle: &Text,
    owed: Option<Owing>,
    drained: Drained,
) -> Drained
    ensures kept { IsKeptDrain shelf.old machine.now handle.now
        (spec.owed_to shelf.old machine.now handle.now owed)
        (drain_reply drained) (drain_reply result) shelf.new }
{
    match drained {
        Drained::Frames(responses) => {
            kept_frames(alloc, shelf, machine, handle, owed, responses)
        }
        Drained::Ended => kept_end(alloc, shelf, machine, handle, owed),
        Drained::NoMemory => Drained::NoMemory,
    }
}
