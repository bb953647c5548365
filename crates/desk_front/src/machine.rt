//! What machines ask.
ghost use Rattle.std.specs.Prelude.{◌≡◌, IfOk};
ghost use Rattle.tailcfg.specs.Short.{IsShortForm, IsShortUpdate};
ghost use Rattle.desk_front.specs.Faults.{field_answer};
ghost use Rattle.desk_front.specs.MachineWants as spec;
ghost use Rattle.desk_front.specs.Wants.{IsSound};

use crate::action::MachineAction;
use crate::faults::{body_answer, field_answer};
use crate::header::HeaderKey;
use crate::poll::Poll;
use crate::want::Wanted;
use machine_asks::MachineAsk;
use std::alloc::Global;
use tail_base::{Bytes, MachineKey, NoMemory};
use tailcfg::MapAsk;
use tailnet_desk::Ask;
use wire_json::{read_map_request, read_register};

/// The header that names a machine.
const MACHINE_HEADER: &str = "Ts-Machine-Key";

/// What the value of the first `Ts-Machine-Key` line holds.
pub(crate) fn header_key(value: &Option<Bytes>) -> HeaderKey
    ensures value { result ≡ spec.header_key value.now }
{
    let Some(value) = value else {
        return HeaderKey::Absent;
    };
    match MachineKey::read(value.as_slice()) {
        Some(key) if !key.is_zero() => HeaderKey::Key(key),
        _ => HeaderKey::Unreadable,
    }
}

/// A machine's ask.
fn machine_ask(ask: MachineAsk) -> Wanted
    ensures value { result ≡ spec.machine_ask ask }
{
    Wanted::Ask(Ask::Machine(ask))
}

#[tactic(auto, using(crate::proofs::FaultLemmas::faulty))]
fn register_wants(alloc: Global, machine: MachineKey, body: &[u8]) -> Result<Wanted, NoMemory>
    ensures value { IfOk result (λ w. w ≡ spec.register_wants machine body.now) }
    ensures sound { IfOk result IsSound }
{
    match read_register(alloc, body) {
        Ok(form) => Ok(machine_ask(MachineAsk::Register { machine, form })),
        Err(fault) => body_answer(alloc, fault),
    }
}

/// A request with a stream is a poll, and updates nothing. One without that omits the peers and isn't
/// read-only is an update alone; any other is answered with the map, and is an update too unless it
/// is read-only.
fn map_wants(machine: MachineKey, asked: MapAsk) -> Wanted
    requires short { IsShortUpdate asked.update }
    ensures value { result ≡ spec.map_wants machine asked }
    ensures sound { IsSound result }
{
    let MapAsk {
        node,
        stream,
        omit_peers,
        read_only,
        handle,
        seq,
        update,
    } = asked;
    if stream {
        return Wanted::Poll(Poll {
            machine,
            node,
            handle,
            seq,
        });
    }
    if omit_peers && !read_only {
        return machine_ask(MachineAsk::Update {
            machine,
            node,
            update,
        });
    }
    let update = if read_only { None } else { Some(update) };
    machine_ask(MachineAsk::OneMap {
        machine,
        node,
        update,
    })
}

#[tactic(auto, using(crate::proofs::FaultLemmas::faulty))]
fn map_body_wants(alloc: Global, machine: MachineKey, body: &[u8]) -> Result<Wanted, NoMemory>
    ensures value { IfOk result (λ w. w ≡ spec.map_body_wants machine body.now) }
    ensures sound { IfOk result IsSound }
{
    match read_map_request(alloc, body) {
        Ok(asked) => Ok(map_wants(machine, asked)),
        Err(fault) => body_answer(alloc, fault),
    }
}

fn action_wants(
    alloc: Global,
    action: MachineAction,
    machine: MachineKey,
    body: &[u8],
) -> Result<Wanted, NoMemory>
    ensures value { IfOk result (λ w. w ≡ spec.action_wants action machine body.now) }
    ensures sound { IfOk result IsSound }
{
    match action {
        MachineAction::Register => register_wants(alloc, machine, body),
        MachineAction::Map => map_body_wants(alloc, machine, body),
    }
}

/// What a machine wants: its key in the header comes before the body.
pub(crate) fn machine_wants(
    alloc: Global,
    action: MachineAction,
    key: HeaderKey,
    body: &[u8],
) -> Result<Wanted, NoMemory>
    ensures value { IfOk result (λ w. w ≡ spec.machine_wants action key body.now) }
    ensures sound { IfOk result IsSound }
{
    match key {
        HeaderKey::Absent => field_answer(alloc, "Missing", MACHINE_HEADER),
        HeaderKey::Unreadable => field_answer(alloc, "BadField", MACHINE_HEADER),
        HeaderKey::Key(machine) => action_wants(alloc, action, machine, body),
    }
}
