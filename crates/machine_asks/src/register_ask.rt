//! The outcome of the registration of a machine: its steps in their order.
ghost use Rattle.std.specs.Prelude.{◌≡◌, IfOk};
ghost use Rattle.std.specs.Option.{option_copied};
ghost use Rattle.tail_base.specs.Steps.{Gives};
ghost use Rattle.machine_asks.specs.Register as spec;

use crate::MachineAnswer;
use crate::by_key::by_key;
use crate::logout::{is_logout, logout, node_key_replaced, rotates};
use crate::waiting::wait;
use desk_state::{Decision, Refusal, Snapshot, is_live, is_taken};
use fresh_maps::profile_of;
use net_rows::Machine;
use std::alloc::Global;
use tail_base::{Failure, MachineKey, NoMemory, NodeKey};
use tailcfg::Register;

fn repeats(at: &Snapshot<'_>, node: &NodeKey, row: &Machine) -> bool
    ensures value { result ≡ spec.repeats at.now node.now row.now }
{
    is_live(at, row) && row.node == *node
}

fn registered_again(
    alloc: Global,
    at: &Snapshot<'_>,
    row: &Machine,
) -> Result<Decision<MachineAnswer>, NoMemory>
    ensures value { IfOk result (λ d. d ≡ spec.registered_again at.now row.now) }
{
    let answer = MachineAnswer::Registered {
        profile: profile_of(alloc, at.tables, row.user)?,
        expired: false,
    };
    Ok(Decision::only(alloc, answer))
}

/// The outcome of the registration of a machine: the first of six rules that fits decides.
///
/// An expiry that has passed logs the machine out. A live machine that has this node key already is
/// registered as it stands. Else the node key has to be no other machine's, and the machine enters
/// by its pre-auth key, if it gives one. Without one it takes the node key in place of its old one,
/// if it is live and names that; and else it waits for an operator. The words are for the text of a
/// new pending entry.
pub(crate) fn register(
    alloc: Global,
    at: &Snapshot<'_>,
    machine: &MachineKey,
    form: &Register,
    words: Option<[u64; 4]>,
) -> Result<Decision<MachineAnswer>, Failure<Refusal>>
    ensures value { Gives (λ d. d) result (spec.register at.now machine.now form.now words) }
{
    let row = at.tables.machine_of(machine);
    if is_logout(at, form.expiry) {
        return logout(alloc, at, &form.node, row);
    }
    if let Some(row) = row
        && repeats(at, &form.node, row)
    {
        return Ok(registered_again(alloc, at, row)?);
    }
    if is_taken(at.tables.machines(), machine, &form.node) {
        return Err(Failure::Fault(Refusal::NodeKeyTaken));
    }
    if form.auth.len() > 0 {
        return by_key(alloc, at, machine, form, row);
    }
    if let Some(row) = row
        && rotates(at, form.old, row)
    {
        return Ok(node_key_replaced(alloc, at, &form.node, row)?);
    }
    wait(alloc, at, machine, form, words)
}
