//! A machine tells of itself.
ghost use Rattle.std.specs.Prelude.{◌≡◌, IfOk};
ghost use Rattle.tail_base.specs.Steps.{Gives};
ghost use Rattle.machine_asks.specs.Update as spec;

use crate::answer::MachineAnswer;
use crate::told::told_row;
use crate::who_asks::asking;
use desk_state::{Decision, Refusal, Snapshot, row_replaced, same_told};
use net_rows::Machine;
use std::alloc::Global;
use tail_base::{Failure, MachineKey, NoMemory, NodeKey};
use tailcfg::Update;

fn updated(
    alloc: Global,
    at: &Snapshot<'_>,
    was: &Machine,
    told: Machine,
) -> Result<Decision<MachineAnswer>, NoMemory>
    ensures value { IfOk result (λ d. d ≡ spec.updated at.now was.now told) }
{
    if same_told(was, &told) {
        return Ok(Decision::only(alloc, MachineAnswer::Updated));
    }
    let change = row_replaced(alloc, at.tables, told)?;
    Ok(Decision::changing(alloc, change, MachineAnswer::Updated))
}

/// What comes of what a machine tells of itself: its endpoints are replaced, its disco key and the
/// text and the DERP region of its host where they are given, and its advertised routes where it
/// tells of its host. It has to be one with these keys, and live.
pub fn update(
    alloc: Global,
    at: &Snapshot<'_>,
    machine: &MachineKey,
    node: &NodeKey,
    update: &Update,
) -> Result<Decision<MachineAnswer>, Failure<Refusal>>
    ensures value { Gives (λ d. d) result (spec.update at.now machine.now node.now update.now) }
{
    let row = asking(at, machine, node)?;
    let told = told_row(alloc, row, update)?;
    Ok(updated(alloc, at, row, told)?)
}
