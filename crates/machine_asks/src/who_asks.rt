//! The machine that asks.
ghost use Rattle.std.specs.Prelude.{◌≡◌};
ghost use Rattle.tail_base.specs.Steps.{Gives};
ghost use Rattle.machine_asks.specs.Asking as spec;

use desk_state::{Refusal, Snapshot, is_live};
use net_rows::Machine;
use tail_base::{Failure, MachineKey, NodeKey};

/// The live machine of these keys.
pub(crate) fn asking<'a>(
    at: &Snapshot<'a>,
    machine: &MachineKey,
    node: &NodeKey,
) -> Result<&'a Machine, Failure<Refusal>>
    ensures value { Gives (λ m. m.now) result (spec.asking at.now machine.now node.now) }
{
    let Some(row) = at.tables.machine_of(machine) else {
        return Err(Failure::Fault(Refusal::UnknownMachine));
    };
    if row.node != *node {
        return Err(Failure::Fault(Refusal::UnknownMachine));
    }
    if !is_live(at, row) {
        return Err(Failure::Fault(Refusal::NotLive));
    }
    Ok(row)
}
