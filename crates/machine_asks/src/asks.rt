//! The outcome of a machine's ask.
ghost use Rattle.std.specs.Prelude.{◌≡◌};
ghost use Rattle.tail_base.specs.Steps.{Gives};
ghost use Rattle.machine_asks.specs.Decision as spec;
ghost use Rattle.machine_asks.specs.Short.{IsShortMachineAsk};

use crate::ask::MachineAsk;
use crate::register_ask::register;
use crate::{MachineAnswer, one_map, update};
use desk_state::{Decision, Refusal, Snapshot};
use std::alloc::Global;
use tail_base::Failure;

/// Whether fresh random words are drawn for the ask: for a registration without a key, since a new
/// pending entry has a text of its own.
pub fn draws(ask: &MachineAsk) -> bool
    ensures value { result ≡ spec.draws ask.now }
{
    match ask {
        MachineAsk::Register { form, .. } => form.auth.is_empty(),
        MachineAsk::Update { .. } | MachineAsk::OneMap { .. } => false,
    }
}

/// The outcome of a machine's ask, with the random words that were drawn for it.
pub fn decide(
    alloc: Global,
    at: &Snapshot<'_>,
    ask: &MachineAsk,
    words: Option<[u64; 4]>,
) -> Result<Decision<MachineAnswer>, Failure<Refusal>>
    requires short { IsShortMachineAsk ask.now }
    ensures value { Gives (λ d. d) result (spec.decision at.now ask.now words) }
{
    match ask {
        MachineAsk::Register { machine, form } => register(alloc, at, machine, form, words),
        MachineAsk::Update {
            machine,
            node,
            update: told,
        } => update(alloc, at, machine, node, told),
        MachineAsk::OneMap {
            machine,
            node,
            update: told,
        } => one_map(alloc, at, machine, node, told.as_ref()),
    }
}
