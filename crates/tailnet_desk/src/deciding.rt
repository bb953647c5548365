//! The decisions on asks, by who asks.
ghost use Rattle.std.specs.Prelude.{◌≡◌, ℕ, List, Option};
ghost use Rattle.tail_base.specs.Steps.{Gives};
ghost use Rattle.tailnet_desk.specs.Asks.{IsShort};
ghost use Rattle.tailnet_desk.specs.Step.{decision};

use crate::ask::Ask;
use crate::reply::Answer;
use desk_state::{Decision, Refusal, Snapshot};
use std::alloc::Global;
use tail_base::Failure;

/// The outcome of an ask, by its own rules.
pub(crate) fn decide(
    alloc: Global,
    at: &Snapshot<'_>,
    ask: &Ask,
    words: Option<[u64; 4]>,
) -> Result<Decision<Answer>, Failure<Refusal>>
    requires short { IsShort ask.now }
    ensures value { Gives (λ d. d) result (decision at.now ask.now words) }
{
    match ask {
        Ask::Seed { text } => {
            let decision = machine_asks::seed(alloc, at, text)?;
            Ok(decision.map(|()| Answer::Seeded))
        }
        Ask::Machine(ask) => {
            let decision = machine_asks::decide(alloc, at, ask, words)?;
            Ok(decision.map(|answer| Answer::Machine(answer)))
        }
        Ask::Operator(ask) => {
            let decision = admin_asks::decide(alloc, at, ask, words)?;
            Ok(decision.map(|answer| Answer::Operator(answer)))
        }
        Ask::Policy(ask) => {
            let decision = policy_asks::decide(alloc, at, ask)?;
            Ok(decision.map(|answer| Answer::Policy(answer)))
        }
    }
}
