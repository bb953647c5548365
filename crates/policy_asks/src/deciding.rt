//! Each ask on the policy is decided.
ghost use Rattle.std.specs.Prelude.{◌≡◌, IfOk};
ghost use Rattle.tail_base.specs.Steps.{Gives};
ghost use Rattle.policy_asks.specs.Decision.{policy_decision};

use crate::answer::PolicyAnswer;
use crate::ask::PolicyAsk;
use crate::saving::save;
use desk_state::{Decision, Refusal, Snapshot};
use std::alloc::Global;
use tail_base::{Duplicate, Failure};

fn shown(alloc: Global, at: &Snapshot<'_>) -> Result<Decision<PolicyAnswer>, Failure<Refusal>>
    ensures value { Gives (λ d. d) result (policy_decision at.now PolicyAsk.Policy) }
{
    let text = at.tables.policy().copy(alloc)?;
    Ok(Decision::only(alloc, PolicyAnswer::PolicyText(text)))
}

/// What an ask on the policy results in, at the moment of the state.
pub fn decide(
    alloc: Global,
    at: &Snapshot<'_>,
    ask: &PolicyAsk,
) -> Result<Decision<PolicyAnswer>, Failure<Refusal>>
    ensures value { Gives (λ d. d) result (policy_decision at.now ask.now) }
{
    match ask {
        PolicyAsk::Policy => shown(alloc, at),
        PolicyAsk::SavePolicy { text } => save(alloc, at, text),
    }
}
