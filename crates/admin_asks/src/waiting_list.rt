//! Operators list the machines that wait to be admitted.
ghost use Rattle.tail_base.specs.Steps.{Gives};
ghost use Rattle.admin_asks.specs.Waiting as spec;

use crate::operator_answer::OperatorAnswer;
use desk_state::{Decision, Refusal, Snapshot};
use std::alloc::Global;
use tail_base::{Failure, Items};

/// The pending entries by id, also those whose time has passed.
pub fn waiting(
    alloc: Global,
    at: &Snapshot<'_>,
) -> Result<Decision<OperatorAnswer>, Failure<Refusal>>
    ensures value { Gives (λ d. d) result (spec.waiting at.now) }
{
    let pending = Items::from_slice(alloc, at.tables.pending())?;
    Ok(Decision::only(alloc, OperatorAnswer::Waiting(pending)))
}
