//! The text of an answer.
ghost use Rattle.std.specs.Prelude.{◌≡◌, IfOk};
ghost use Rattle.explain_commands.specs.Answers.{answer_text, flow_answer, reaches_answer};

use crate::question::Question;
use command_words::AskedFlow;
use desk_state::{Snapshot, live_ids};
use reach_report::{explain, explain_text, report, report_text};
use std::alloc::Global;
use tail_base::NoMemory;

/// The line that says by which rule the flow is granted.
fn flow_answer(alloc: Global, at: &Snapshot<'_>, flow: &AskedFlow) -> Result<Vec<u8>, NoMemory>
    ensures value { IfOk result (λ text. text.items ≡ flow_answer at.now flow.now) }
{
    let live = live_ids(alloc, at)?;
    let AskedFlow {
        source,
        dest,
        proto,
        port,
    } = *flow;
    let granted = explain(
        alloc,
        at.policy.policy(),
        at.tables,
        live.as_slice(),
        source,
        dest,
        proto,
        port,
    )?;
    explain_text(alloc, &granted)
}

/// The lines that say which machine reaches which.
fn reaches_answer(alloc: Global, at: &Snapshot<'_>) -> Result<Vec<u8>, NoMemory>
    ensures value { IfOk result (λ text. text.items ≡ reaches_answer at.now) }
{
    let live = live_ids(alloc, at)?;
    let reaches = report(alloc, at.policy.policy(), at.tables, live.as_slice())?;
    report_text(alloc, reaches.as_slice())
}

/// What is written in a state to answer the question.
#[tactic(auto, unfolding(crate::specs::Answers::answer_text))]
pub(crate) fn answer_text(
    alloc: Global,
    at: &Snapshot<'_>,
    question: &Question,
) -> Result<Vec<u8>, NoMemory>
    ensures value { IfOk result (λ text. text.items ≡ answer_text question.now at.now) }
{
    match question {
        Question::Flow(flow) => flow_answer(alloc, at, flow),
        Question::Reaches => reaches_answer(alloc, at),
    }
}
