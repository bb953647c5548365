//! The six lines of a load.
ghost use Rattle.std.specs.Prelude.{◌≡◌, ◌++◌, IfOk, OnOk};
ghost use Rattle.load_run.specs.Report as spec;

use crate::counts::Counts;
use crate::task::{LoadPlan, request_count};
use std::alloc::Global;
use tail_base::{NoMemory, Text};

/// A line of a name and a number.
fn line(alloc: Global, name: &str, number: u64) -> Result<Text, NoMemory>
    ensures value { IfOk result (λ text. text ≡ spec.line name.now number) }
{
    Ok(Text::from_string(format!(in alloc; "{name} {number}\n")?))
}

/// Adds a line.
fn add_line(alloc: Global, text: &mut Text, name: &str, number: u64) -> Result<(), NoMemory>
    ensures added { OnOk result (text.new ≡ text.old ++ spec.line name.now number) }
{
    let line = line(alloc, name, number)?;
    text.push(line.as_str())
}

/// What a load counted.
#[tactic(auto, unfolding(crate::specs::Report::report))]
pub(crate) fn report(
    alloc: Global,
    plan: &LoadPlan,
    counts: &Counts,
    frames: u64,
) -> Result<Text, NoMemory>
    ensures value { IfOk result (λ text. text ≡ spec.report plan.now counts.now frames) }
{
    let mut text = line(alloc, "machines", u64::from(plan.machines))?;
    add_line(alloc, &mut text, "events", u64::from(plan.events))?;
    add_line(alloc, &mut text, "requests", request_count(plan))?;
    add_line(alloc, &mut text, "ok", counts.ok)?;
    add_line(alloc, &mut text, "refused", counts.refused)?;
    add_line(alloc, &mut text, "frames", frames)?;
    Ok(text)
}
