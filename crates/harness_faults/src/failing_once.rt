//! Runs in which one call fails and all others pass, and what a new start finds behind them.
use harness_desk::{DeskRun, LAST_CHANGE, Manner, QUESTION, Reached, ReplyKind, asked_in_memory};
use harness_disks::{DiskFault, Disks, FailedCall, FaultPlan, Image};
use harness_stops::{Asked, Ending, LEFTS, MANY, Run, Script, goes_on, run_from};
use std::alloc::Global;
use std::test::Fail;
use tail_base::NoMemory;

/// What came of a call that failed.
#[derive(Clone, Copy, Debug, PartialEq, Eq, Drop)]
pub enum HiccupEnd {
    /// The database or its tables didn't open, so that nothing was asked.
    Unopened,
    /// Each ask was done, and the log copied into the file.
    Unseen,
    /// Each ask was done, and the log wasn't copied into the file.
    Unclosed,
    /// The keeper failed at this ask alone.
    OneLost(usize),
    /// It failed at this ask and at each later one that changes rows.
    AllLost(usize),
}

/// A call that failed once, behind which each new start found what it may.
#[derive(Clone, Copy, Debug, PartialEq, Eq, Drop)]
pub struct Hiccup {
    pub failed: FailedCall,
    pub outcome: HiccupEnd,
}

/// What is asked of such a run: the script, a last change, and what changes no row.
fn asks_of(alloc: Global, script: &Script) -> Result<Vec<&'static str>, NoMemory> {
    let mut asks = Vec::new(alloc);
    for line in script.asks() {
        asks.push(*line)?;
    }
    asks.push(LAST_CHANGE)?;
    asks.push(QUESTION)?;
    Ok(asks)
}

/// The asks at which the keeper didn't fail, and what they were answered.
fn heard(
    alloc: Global,
    asks: &[&'static str],
    answers: &[ReplyKind],
) -> Result<(Vec<&'static str>, Vec<ReplyKind>), NoMemory> {
    let (mut lines, mut heard) = (Vec::new(alloc), Vec::new(alloc));
    for (line, answer) in asks.iter().zip(answers) {
        if *answer != ReplyKind::Lost {
            lines.push(*line)?;
            heard.push(*answer)?;
        }
    }
    Ok((lines, heard))
}

/// The tables of a desk in memory that is asked alone what wasn't lost, if it answers the same and has the same
/// tables as the desk that lost the others.
fn undisturbed(
    alloc: Global,
    script: &Script,
    asks: &[&'static str],
    seen: &DeskRun,
) -> Result<Option<String>, Fail> {
    let (lines, heard) = heard(alloc, asks, seen.answers.as_slice())?;
    let quiet = asked_in_memory(alloc, &script.front, lines.as_slice())?;
    let is_same = seen.answers.len() == asks.len()
        && quiet.answers.as_slice() == heard.as_slice()
        && quiet.left == seen.left;
    Ok(if is_same { quiet.left } else { None })
}

/// The first ask at which the keeper failed.
fn first_lost(answers: &[ReplyKind]) -> Option<usize> {
    answers.iter().position(|answer| *answer == ReplyKind::Lost)
}

/// The outcome of a run that was asked all, by what the last two asks were answered and by the first that was lost.
fn outcome_of(seen: &DeskRun) -> Option<HiccupEnd> {
    let answers = seen.answers.as_slice();
    let [.., change, ReplyKind::Done] = answers else {
        return None;
    };
    match (first_lost(answers), change) {
        (Some(first), ReplyKind::Lost) => Some(HiccupEnd::AllLost(first)),
        (Some(first), ReplyKind::Done) => Some(HiccupEnd::OneLost(first)),
        (None, ReplyKind::Done) if seen.reached == Reached::Closed => Some(HiccupEnd::Unseen),
        (None, ReplyKind::Done) => Some(HiccupEnd::Unclosed),
        (Some(_) | None, ReplyKind::Refused | ReplyKind::Otherwise) | (None, ReplyKind::Lost) =>
            None,
    }
}

/// The answers behind this one.
fn behind(answers: &[ReplyKind], place: usize) -> &[ReplyKind] {
    match answers.get(place.saturating_add(1)..) {
        Some(behind) => behind,
        None => &[],
    }
}

/// Whether the answers behind the first that was lost are as the outcome says. (Which of them are refused is
/// compared with a desk in memory.)
fn is_as_said(outcome: HiccupEnd, answers: &[ReplyKind]) -> bool {
    match outcome {
        HiccupEnd::Unopened => answers.is_empty(),
        HiccupEnd::Unseen | HiccupEnd::Unclosed => true,
        HiccupEnd::OneLost(first) => !behind(answers, first).contains(&ReplyKind::Lost),
        HiccupEnd::AllLost(first) => match behind(answers, first) {
            [changes @ .., _question] => !changes.contains(&ReplyKind::Done),
            [] => false,
        },
    }
}

/// Whether a new start over these disks finds these tables.
fn finds(alloc: Global, script: &Script, image: &Image, text: &String) -> Result<bool, Fail> {
    let what = Asked {
        asks: &[],
        manner: Manner::ToTheLastAsk,
    };
    let run = run_from(alloc, &script.front, image, FaultPlan::sound(), what)?;
    Ok(run.seen.found.as_ref() == Some(text))
}

/// The tables behind the script and the last change, as a desk in memory has them.
fn behind_last_change(alloc: Global, script: &Script) -> Result<String, Fail> {
    let mut asks = Vec::new(alloc);
    for line in script.asks() {
        asks.push(*line)?;
    }
    asks.push(LAST_CHANGE)?;
    let DeskRun { left, .. } = asked_in_memory(alloc, &script.front, asks.as_slice())?;
    match left {
        Some(text) => Ok(text),
        None => Err(Fail::from("a desk in memory has no tables")),
    }
}

/// Whether a new start over these disks finds these tables, or those with the last change, too, in which the disk failed.
fn finds_either(
    alloc: Global,
    script: &Script,
    image: &Image,
    text: &String,
) -> Result<bool, Fail> {
    if finds(alloc, script, image, text)? {
        return Ok(true);
    }
    finds(alloc, script, image, &behind_last_change(alloc, script)?)
}

/// Whether a new start over these disks finds what it may behind this outcome, where the tables that the run had
/// are these. Where the store took no further change it goes on, too, as behind a stop.
fn is_found(
    alloc: Global,
    script: &Script,
    outcome: HiccupEnd,
    image: &Image,
    text: &String,
) -> Result<bool, Fail> {
    match outcome {
        HiccupEnd::Unopened => goes_on(alloc, script, Ending::Unopened, image),
        HiccupEnd::AllLost(first) if first < script.asks().len() => {
            goes_on(alloc, script, Ending::Stopped(first), image)
        }
        HiccupEnd::AllLost(_) => finds_either(alloc, script, image, text),
        HiccupEnd::Unseen | HiccupEnd::Unclosed | HiccupEnd::OneLost(_) => {
            finds(alloc, script, image, text)
        }
    }
}

/// Whether all new starts find what they may, whatever is left of the disks.
fn all_find(
    alloc: Global,
    script: &Script,
    outcome: HiccupEnd,
    run: &Run,
    text: &String,
) -> Result<bool, Fail> {
    for left in LEFTS {
        if !is_found(alloc, script, outcome, &run.image(alloc, left)?, text)? {
            return Ok(false);
        }
    }
    Ok(true)
}

/// The outcome of a run whose answers are those of a desk in memory, and the tables that it had.
fn known(
    alloc: Global,
    script: &Script,
    asks: &[&'static str],
    seen: &DeskRun,
) -> Result<Option<(HiccupEnd, String)>, Fail> {
    if seen.reached == Reached::Unopened {
        return Ok(Some((HiccupEnd::Unopened, String::new(alloc))));
    }
    let Some(outcome) = outcome_of(seen) else {
        return Ok(None);
    };
    if !is_as_said(outcome, seen.answers.as_slice()) {
        return Ok(None);
    }
    match undisturbed(alloc, script, asks, seen)? {
        Some(text) => Ok(Some((outcome, text))),
        None => Ok(None),
    }
}

/// A run from these disks in which this call fails, if each new start finds what it may. None if no call fails.
fn hiccup_of(
    alloc: Global,
    script: &Script,
    image: &Image,
    plan: FaultPlan,
) -> Result<Option<Hiccup>, Fail> {
    let asks = asks_of(alloc, script)?;
    let what = Asked {
        asks: asks.as_slice(),
        manner: Manner::ToTheLastAsk,
    };
    let run = run_from(alloc, &script.front, image, plan, what)?;
    let Some(failed) = run.failed() else {
        return Ok(None);
    };
    match known(alloc, script, asks.as_slice(), &run.seen)? {
        Some((outcome, text)) if all_find(alloc, script, outcome, &run, &text)? => {
            Ok(Some(Hiccup { failed, outcome }))
        }
        Some((outcome, _)) => Err(Fail::new(format_args!(
            "{plan:?}, {failed:?}, {outcome:?}: other tables are found"
        ))),
        None => Err(Fail::new(format_args!("{plan:?}, {failed:?}: other answers"))),
    }
}

/// The runs from these disks in which the first call fails alone, the second and so on, until none does.
pub fn hiccups(alloc: Global, script: &Script, image: &Image) -> Result<Vec<Hiccup>, Fail> {
    let mut hiccups = Vec::new(alloc);
    for calls in 0..MANY {
        let plan = FaultPlan {
            disks: Disks::Both,
            fault: DiskFault::Hiccup,
            calls,
        };
        match hiccup_of(alloc, script, image, plan)? {
            Some(hiccup) => hiccups.push(hiccup)?,
            None => return Ok(hiccups),
        }
    }
    Err(Fail::from("a call fails in each run"))
}
