//! Runs that stop at a call, and what a new start finds then.
use crate::runs::{Asked, Run, run_from};
use crate::script::Script;
use harness_desk::{DeskRun, Manner, Reached, ReplyKind};
use harness_disks::{CallKind, DiskFault, Disks, FailedCall, FaultPlan, Image, Left};
use std::alloc::Global;
use std::test::Fail;

/// What may be left of the disks behind a stop.
pub const LEFTS: [Left; 4] = [
    Left::Written,
    Left::Synced,
    Left::EverySecond { has_first: true },
    Left::EverySecond { has_first: false },
];

/// More calls than a run makes.
pub const MANY: u64 = 10_000;

/// Where a run stopped.
#[derive(Clone, Copy, Debug, PartialEq, Eq, Drop)]
pub enum Ending {
    /// The database or its tables didn't open, so that nothing was asked.
    Unopened,
    /// So many asks were acknowledged. The next one wasn't.
    Stopped(usize),
    /// All asks were acknowledged, and the log wasn't copied into the file.
    Unclosed,
    Closed,
}

/// A stop that was tried, and behind which each new start found what it may.
#[derive(Clone, Copy, Debug, PartialEq, Eq, Drop)]
pub struct TriedStop {
    pub failed: FailedCall,
    pub ending: Ending,
}

/// How many asks are answered as done before the first that isn't.
pub(crate) fn count_done(answers: &[ReplyKind]) -> usize {
    let mut done = 0usize;
    for answer in answers {
        if *answer != ReplyKind::Done {
            return done;
        }
        done = done.saturating_add(1);
    }
    done
}

/// The outcome of a run that ends at its first fault. None if the tables were damaged, or an ask wasn't done
/// whose keeper didn't fail.
pub fn ending_of(seen: &DeskRun) -> Option<Ending> {
    let done = count_done(seen.answers.as_slice());
    match seen.reached {
        Reached::Unopened => Some(Ending::Unopened),
        Reached::Broken => None,
        Reached::Asked | Reached::Closed if done < seen.answers.len() => {
            match seen.answers.get(done) {
                Some(ReplyKind::Lost) => Some(Ending::Stopped(done)),
                Some(ReplyKind::Done | ReplyKind::Refused | ReplyKind::Otherwise) | None => None,
            }
        }
        Reached::Asked => Some(Ending::Unclosed),
        Reached::Closed => Some(Ending::Closed),
    }
}

impl Ending {
    /// How many asks of a script were acknowledged.
    pub fn done(self, script: &Script) -> usize {
        match self {
            Ending::Unopened => 0,
            Ending::Stopped(done) => done,
            Ending::Unclosed | Ending::Closed => script.asks().len(),
        }
    }

    /// Whether an ask was under way.
    fn has_begun(self) -> bool {
        match self {
            Ending::Stopped(_) => true,
            Ending::Unopened | Ending::Unclosed | Ending::Closed => false,
        }
    }
}

/// What a start finds.
#[derive(Clone, Copy, PartialEq, Eq, Drop)]
pub enum StartFinds {
    /// The tables behind all that was acknowledged.
    Acknowledged,
    /// Those behind the ask that was under way, too.
    Begun,
    Otherwise,
}

/// What a start finds behind such an ending.
pub fn found_by(script: &Script, ending: Ending, seen: &DeskRun) -> StartFinds {
    let done = ending.done(script);
    match &seen.found {
        Some(text) if script.is_text(done, text) => StartFinds::Acknowledged,
        Some(text) if ending.has_begun() && script.is_text(done.saturating_add(1), text) => {
            StartFinds::Begun
        }
        Some(_) | None => StartFinds::Otherwise,
    }
}

/// Whether all of the rest was done, and left the last tables.
fn is_all_done(script: &Script, seen: &DeskRun, rest: usize) -> bool {
    let is_last = match &seen.left {
        Some(text) => script.is_last(text),
        None => false,
    };
    is_last && count_done(seen.answers.as_slice()) == rest
}

/// Whether the rest of the asks was answered as it may, and the log then copied into the file. The ask that was under
/// way is asked again: where it was done before, the answers and the tables are those of a desk that is asked it twice.
fn has_gone_on(script: &Script, ending: Ending, seen: &DeskRun) -> bool {
    let done = ending.done(script);
    let is_good = match found_by(script, ending, seen) {
        StartFinds::Acknowledged => is_all_done(script, seen, script.rest(done).len()),
        StartFinds::Begun => script.is_twice(done, seen),
        StartFinds::Otherwise => false,
    };
    is_good && seen.reached == Reached::Closed
}

/// Whether a new start over these disks finds what it may behind such an ending, and goes on from there to the
/// last tables.
pub fn goes_on(
    alloc: Global,
    script: &Script,
    ending: Ending,
    image: &Image,
) -> Result<bool, Fail> {
    let asks = script.rest(ending.done(script));
    let what = Asked {
        asks,
        manner: Manner::ToTheLastAsk,
    };
    let run = run_from(alloc, &script.front, image, FaultPlan::sound(), what)?;
    Ok(has_gone_on(script, ending, &run.seen))
}

/// Whether all new starts do so, whatever is left of the disks.
fn all_go_on(alloc: Global, script: &Script, ending: Ending, run: &Run) -> Result<bool, Fail> {
    for left in LEFTS {
        if !goes_on(alloc, script, ending, &run.image(alloc, left)?)? {
            return Ok(false);
        }
    }
    Ok(true)
}

/// A run from these disks that stops so.
pub fn stopped(
    alloc: Global,
    script: &Script,
    image: &Image,
    plan: FaultPlan,
) -> Result<Run, Fail> {
    let what = Asked {
        asks: script.asks(),
        manner: Manner::ToTheFirstFault,
    };
    run_from(alloc, &script.front, image, plan, what)
}

/// Whether a stop of this kind is the same as one before the call.
pub fn is_tried_elsewhere(fault: DiskFault, failed: FailedCall) -> bool {
    fault == DiskFault::HalfWritten && failed.kind != CallKind::Write
}

/// What a run results in that stops so, if each new start finds what it may. None if it doesn't stop.
fn stop_of(
    alloc: Global,
    script: &Script,
    image: &Image,
    plan: FaultPlan,
) -> Result<Option<TriedStop>, Fail> {
    let run = stopped(alloc, script, image, plan)?;
    let Some(ending) = ending_of(&run.seen) else {
        return Err(Fail::new(format_args!("{plan:?}: broken")));
    };
    let Some(failed) = run.failed() else {
        return Ok(None);
    };
    if is_tried_elsewhere(plan.fault, failed) || all_go_on(alloc, script, ending, &run)? {
        Ok(Some(TriedStop { failed, ending }))
    } else {
        Err(Fail::new(format_args!("{plan:?}, {failed:?}, {ending:?}: other tables are found")))
    }
}

/// The stops of the runs from these disks that stop at the first call of the chosen disks, at the second and so on,
/// until one runs to its end.
pub fn stops(
    alloc: Global,
    script: &Script,
    image: &Image,
    disks: Disks,
    fault: DiskFault,
) -> Result<Vec<TriedStop>, Fail> {
    let mut stops = Vec::new(alloc);
    for calls in 0..MANY {
        let plan = FaultPlan {
            disks,
            fault,
            calls,
        };
        match stop_of(alloc, script, image, plan)? {
            Some(stop) => stops.push(stop)?,
            None => return Ok(stops),
        }
    }
    Err(Fail::from("each run stops"))
}
