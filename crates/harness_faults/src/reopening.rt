//! A stop of a start over disks that a stop left, and what the start behind it finds.
use harness_desk::{DeskRun, Manner, Reached};
use harness_disks::{CallKind, DiskFault, Disks, FailedCall, FaultPlan, Image};
use harness_stops::{
    Asked, Ending, LEFTS, MANY, Run, Script, StartFinds, ending_of, found_by, run_from, stopped,
};
use std::alloc::Global;
use std::ops::Range;
use std::test::Fail;

/// Whether an image is among these. The last ones are looked at first, since a call changes little.
fn has(images: &[Image], image: &Image) -> bool {
    images.iter().rev().any(|it| it == image)
}

/// Adds what is left of the disks of a run, but for what is among the images: a start over the same bytes goes the
/// same way. How many there were before.
fn add_images(alloc: Global, run: &Run, images: &mut Vec<Image>) -> Result<usize, Fail> {
    let before = images.len();
    for left in LEFTS {
        let image = run.image(alloc, left)?;
        if !has(images.as_slice(), &image) {
            images.push(image)?;
        }
    }
    Ok(before)
}

/// A start over disks that a stop left.
#[derive(Clone, Copy, Drop)]
struct Reopening<'a> {
    script: &'a Script,
    /// Where the run before it stopped.
    ending: Ending,
    image: &'a Image,
}

impl Reopening<'_> {
    /// The start, over these disks that fail so. It is asked nothing, and closes.
    fn started(&self, alloc: Global, image: &Image, plan: FaultPlan) -> Result<Run, Fail> {
        let what = Asked {
            asks: &[],
            manner: Manner::ToTheFirstFault,
        };
        run_from(alloc, &self.script.front, image, plan, what)
    }

    /// Whether a start that stopped itself saw nothing but what it may find.
    fn sees_what_it_may(&self, seen: &DeskRun) -> bool {
        match seen.reached {
            Reached::Unopened => true,
            Reached::Broken => false,
            Reached::Asked | Reached::Closed => self.finds_what_it_may(seen),
        }
    }

    fn finds_what_it_may(&self, seen: &DeskRun) -> bool {
        found_by(self.script, self.ending, seen) != StartFinds::Otherwise
    }

    /// Whether starts that don't stop find what they may over each of these disks behind the first ones.
    fn all_find(&self, alloc: Global, images: &[Image], count: usize) -> Result<bool, Fail> {
        for image in images.iter().skip(count) {
            let run = self.started(alloc, image, FaultPlan::sound())?;
            if !self.finds_what_it_may(&run.seen) {
                return Ok(false);
            }
        }
        Ok(true)
    }

    /// The call at which the start fails so, if it and each start behind it finds what it may. None if no call fails.
    /// Over the images starts were tried before.
    fn stop(
        &self,
        alloc: Global,
        plan: FaultPlan,
        images: &mut Vec<Image>,
    ) -> Result<Option<FailedCall>, Fail> {
        let run = self.started(alloc, self.image, plan)?;
        let Some(failed) = run.failed() else {
            return Ok(None);
        };
        let count = add_images(alloc, &run, images)?;
        if self.sees_what_it_may(&run.seen) && self.all_find(alloc, images.as_slice(), count)? {
            Ok(Some(failed))
        } else {
            Err(Fail::new(format_args!(
                "{:?}, then {plan:?}, {failed:?}: other tables are found",
                self.ending
            )))
        }
    }

    /// Adds the stops before its first call, before the second and so on, and within each write.
    fn add_stops(
        &self,
        alloc: Global,
        images: &mut Vec<Image>,
        stops: &mut Vec<FailedCall>,
    ) -> Result<(), Fail> {
        for calls in 0..MANY {
            let mut plan = FaultPlan {
                disks: Disks::Both,
                fault: DiskFault::Stop,
                calls,
            };
            let Some(failed) = self.stop(alloc, plan, images)? else {
                return Ok(());
            };
            stops.push(failed)?;
            plan.fault = DiskFault::HalfWritten;
            if failed.kind == CallKind::Write && self.stop(alloc, plan, images)?.is_some() {
                stops.push(failed)?;
            }
        }
        Err(Fail::from("each start stops"))
    }
}

/// What was tried behind stops with one ending.
#[derive(Drop)]
pub struct SecondStops {
    /// How many stops there were.
    pub first: usize,
    /// How many different bytes they left.
    pub images: usize,
    /// How many different bytes the stops of the starts over these left.
    pub behind: usize,
    /// The calls at which the starts over these stopped. A stop within a write counts as one of its own.
    pub stops: Vec<FailedCall>,
}

/// Which stops of the first run are tried, and which of the images that they leave.
#[derive(Drop)]
pub struct Chosen {
    pub ending: Ending,
    /// Those at these calls of the run, as far as they have the ending.
    pub calls: Range<u64>,
    /// Of the images these eighths, from 0 on: each is every eighth of them.
    pub eighths: Range<usize>,
}

impl Chosen {
    fn has(&self, place: usize) -> bool {
        self.eighths.contains(&(place % 8))
    }
}

/// The stops of the starts behind these stops of the run that begins with these disks.
pub fn second_stops(
    alloc: Global,
    script: &Script,
    disks: &Image,
    chosen: &Chosen,
) -> Result<SecondStops, Fail> {
    let ending = chosen.ending;
    let mut images = Vec::new(alloc);
    let mut behind = Vec::new(alloc);
    let mut stops = Vec::new(alloc);
    let mut first = 0usize;
    for calls in chosen.calls.start..chosen.calls.end {
        let plan = FaultPlan {
            disks: Disks::Both,
            fault: DiskFault::Stop,
            calls,
        };
        let run = stopped(alloc, script, disks, plan)?;
        if run.failed().is_none() {
            break;
        }
        if ending_of(&run.seen) == Some(ending) {
            first = first.saturating_add(1);
            let count = add_images(alloc, &run, &mut images)?;
            for (place, image) in images.iter().enumerate().skip(count) {
                let reopening = Reopening {
                    script,
                    ending,
                    image,
                };
                if chosen.has(place) {
                    reopening.add_stops(alloc, &mut behind, &mut stops)?;
                }
            }
        }
    }
    Ok(SecondStops {
        first,
        images: images.len(),
        behind: behind.len(),
        stops,
    })
}
