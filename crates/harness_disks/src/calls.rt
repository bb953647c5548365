//! The calls of a database's disks under one count, and what happens at the one that is chosen.
use std::alloc::{AllocError, Global};
use std::cell::Cell;
use std::rc::Rc;

/// One of the two files of a database.
#[derive(Clone, Copy, Debug, PartialEq, Eq, Drop)]
pub enum Part {
    Log,
    File,
}

/// A kind of call.
#[derive(Clone, Copy, Debug, PartialEq, Eq, Drop)]
pub enum CallKind {
    Length,
    Read,
    Write,
    Truncation,
    Sync,
}

/// Which disks count their calls, and fail.
#[derive(Clone, Copy, Debug, PartialEq, Eq, Drop)]
pub enum Disks {
    Both,
    Log,
    File,
}

impl Disks {
    fn has(self, part: Part) -> bool {
        match (self, part) {
            (Disks::Both, Part::Log | Part::File)
            | (Disks::Log, Part::Log)
            | (Disks::File, Part::File) => true,
            (Disks::Log, Part::File) | (Disks::File, Part::Log) => false,
        }
    }
}

/// What happens at the chosen call.
#[derive(Clone, Copy, Debug, PartialEq, Eq, Drop)]
pub enum DiskFault {
    /// It fails, and so does each later one.
    Stop,
    /// The same, but of a write half is written.
    HalfWritten,
    /// It alone fails.
    Hiccup,
}

/// At which call which disks fail, and how.
#[derive(Clone, Copy, Debug, Drop)]
pub struct FaultPlan {
    pub disks: Disks,
    pub fault: DiskFault,
    /// How many calls pass before.
    pub calls: u64,
}

impl FaultPlan {
    /// No call fails that a run makes.
    pub fn sound() -> FaultPlan {
        FaultPlan {
            disks: Disks::Both,
            fault: DiskFault::Stop,
            calls: u64::MAX,
        }
    }
}

/// The first call that failed.
#[derive(Clone, Copy, Debug, PartialEq, Eq, Drop)]
pub struct FailedCall {
    pub part: Part,
    pub kind: CallKind,
}

/// What becomes of a call.
#[derive(Clone, Copy, Drop)]
pub(crate) enum Turn {
    Passes,
    /// It fails, and of a write half is written.
    Halves,
    Fails,
}

/// The calls of both disks.
#[derive(Drop)]
pub(crate) struct Calls {
    plan: FaultPlan,
    left: Cell<u64>,
    failed: Cell<Option<FailedCall>>,
}

impl Calls {
    pub(crate) fn new(alloc: Global, plan: FaultPlan) -> Result<Rc<Calls>, AllocError> {
        Ok(Rc::new(
            alloc,
            Calls {
                plan,
                left: Cell::new(plan.calls),
                failed: Cell::new(None),
            },
        )?)
    }

    pub(crate) fn failed(&self) -> Option<FailedCall> {
        self.failed.get()
    }

    /// The chosen call.
    fn first_fault(&self, call: FailedCall) -> Turn {
        self.failed.set(Some(call));
        match self.plan.fault {
            DiskFault::Stop | DiskFault::Hiccup => Turn::Fails,
            DiskFault::HalfWritten => Turn::Halves,
        }
    }

    /// A call behind the chosen one.
    fn later(&self) -> Turn {
        match self.plan.fault {
            DiskFault::Stop | DiskFault::HalfWritten => Turn::Fails,
            DiskFault::Hiccup => Turn::Passes,
        }
    }

    /// Counts a call.
    pub(crate) fn turn(&self, part: Part, kind: CallKind) -> Turn {
        let left = self.left.get();
        if !self.plan.disks.has(part) {
            Turn::Passes
        } else if left > 0 {
            self.left.set(left - 1);
            Turn::Passes
        } else if self.failed.get().is_some() {
            self.later()
        } else {
            self.first_fault(FailedCall { part, kind })
        }
    }
}
