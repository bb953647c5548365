//! Sources, sinks, doors and a pause that wait for one another.
ghost use Rattle.std.specs.Prelude.{◌≡◌, ◌≤◌, ◌+◌, ◌-◌, ◌^◌, None, min, sum_by};
ghost use Rattle.io_edge.specs.Edge.{nothing_besides};

use io_edge::{Door, Doors, EdgeFault, Failed, MemorySink, MemorySource, Pause, Sink, Source};
use std::alloc::Global;
use std::mem;
use std::sync::{Arc, Condvar, Mutex, Wait};
use std::time::{Clock, Duration};
use tail_base::{Bytes, Items, NoMemory};

/// The longest wait, in milliseconds, and how many there are at most.
const WAIT: u64 = 50;

const WAITS: u32 = 200;

/// Something that comes once, and for which threads wait.
#[derive(Drop)]
pub(crate) struct Gate<R> {
    rt: R,
    is_open: Mutex<bool>,
    more: Condvar,
}

impl<R: Wait + Clock> Gate<R> {
    pub(crate) fn new(rt: R) -> Gate<R> {
        Gate {
            rt,
            is_open: Mutex::new(false),
            more: Condvar::new(),
        }
    }

    fn open(&self) {
        let mut is_open = self.is_open.lock(&self.rt);
        *is_open = true;
        drop(is_open);
        self.more.notify_all();
    }

    /// Waits for it, and says whether it has come.
    fn has_come(&self, waits: u32) -> bool {
        for _ in 0..waits {
            let is_open = self.is_open.lock(&self.rt);
            let (is_open, _) = self.more.wait_timeout_while(
                &self.rt,
                is_open,
                Duration::from_millis(WAIT),
                |is_open| !*is_open,
            );
            if *is_open {
                return true;
            }
        }
        false
    }
}

/// A source that gives nothing before its gate has opened, if it has one.
#[derive(Drop)]
pub(crate) struct GatedSource<R> {
    bytes: MemorySource,
    gate: Option<Arc<Gate<R>, Global>>,
    failed: u64,
}

impl<R: Drop> GatedSource<R> {
    /// A source of these bytes.
    pub(crate) fn new(
        alloc: Global,
        bytes: &[u8],
        gate: Option<Arc<Gate<R>, Global>>,
    ) -> Result<GatedSource<R>, NoMemory> {
        let bytes = Bytes::from_slice(alloc, bytes)?;
        Ok(GatedSource {
            bytes: MemorySource::new(bytes, Items::new(alloc)),
            gate,
            failed: 0,
        })
    }
}

impl<R: Wait + Clock> Source for GatedSource<R> {
    ghost left = { λ _. None };

    ghost read_faults = { λ s. s.failed };

    ghost besides_left = { λ _. nothing_besides };

    fn read(&mut self, into: &mut [u8]) -> Result<usize, Failed> {
        let is_due = match &self.gate {
            Some(gate) => gate.has_come(WAITS),
            None => true,
        };
        if is_due && let Ok(n) = self.bytes.read(into) {
            return Ok(n);
        }
        self.failed = self.failed.saturating_add(1);
        Err(Failed)
    }
}

/// Whether a call is the one that was counted down to; 0 is none.
fn comes_now(left: &mut u32) -> bool {
    let comes = *left == 1;
    *left = left.saturating_sub(1);
    comes
}

/// The numbers of calls of a sink at which something happens, counted from 1; 0 is none.
#[derive(Clone, Copy, Drop)]
pub(crate) struct SinkPlan {
    /// The write at which its gate opens.
    pub opens: u32,
    /// The write that fails.
    pub write: u32,
    /// The look that finds its other side gone.
    pub check: u32,
}

/// A sink that opens a gate, and fails, as planned.
#[derive(Drop)]
pub(crate) struct OpeningSink<R> {
    bytes: MemorySink,
    gate: Arc<Gate<R>, Global>,
    plan: SinkPlan,
    failed: u64,
}

impl<R> OpeningSink<R> {
    pub(crate) fn new(alloc: Global, gate: Arc<Gate<R>, Global>, plan: SinkPlan) -> OpeningSink<R> {
        OpeningSink {
            bytes: MemorySink::new(alloc, Items::new(alloc)),
            gate,
            plan,
            failed: 0,
        }
    }
}

impl<R: Wait + Clock> Sink for OpeningSink<R> {
    ghost holds = { λ _. None };

    ghost write_faults = { λ s. s.failed };

    ghost besides_held = { λ _. nothing_besides };

    fn write(&mut self, from: &[u8]) -> Result<usize, Failed> {
        if comes_now(&mut self.plan.write) {
            self.failed = self.failed.saturating_add(1);
            return Err(Failed);
        }
        let Ok(n) = self.bytes.write(from) else {
            self.failed = self.failed.saturating_add(1);
            return Err(Failed);
        };
        if comes_now(&mut self.plan.opens) {
            self.gate.open();
        }
        Ok(n)
    }

    fn check(&mut self) -> Result<(), Failed> {
        if comes_now(&mut self.plan.check) {
            self.failed = self.failed.saturating_add(1);
            return Err(Failed);
        }
        Ok(())
    }
}

/// A door at which one connection comes, and which opens a gate when it is given back, if it has one.
#[derive(Drop)]
pub(crate) struct OneDoor<R> {
    coming: Option<(GatedSource<R>, OpeningSink<R>)>,
    finished: Option<OpeningSink<R>>,
    ended: Option<Arc<Gate<R>, Global>>,
}

impl<R> OneDoor<R> {
    pub(crate) fn new(
        input: GatedSource<R>,
        output: OpeningSink<R>,
        ended: Option<Arc<Gate<R>, Global>>,
    ) -> OneDoor<R> {
        OneDoor {
            coming: Some((input, output)),
            finished: None,
            ended,
        }
    }
}

impl<R: Wait + Clock + Drop> Door for OneDoor<R> {
    type In = GatedSource<R>;

    type Out = OpeningSink<R>;

    ghost coming = { λ _. None };

    ghost finished = { λ _. None };

    ghost number = { λ _. None };

    ghost faults = { λ _. 0 };

    fn accept(&mut self) -> Result<Option<(GatedSource<R>, OpeningSink<R>)>, Failed> {
        match self.coming.take() {
            Some((mut input, mut output)) => {
                input.failed = 0;
                output.failed = 0;
                Ok(Some((input, output)))
            }
            None => Ok(None),
        }
    }

    fn finish(&mut self, _input: GatedSource<R>, output: OpeningSink<R>) {
        self.finished = Some(output);
        if let Some(gate) = &self.ended {
            gate.open();
        }
    }
}

/// Doors that are there already, and are kept when they are given back.
#[derive(Drop)]
pub(crate) struct ReadyDoors<R> {
    alloc: Global,
    ready: Vec<OneDoor<R>>,
    closed: Vec<OneDoor<R>>,
}

impl<R> ReadyDoors<R> {
    pub(crate) fn new(alloc: Global, ready: Vec<OneDoor<R>>) -> ReadyDoors<R> {
        ReadyDoors {
            alloc,
            ready,
            closed: Vec::new(alloc),
        }
    }

    /// What was written at a door, if it was given back.
    pub(crate) fn written_at(&self, place: usize) -> &[u8] {
        match self.closed.get(place) {
            Some(
                OneDoor {
                    finished: Some(output),
                    ..
                },
            ) => output.bytes.bytes(),
            Some(_) | None => b"",
        }
    }
}

impl<R: Wait + Clock + Send + Sync + Drop> Doors for ReadyDoors<R> {
    type Door = OneDoor<R>;

    ghost coming = { λ _. None };

    ghost finished = { λ _. None };

    ghost asked = { λ _. None };

    ghost faults = { λ _. 0 };

    fn open(
        &mut self,
        _alloc: Global,
        _address: &str,
        count: u32,
    ) -> Result<Vec<OneDoor<R>>, EdgeFault> {
        if self.ready.len() != count as usize {
            return Err(EdgeFault::NoMemory);
        }
        let none = Vec::new(self.alloc);
        Ok(mem::replace(&mut self.ready, none))
    }

    fn close(&mut self, doors: Vec<OneDoor<R>>)
        ensures faults { ⟦<ReadyDoors<R> as Doors>⟧.faults self.new
            ≡ min (⟦<ReadyDoors<R> as Doors>⟧.faults self.old
            + sum_by (λ d. ⟦<OneDoor<R> as Door>⟧.faults d) doors.items) (2 ^ 64 - 1) }
        ensures later { ⟦<ReadyDoors<R> as Doors>⟧.faults self.old
            ≤ ⟦<ReadyDoors<R> as Doors>⟧.faults self.new }
    {
        self.closed = doors;
    }
}

/// A pause that waits for notes in the same way, and not at all once its gate has opened.
#[derive(Drop)]
pub(crate) struct GatedPause<R> {
    rt: R,
    noted: Mutex<u64>,
    more: Condvar,
    gate: Arc<Gate<R>, Global>,
}

impl<R> GatedPause<R> {
    /// A pause that ends once this gate has opened.
    pub(crate) fn new(rt: R, gate: Arc<Gate<R>, Global>) -> GatedPause<R> {
        GatedPause {
            rt,
            noted: Mutex::new(0),
            more: Condvar::new(),
            gate,
        }
    }
}

impl<R: Wait + Clock> Pause for GatedPause<R> {
    fn mark(&self) -> u64 {
        *self.noted.lock(&self.rt)
    }

    fn note(&self) {
        let mut noted = self.noted.lock(&self.rt);
        *noted = noted.wrapping_add(1);
        drop(noted);
        self.more.notify_all();
    }

    fn wait(&self, seen: u64) -> u64 {
        if !*self.gate.is_open.lock(&self.rt) {
            let noted = self.noted.lock(&self.rt);
            let longest = Duration::from_millis(WAIT);
            let (noted, _) = self
                .more
                .wait_timeout_while(&self.rt, noted, longest, |noted| *noted == seen);
            drop(noted);
        }
        self.mark()
    }
}
