//! A door in memory.
ghost use Rattle.std.specs.Prelude.{◌≡◌, ◌≤◌, Some, length, drop, IfOk, vec_capacity};
ghost use Rattle.io_edge.specs.Door.{IsOpenedWith};

use io_edge::{Door, Failed, Faults, MemorySink, MemorySource, Sink, Source};
use std::alloc::Global;
use tail_base::{Bytes, Duplicate, Items, NoMemory};

/// A door at which given connections come, and which tells all that it has and had.
#[derive(Drop)]
pub struct MemoryDoor {
    alloc: Global,
    pub(crate) connections: Items<Bytes>,
    /// How many connections were taken out.
    pub(crate) at: usize,
    /// Those that were given back. There is room for all.
    pub(crate) finished: Vec<(MemorySource, MemorySink)>,
    pub(crate) faults: Faults,
    ghost within: { at ≤ length connections },
    ghost room: { length connections ≤ vec_capacity finished },
}

impl MemoryDoor {
    /// A door at which these connections come, of which the calls with these numbers fail. It makes
    /// the room in which connections are given back.
    pub fn new(
        alloc: Global,
        connections: Items<Bytes>,
        fails: Items<u32>,
    ) -> Result<MemoryDoor, NoMemory>
        ensures opened { IfOk result (λ d. IsOpenedWith connections
            (⟦<MemoryDoor as Door>⟧.coming d) (⟦<MemoryDoor as Door>⟧.finished d)
            (⟦<MemoryDoor as Door>⟧.number d)) }
        ensures faults { IfOk result (λ d. ⟦<MemoryDoor as Door>⟧.faults d ≡ 0) }
        ensures planned { IfOk result (λ d. d.faults.fails ≡ fails) }
    {
        let finished = Vec::with_capacity(alloc, connections.len())?;
        Ok(MemoryDoor {
            alloc,
            connections,
            at: 0,
            finished,
            faults: Faults::new(fails),
        })
    }

    /// A door at which the connections come that still come at this one, and of which the same calls
    /// fail.
    pub(crate) fn anew(&self, alloc: Global) -> Result<MemoryDoor, NoMemory>
        ensures opened { IfOk result (λ d. IsOpenedWith (drop self.now.at self.now.connections)
            (⟦<MemoryDoor as Door>⟧.coming d) (⟦<MemoryDoor as Door>⟧.finished d)
            (⟦<MemoryDoor as Door>⟧.number d)) }
        ensures faults { IfOk result (λ d. ⟦<MemoryDoor as Door>⟧.faults d ≡ 0) }
    {
        let left = Items::from_slice(alloc, &self.connections.as_slice()[self.at..])?;
        MemoryDoor::new(alloc, left, self.faults.fails.copy(alloc)?)
    }
}

impl Door for MemoryDoor {
    type In = MemorySource;

    type Out = MemorySink;

    ghost use Rattle.memory_edge.specs.Finished.{all_finished};

    ghost coming = { λ d. Some (drop d.at d.connections) };

    ghost finished = { λ d. Some (all_finished
        ⟦<MemorySource as Source>⟧.left ⟦<MemorySource as Source>⟧.read_faults
        ⟦<MemorySink as Sink>⟧.holds ⟦<MemorySink as Sink>⟧.write_faults d.finished.items) };

    ghost number = { λ d. Some (length d.connections) };

    ghost faults = { λ d. d.faults.count };

    fn accept(&mut self) -> Result<Option<(MemorySource, MemorySink)>, Failed> {
        if self.faults.next() {
            return Err(Failed);
        }
        let Some(bytes) = self.connections.as_slice().get(self.at) else {
            return Ok(None);
        };
        let Ok(bytes) = bytes.copy(self.alloc) else {
            self.faults.raise();
            return Err(Failed);
        };
        self.at += 1;
        let input = MemorySource::new(bytes, Items::new(self.alloc));
        Ok(Some((input, MemorySink::new(self.alloc, Items::new(self.alloc)))))
    }

    fn finish(&mut self, input: MemorySource, output: MemorySink) {
        self.finished.push_reserved((input, output));
    }
}
