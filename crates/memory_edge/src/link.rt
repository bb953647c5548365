//! A link in memory.
ghost use Rattle.std.specs.Prelude.{◌≡◌, ◌≤◌, Some, [], drop, false, length, refl, true};

use io_edge::{EdgeFault, Failed, Faults, Link, Sink, Source};
use std::alloc::Global;
use tail_base::{Bytes, Items, Text};

/// A link in memory: the bytes of an answer, and what was written. Calls are numbered over connects,
/// reads and writes together. Where memory is refused, a write fails.
#[derive(Drop)]
pub struct MemoryLink {
    answer: Bytes,
    /// How many of the answer's bytes were read.
    at: usize,
    written: Vec<u8>,
    asked: Items<Text>,
    connected: bool,
    plan: Faults,
    failed_reads: u64,
    failed_writes: u64,
    ghost within: { at ≤ length answer },
}

impl MemoryLink {
    /// A link that isn't connected, with these bytes to read, of which the calls with these numbers
    /// fail.
    pub fn new(alloc: Global, answer: Bytes, fails: Items<u32>) -> MemoryLink
        ensures left { ⟦<MemoryLink as Source>⟧.left result ≡ Some answer }
        ensures holds { ⟦<MemoryLink as Sink>⟧.holds result ≡ Some [] }
        ensures asked { ⟦<MemoryLink as Link>⟧.asked result ≡ Some [] }
        ensures read_faults { ⟦<MemoryLink as Source>⟧.read_faults result ≡ 0 }
        ensures write_faults { ⟦<MemoryLink as Sink>⟧.write_faults result ≡ 0 }
        ensures planned { result.plan.fails ≡ fails }
        ensures early { result.connected ≡ false }
    {
        MemoryLink {
            answer,
            at: 0,
            written: Vec::new(alloc),
            asked: Items::new(alloc),
            connected: false,
            plan: Faults::new(fails),
            failed_reads: 0,
            failed_writes: 0,
        }
    }

    /// The bytes that were written.
    pub fn written(&self) -> &[u8]
        ensures value { ⟦<MemoryLink as Sink>⟧.holds self.now ≡ Some result.now }
    {
        &self.written
    }

    /// The addresses that it was asked for, in order.
    pub fn asked(&self) -> &[Text]
        ensures value { ⟦<MemoryLink as Link>⟧.asked self.now ≡ Some result.now }
    {
        self.asked.as_slice()
    }

    /// Whether the next call fails: it is to fail, or the link isn't connected.
    fn fails_next(&mut self) -> bool
        ensures same { self.new ≡ record self.old { plan = self.new.plan } }
        ensures early { self.old.connected ≡ false → result ≡ true }
    {
        let planned = self.plan.next();
        planned || !self.connected
    }
}

impl Source for MemoryLink {
    ghost left = { λ s. Some (drop s.at s.answer) };

    ghost read_faults = { λ s. s.failed_reads };

    ghost besides_left = { λ s. record {
      bytes = Some s.written.items;
      asked = Some s.asked;
      faults = s.failed_writes;
    } };

    fn read(&mut self, into: &mut [u8]) -> Result<usize, Failed> {
        if self.fails_next() {
            self.failed_reads = self.failed_reads.saturating_add(1);
            return Err(Failed);
        }
        let n = into.len().min(self.answer.len() - self.at);
        into[..n].copy_from_slice(&self.answer.as_slice()[self.at..self.at + n]);
        self.at += n;
        Ok(n)
    }
}

impl Sink for MemoryLink {
    ghost holds = { λ s. Some s.written.items };

    ghost write_faults = { λ s. s.failed_writes };

    ghost besides_held = { λ s. record {
      bytes = Some (drop s.at s.answer);
      asked = Some s.asked;
      faults = s.failed_reads;
    } };

    fn write(&mut self, from: &[u8]) -> Result<usize, Failed> {
        if self.fails_next() {
            self.failed_writes = self.failed_writes.saturating_add(1);
            return Err(Failed);
        }
        if self.written.extend_from_slice(from).is_err() {
            self.failed_writes = self.failed_writes.saturating_add(1);
            return Err(Failed);
        }
        Ok(from.len())
    }
}

impl Link for MemoryLink {
    ghost asked = { λ s. Some s.asked };

    ghost unread = { λ _. refl };

    ghost unwritten = { λ _. refl };

    fn connect(&mut self, alloc: Global, address: &str) -> Result<(), EdgeFault> {
        let fails = self.plan.next();
        let Ok(address) = Text::from_str(alloc, address) else {
            return Err(EdgeFault::NoMemory);
        };
        if self.asked.push(address).is_err() {
            return Err(EdgeFault::NoMemory);
        }
        if fails {
            self.failed_reads = self.failed_reads.saturating_add(1);
            return Err(EdgeFault::Failed);
        }
        self.connected = true;
        Ok(())
    }
}
