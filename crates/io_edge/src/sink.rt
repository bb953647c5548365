//! Where bytes go.
ghost use Rattle.std.specs.Prelude.{◌≡◌, ◌≤◌, ◌<◌, ℕ, Option, Some, None, List, [], length, take, IfOk, OnErr, is_err};
ghost use Rattle.io_edge.specs.Edge.{Besides, Counted, and_held, nothing_besides};

use crate::{Failed, Faults};
use std::alloc::Global;
use tail_base::Items;

/// Where bytes go, as a connection or standard output.
pub trait Sink {
    /// What it holds, where it is told.
    ghost holds: { Self → Option (List ℕ) };

    /// How often a write has failed.
    ghost write_faults: { Self → ℕ };

    /// What it tells besides, as a link that is read, too, does. A write leaves it as it is.
    ghost besides_held: { Self → Besides };

    /// Appends bytes from the front of the slice, and says how many: at least 1 where there is one.
    fn write(&mut self, from: &[u8]) -> Result<usize, Failed>
        ensures bound { IfOk result (λ n. n ≤ length from.now) }
        ensures progress { IfOk result (λ n. 0 < length from.now → 0 < n) }
        ensures appended { IfOk result
            (λ n. holds self.new ≡ and_held (holds self.old) (take n from.now)) }
        ensures err { OnErr result (holds self.new ≡ holds self.old) }
        ensures besides { besides_held self.new ≡ besides_held self.old }
        ensures cause { Counted (write_faults self.old) (write_faults self.new) (is_err result) };

    /// Looks whether what is written can still arrive, without writing: a write of nothing that may fail.
    /// A connection fails where its other side is known to have left. What can't tell doesn't fail.
    fn check(&mut self) -> Result<(), Failed>
        ensures held { holds self.new ≡ holds self.old }
        ensures besides { besides_held self.new ≡ besides_held self.old }
        ensures cause { Counted (write_faults self.old) (write_faults self.new) (is_err result) }
    {
        Ok(())
    }
}

/// A sink in memory, which tells what it holds. Where memory is refused a write fails.
#[derive(Drop)]
pub struct MemorySink {
    bytes: Vec<u8>,
    faults: Faults,
}

impl MemorySink {
    /// An empty sink, of which the calls with these numbers fail.
    pub fn new(alloc: Global, fails: Items<u32>) -> MemorySink
        ensures holds { ⟦<MemorySink as Sink>⟧.holds result ≡ Some [] }
        ensures faults { ⟦<MemorySink as Sink>⟧.write_faults result ≡ 0 }
        ensures planned { result.faults.fails ≡ fails }
    {
        MemorySink {
            bytes: Vec::new(alloc),
            faults: Faults::new(fails),
        }
    }

    /// The bytes that it holds.
    pub fn bytes(&self) -> &[u8]
        ensures value { ⟦<MemorySink as Sink>⟧.holds self.now ≡ Some result.now }
    {
        &self.bytes
    }
}

impl Sink for MemorySink {
    ghost holds = { λ s. Some s.bytes.items };

    ghost write_faults = { λ s. s.faults.count };

    ghost besides_held = { λ _. nothing_besides };

    fn write(&mut self, from: &[u8]) -> Result<usize, Failed> {
        if self.faults.next() {
            return Err(Failed);
        }
        if self.bytes.extend_from_slice(from).is_err() {
            self.faults.raise();
            return Err(Failed);
        }
        Ok(from.len())
    }

    /// A look is one of the calls that may fail.
    fn check(&mut self) -> Result<(), Failed> {
        if self.faults.next() {
            return Err(Failed);
        }
        Ok(())
    }
}
