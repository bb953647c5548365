//! Where bytes come from.
ghost use Rattle.std.specs.Prelude.{◌≡◌, ◌≤◌, ◌<◌, ℕ, Option, Some, List, [], length, take, drop, IfOk, IfSome, OnErr, is_err};
ghost use Rattle.io_edge.specs.Edge.{Besides, Counted, and_then_left, nothing_besides, IsWhereTold};

use crate::{Failed, Faults};
use tail_base::{Bytes, Items};

/// Where bytes come from, as a connection or standard input.
pub trait Source {
    /// What is left, where it is told.
    ghost left: { Self → Option (List ℕ) };

    /// How often a read has failed.
    ghost read_faults: { Self → ℕ };

    /// What it tells besides, as a link that is written, too, does. A read leaves it as it is.
    ghost besides_left: { Self → Besides };

    /// Moves bytes from the front of what is left into the slice, and says how many. 0 into a slice
    /// that isn't empty is the end.
    fn read(&mut self, into: &mut [u8]) -> Result<usize, Failed>
        ensures bound { IfOk result (λ n. n ≤ length into.old) }
        ensures moved { IfOk result
            (λ n. left self.old ≡ and_then_left (take n into.new) (left self.new)) }
        ensures end { IfOk result
            (λ n. n ≡ 0 → 0 < length into.old → IsWhereTold [] (left self.new)) }
        ensures err { OnErr result (left self.new ≡ left self.old) }
        ensures besides { besides_left self.new ≡ besides_left self.old }
        ensures cause { Counted (read_faults self.old) (read_faults self.new) (is_err result) };
}

/// A source of bytes in memory, which tells what is left.
#[derive(Drop)]
pub struct MemorySource {
    bytes: Bytes,
    at: usize,
    faults: Faults,
    ghost within: { at ≤ length bytes },
}

impl MemorySource {
    /// A source of these bytes, of which the calls with these numbers fail.
    pub fn new(bytes: Bytes, fails: Items<u32>) -> MemorySource
        ensures left { ⟦<MemorySource as Source>⟧.left result ≡ Some bytes }
        ensures faults { ⟦<MemorySource as Source>⟧.read_faults result ≡ 0 }
        ensures planned { result.faults.fails ≡ fails }
    {
        MemorySource {
            bytes,
            at: 0,
            faults: Faults::new(fails),
        }
    }
}

impl Source for MemorySource {
    ghost left = { λ s. Some (drop s.at s.bytes) };

    ghost read_faults = { λ s. s.faults.count };

    ghost besides_left = { λ _. nothing_besides };

    fn read(&mut self, into: &mut [u8]) -> Result<usize, Failed> {
        if self.faults.next() {
            return Err(Failed);
        }
        let n = into.len().min(self.bytes.len() - self.at);
        into[..n].copy_from_slice(&self.bytes.as_slice()[self.at..self.at + n]);
        self.at += n;
        Ok(n)
    }
}
