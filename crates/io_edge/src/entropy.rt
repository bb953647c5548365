//! Random words.
ghost use Rattle.std.specs.Prelude.{◌≡◌, ◌≤◌, ◌<◌, ◌+◌, ◌-◌, ◌^◌, ℕ, Option, Some, List, [], length, min, slice_index_or, IfOk, OnErr, IsErrOf, is_err};
ghost use Rattle.io_edge.specs.Edge.{Counted, Rose};
ghost use Rattle.io_edge.specs.Stream.{Took};

use crate::{EdgeFault, Failed, Faults};
use std::alloc::Global;
use tail_base::{Duplicate, Items};

/// Where random words come from.
pub trait Entropy: Sized {
    /// The four words of draw number k from now on, where it is told.
    ghost word: { Self → ℕ → Option (List ℕ) };

    /// How often a draw or a split has failed.
    ghost faults: { Self → ℕ };

    /// Draws four words. A draw that fails leaves the words that come as they are.
    fn words(&mut self) -> Result<[u64; 4], Failed>
        ensures told { IfOk result (λ w. Took (word self.old) (word self.new) w) }
        ensures err { OnErr result ((k : ℕ) → word self.new k ≡ word self.old k) }
        ensures cause { Counted (faults self.old) (faults self.new) (is_err result) };

    /// An independent one with a count of 0 that tells the same words.
    fn split(&mut self, alloc: Global) -> Result<Self, EdgeFault>
        ensures other { IfOk result
            (λ other. ((k : ℕ) → word other k ≡ word self.old k) × (faults other ≡ 0)) }
        ensures same { (k : ℕ) → word self.new k ≡ word self.old k }
        ensures later { faults self.old ≤ faults self.new }
        ensures cause { IsErrOf result EdgeFault.Failed
            → Rose (faults self.old) (faults self.new) };

    /// Adds the other's count.
    fn join(&mut self, other: Self)
        ensures same { (k : ℕ) → word self.new k ≡ word self.old k }
        ensures faults { faults self.new ≡ min (faults self.old + faults other) (2 ^ 64 - 1) }
        ensures later { faults self.old ≤ faults self.new };
}

/// Random words in memory: it gives its answers in order, and repeats the last.
#[derive(Drop)]
pub struct MemoryEntropy {
    answers: Items<[u64; 4]>,
    at: usize,
    faults: Faults,
    ghost some_left: { at < length answers },
}

impl MemoryEntropy {
    /// Random words with these answers, of which there is one at least. The calls with the numbers
    /// in `fails` fail.
    pub fn new(answers: Items<[u64; 4]>, fails: Items<u32>) -> MemoryEntropy
        requires some { 0 < length answers }
        ensures told { (k : ℕ)
            → ⟦<MemoryEntropy as Entropy>⟧.word result k
            ≡ Some (slice_index_or answers (min k (length answers - 1)) []) }
        ensures faults { ⟦<MemoryEntropy as Entropy>⟧.faults result ≡ 0 }
        ensures planned { result.faults.fails ≡ fails }
    {
        MemoryEntropy {
            answers,
            at: 0,
            faults: Faults::new(fails),
        }
    }
}

impl Entropy for MemoryEntropy {
    ghost word = { λ s k. Some (slice_index_or s.answers (min (s.at + k) (length s.answers - 1)) []) };

    ghost faults = { λ s. s.faults.count };

    fn words(&mut self) -> Result<[u64; 4], Failed> {
        if self.faults.next() {
            return Err(Failed);
        }
        let word = self.answers.as_slice()[self.at];
        if self.at + 1 < self.answers.len() {
            self.at += 1;
        }
        Ok(word)
    }

    fn split(&mut self, alloc: Global) -> Result<MemoryEntropy, EdgeFault> {
        if self.faults.next() {
            return Err(EdgeFault::Failed);
        }
        match self.answers.copy(alloc) {
            Ok(answers) => Ok(MemoryEntropy {
                answers,
                at: self.at,
                faults: Faults::new(Items::new(alloc)),
            }),
            Err(_) => Err(EdgeFault::NoMemory),
        }
    }

    fn join(&mut self, other: MemoryEntropy) {
        self.faults.count = self.faults.count.saturating_add(other.faults.count);
    }
}
