//! What time it is.
ghost use Rattle.std.specs.Prelude.{◌≡◌, ◌≤◌, ◌<◌, ◌+◌, ◌-◌, ℕ, ℤ, pos, Option, Some, List, length, min, slice_index_or, IfOk};
ghost use Rattle.io_edge.specs.Stream.{Took};

use std::alloc::Global;
use tail_base::{Duplicate, Items, NoMemory};

/// What time it is.
pub trait Clock: Sized {
    /// Answer number k from now on, where it is told.
    ghost answer: { Self → ℕ → Option ℤ };

    /// Seconds since 1970-01-01T00:00:00Z.
    fn seconds(&mut self) -> i64
        ensures took { Took (answer self.old) (answer self.new) result };

    /// An independent clock that tells the same answers.
    fn split(&mut self, alloc: Global) -> Result<Self, NoMemory>
        ensures other { IfOk result (λ other. (k : ℕ) → answer other k ≡ answer self.old k) }
        ensures same { (k : ℕ) → answer self.new k ≡ answer self.old k };
}

/// A clock that gives its answers in order, and repeats the last.
#[derive(Drop)]
pub struct MemoryClock {
    answers: Items<i64>,
    at: usize,
    ghost some_left: { at < length answers },
}

impl MemoryClock {
    /// A clock with these answers, of which there is one at least.
    pub fn new(answers: Items<i64>) -> MemoryClock
        requires some { 0 < length answers }
        ensures told { (k : ℕ)
            → ⟦<MemoryClock as Clock>⟧.answer result k
            ≡ Some (slice_index_or answers (min k (length answers - 1)) (pos 0)) }
    {
        MemoryClock { answers, at: 0 }
    }
}

impl Clock for MemoryClock {
    ghost answer = { λ s k. Some (slice_index_or s.answers (min (s.at + k) (length s.answers - 1)) (pos 0)) };

    fn seconds(&mut self) -> i64 {
        let now = self.answers.as_slice()[self.at];
        if self.at + 1 < self.answers.len() {
            self.at += 1;
        }
        now
    }

    fn split(&mut self, alloc: Global) -> Result<MemoryClock, NoMemory> {
        Ok(MemoryClock {
            answers: self.answers.copy(alloc)?,
            at: self.at,
        })
    }
}
