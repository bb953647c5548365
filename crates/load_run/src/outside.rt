//! The clock and the random words of a load.
ghost use Rattle.std.specs.Prelude.{◌≡◌, ◌+◌, ◌-◌, ◌^◌, min, Some, ℕ};
ghost use Rattle.load_run.specs.Outside as spec;

use io_edge::{Clock, EdgeFault, Entropy, Failed};
use std::alloc::Global;
use tail_base::NoMemory;

/// A clock that stands still.
#[derive(Drop)]
pub(crate) struct StillClock {
    pub(crate) seconds: i64,
}

impl Clock for StillClock {
    ghost answer = { λ c k. Some c.seconds };

    fn seconds(&mut self) -> i64 {
        self.seconds
    }

    fn split(&mut self, _alloc: Global) -> Result<StillClock, NoMemory> {
        Ok(StillClock {
            seconds: self.seconds,
        })
    }
}

/// Random words that are counted: those of draw d, from 1, are d, 0, 0, 0. No draw fails.
#[derive(Drop)]
pub(crate) struct CountedWords {
    /// How many draws there were.
    pub(crate) drawn: u64,
}

impl Entropy for CountedWords {
    ghost word = { λ e k. Some (spec.counted_words (e.drawn + k)) };

    ghost faults = { λ e. 0 };

    fn words(&mut self) -> Result<[u64; 4], Failed> {
        self.drawn = self.drawn.saturating_add(1);
        Ok([self.drawn, 0, 0, 0])
    }

    fn split(&mut self, _alloc: Global) -> Result<CountedWords, EdgeFault> {
        Ok(CountedWords { drawn: self.drawn })
    }

    fn join(&mut self, _other: CountedWords) {}
}
