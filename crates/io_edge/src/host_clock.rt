//! The clock of the system.
ghost use Rattle.std.specs.Prelude.{◌≡◌, ℕ, None};

use crate::Clock;
use std::alloc::Global;
use std::rt;
use tail_base::NoMemory;

/// The clock of the system. Where it can't be read it repeats its last answer, which is at first 0.
/// It doesn't tell the answers that come.
#[derive(Drop)]
pub struct HostClock<R> {
    rt: R,
    last: i64,
}

impl<R: rt::Clock + Copy> HostClock<R> {
    /// The clock that the runtime reads.
    pub fn new(rt: R) -> HostClock<R>
        ensures untold { (k : ℕ) → ⟦<HostClock<R> as Clock>⟧.answer result k ≡ None }
    {
        HostClock { rt, last: 0 }
    }
}

impl<R: rt::Clock + Copy> Clock for HostClock<R> {
    ghost answer = { λ _ _. None };

    fn seconds(&mut self) -> i64 {
        if let Ok(time) = self.rt.since_1970() {
            self.last = i64::try_from(time.as_secs()).unwrap_or(self.last);
        }
        self.last
    }

    fn split(&mut self, _alloc: Global) -> Result<HostClock<R>, NoMemory> {
        Ok(HostClock {
            rt: self.rt,
            last: self.last,
        })
    }
}
