//! The random source of the system.
ghost use Rattle.std.specs.Prelude.{◌≡◌, None};

use crate::{EdgeFault, Entropy, Failed};
use std::alloc::Global;
use std::io;
use std::random::RandomSource;

/// Random words of the system. It doesn't tell the words that come.
#[derive(Drop)]
pub struct HostEntropy<R> {
    rt: R,
    failed: u64,
}

impl<R: RandomSource + Copy> HostEntropy<R> {
    /// The random words that the runtime draws, with a count of 0.
    pub fn new(rt: R) -> HostEntropy<R>
        ensures faults { ⟦<HostEntropy<R> as Entropy>⟧.faults result ≡ 0 }
    {
        HostEntropy { rt, failed: 0 }
    }
}

impl<R: RandomSource + Copy> Entropy for HostEntropy<R> {
    ghost word = { λ _ _. None };

    ghost faults = { λ s. s.failed };

    fn words(&mut self) -> Result<[u64; 4], Failed> {
        match draw(&self.rt) {
            Ok(words) => Ok(words),
            Err(_) => {
                self.failed = self.failed.saturating_add(1);
                Err(Failed)
            }
        }
    }

    fn split(&mut self, _alloc: Global) -> Result<HostEntropy<R>, EdgeFault> {
        Ok(HostEntropy::new(self.rt))
    }

    fn join(&mut self, other: HostEntropy<R>) {
        self.failed = self.failed.saturating_add(other.failed);
    }
}

fn draw<R: RandomSource>(rt: &R) -> io::Result<[u64; 4]> {
    Ok([
        draw_word(rt)?,
        draw_word(rt)?,
        draw_word(rt)?,
        draw_word(rt)?,
    ])
}

/// Eight random bytes as a number, the lowest first.
fn draw_word<R: RandomSource>(rt: &R) -> io::Result<u64> {
    let mut bytes = [0; 8];
    rt.fill_bytes(&mut bytes)?;
    Ok(u64::from_le_bytes(bytes))
}
