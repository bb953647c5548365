//! A source over a reader.
ghost use Rattle.std.specs.Prelude.{◌≡◌, None};
ghost use Rattle.io_edge.specs.Edge.{nothing_besides};

use crate::{Failed, Source};
use std::io::Read;

/// Gives what a reader gives, as standard input or a socket. It doesn't tell what is left.
#[derive(Drop)]
pub struct ReadSource<R> {
    reader: R,
    failed: u64,
}

impl<R: Read> ReadSource<R> {
    /// A source of what the reader gives, whose count is 0.
    pub fn new(reader: R) -> ReadSource<R>
        ensures faults { ⟦<ReadSource<R> as Source>⟧.read_faults result ≡ 0 }
    {
        ReadSource { reader, failed: 0 }
    }
}

impl<R: Read> Source for ReadSource<R> {
    ghost left = { λ _. None };

    ghost read_faults = { λ s. s.failed };

    ghost besides_left = { λ _. nothing_besides };

    fn read(&mut self, into: &mut [u8]) -> Result<usize, Failed> {
        match self.reader.read(into) {
            Ok(n) => Ok(n),
            Err(_) => {
                self.failed = self.failed.saturating_add(1);
                Err(Failed)
            }
        }
    }
}
