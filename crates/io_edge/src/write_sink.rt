//! A sink over a writer.
ghost use Rattle.std.specs.Prelude.{◌≡◌, None};
ghost use Rattle.io_edge.specs.Edge.{nothing_besides};

use crate::{Failed, Sink};
use std::io::Write;

/// Hands what is written to a writer, as standard output or a socket. It doesn't tell what it holds.
///
/// The writer keeps nothing back: it is never flushed.
#[derive(Drop)]
pub struct WriteSink<W> {
    writer: W,
    failed: u64,
}

impl<W: Write> WriteSink<W> {
    /// A sink that hands all to the writer, whose count is 0.
    pub fn new(writer: W) -> WriteSink<W>
        ensures faults { ⟦<WriteSink<W> as Sink>⟧.write_faults result ≡ 0 }
    {
        WriteSink { writer, failed: 0 }
    }
}

impl<W: Write> Sink for WriteSink<W> {
    ghost holds = { λ _. None };

    ghost write_faults = { λ s. s.failed };

    ghost besides_held = { λ _. nothing_besides };

    /// A writer that takes nothing of a piece that isn't empty has failed.
    fn write(&mut self, from: &[u8]) -> Result<usize, Failed> {
        match self.writer.write(from) {
            Ok(n) if n > 0 || from.is_empty() => Ok(n),
            _ => {
                self.failed = self.failed.saturating_add(1);
                Err(Failed)
            }
        }
    }
}
