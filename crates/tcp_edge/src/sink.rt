//! The half of a connection that is written.
ghost use Rattle.std.specs.Prelude.{◌≡◌, ◌≤◌, ◌<◌, ◌↔◌, None, length, IfOk, IsTrue};
ghost use Rattle.io_edge.specs.Edge.{nothing_besides};

use crate::limits::{INTERRUPTIONS, TcpLimits, is_interrupted};
use crate::patience::millis_since;
use io_edge::{Failed, Sink};
use std::alloc::Global;
use std::io;
use std::io::Write;
use std::net::TcpStream;
use std::sync::Arc;
use std::sync::atomic::{AtomicU64, Ordering};
use std::time::{Clock, Duration, Instant};

/// The most bytes of one write.
const PIECE: usize = 64 * 1024;

/// Where the answers of a connection go. A write fails if a piece isn't taken in time.
#[derive(Drop)]
pub struct TcpSink<R> {
    rt: R,
    stream: TcpStream,
    limits: TcpLimits,
    start: Instant,
    written: Arc<AtomicU64, Global>,
    failed: u64,
}

/// A write that is begun again where a signal broke it off before its first byte.
fn write_once(stream: &mut TcpStream, piece: &[u8]) -> io::Result<usize>
    ensures bound { IfOk result (λ n. n ≤ length piece.now) }
{
    for _ in 0..INTERRUPTIONS {
        match stream.write(piece) {
            Ok(n) => return Ok(n),
            Err(error) if is_interrupted(&error) => {}
            Err(error) => return Err(error),
        }
    }
    Err(io::Error::from(io::ErrorKind::Interrupted))
}

impl<R: Clock> TcpSink<R> {
    /// The half of a connection that came at `start`.
    pub(crate) fn new(
        rt: R,
        stream: TcpStream,
        limits: TcpLimits,
        start: Instant,
        written: Arc<AtomicU64, Global>,
    ) -> TcpSink<R>
        ensures fresh { ⟦<TcpSink<R> as Sink>⟧.write_faults result ≡ 0 }
    {
        TcpSink {
            rt,
            stream,
            limits,
            start,
            written,
            failed: 0,
        }
    }

    /// Whether a call has failed: the client has left, or takes nothing.
    pub(crate) fn has_failed(&self) -> bool
        ensures value { IsTrue result ↔ (0 < self.now.failed) }
    {
        self.failed > 0
    }

    /// Writes a piece from the front, whole or not at all.
    fn write_in_time(&mut self, from: &[u8]) -> io::Result<usize>
        ensures bound { IfOk result (λ n. n ≤ length from.now) }
        ensures progress { IfOk result (λ n. 0 < length from.now → 0 < n) }
        ensures same { self.new.failed ≡ self.old.failed }
    {
        let piece = &from[..from.len().min(PIECE)];
        let wait = Duration::from_millis(self.limits.write);
        self.stream.set_write_timeout(Some(wait))?;
        let taken = write_once(&mut self.stream, piece)?;
        if taken < piece.len() {
            return Err(io::Error::from(io::ErrorKind::TimedOut));
        }
        self.note_write()?;
        Ok(piece.len())
    }

    /// Looks at what the other side sends, without waiting and without taking it. Its end or an error
    /// says that it has left; bytes that it sent ahead hide that.
    fn look(&self) -> io::Result<()> {
        self.stream.set_nonblocking(true)?;
        let looked = self.stream.peek(&mut [0; 1]);
        self.stream.set_nonblocking(false)?;
        match looked {
            Ok(0) => Err(io::Error::from(io::ErrorKind::UnexpectedEof)),
            Ok(_) => Ok(()),
            Err(error) if is_interrupted(&error) || error.kind() == io::ErrorKind::WouldBlock => {
                Ok(())
            }
            Err(error) => Err(error),
        }
    }

    /// From now on the other half waits for the next request.
    fn note_write(&self) -> io::Result<()> {
        let now = millis_since(&self.rt, self.start)?;
        let last = self.written.load(Ordering::SeqCst);
        self.written
            .store(now.max(last.saturating_add(1)), Ordering::SeqCst);
        Ok(())
    }
}

impl<R: Clock> Sink for TcpSink<R> {
    ghost holds = { λ _. None };

    ghost write_faults = { λ s. s.failed };

    ghost besides_held = { λ _. nothing_besides };

    fn write(&mut self, from: &[u8]) -> Result<usize, Failed> {
        match self.write_in_time(from) {
            Ok(n) => Ok(n),
            Err(_) => {
                self.failed = self.failed.saturating_add(1);
                Err(Failed)
            }
        }
    }

    /// A client that has ended what it sends counts as one that left.
    fn check(&mut self) -> Result<(), Failed> {
        match self.look() {
            Ok(()) => Ok(()),
            Err(_) => {
                self.failed = self.failed.saturating_add(1);
                Err(Failed)
            }
        }
    }
}
