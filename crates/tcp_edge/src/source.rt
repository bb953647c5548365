//! The half of a connection that is read.
ghost use Rattle.std.specs.Prelude.{◌≡◌, ◌≤◌, None, length, IfOk};
ghost use Rattle.io_edge.specs.Edge.{nothing_besides};

use crate::limits::{INTERRUPTIONS, is_interrupted};
use crate::patience::Patience;
use io_edge::{Failed, Source};
use std::io;
use std::io::Read;
use std::net::{Shutdown, TcpStream};
use std::time::{Clock, Duration};

/// What comes over a connection. A read fails if it waits too long.
#[derive(Drop)]
pub struct TcpSource<R> {
    stream: TcpStream,
    patience: Patience<R>,
    /// Whether its end was read.
    ended: bool,
    failed: u64,
}

impl<R: Clock> TcpSource<R> {
    /// The half of a connection that has this patience.
    pub(crate) fn new(stream: TcpStream, patience: Patience<R>) -> TcpSource<R>
        ensures fresh { ⟦<TcpSource<R> as Source>⟧.read_faults result ≡ 0 }
    {
        TcpSource {
            stream,
            patience,
            ended: false,
            failed: 0,
        }
    }

    /// Ends what is sent and reads on for a while, so that the last answer isn't lost. Not where the end was
    /// read, and not where a read failed: then all that had come was read, and what was answered before that
    /// read has had its time.
    pub(crate) fn linger(&mut self) {
        if !self.ended && self.failed == 0 && self.stream.shutdown(Shutdown::Write).is_ok() {
            if let Ok(end) = self.patience.linger_end() {
                read_on(&mut self.stream, &self.patience, end);
            }
        }
    }
}

/// One try to read, for what is left of the time.
fn read_once<R: Clock>(
    stream: &mut TcpStream,
    patience: &mut Patience<R>,
    into: &mut [u8],
) -> io::Result<usize>
    ensures bound { IfOk result (λ n. n ≤ length into.old) }
{
    let wait = patience.left()?;
    stream.set_read_timeout(Some(wait))?;
    stream.read(into)
}

/// A read that waits no longer than it may. One that a signal broke off, as a process that is stopped
/// and continued has it, is begun again.
fn read_in_time<R: Clock>(
    stream: &mut TcpStream,
    patience: &mut Patience<R>,
    into: &mut [u8],
) -> io::Result<usize>
    ensures bound { IfOk result (λ n. n ≤ length into.old) }
{
    for _ in 0..INTERRUPTIONS {
        match read_once(stream, patience, into) {
            Ok(n) => {
                if n > 0 {
                    patience.note_bytes()?;
                }
                return Ok(n);
            }
            Err(error) if is_interrupted(&error) => {}
            Err(error) => return Err(error),
        }
    }
    Err(io::Error::from(io::ErrorKind::Interrupted))
}

/// Reads until the end, or then, or the most bytes.
fn read_on<R: Clock>(stream: &mut TcpStream, patience: &Patience<R>, end: u64) {
    let mut bytes = [0; 4096];
    let mut left = patience.linger_bytes();
    while left > 0 {
        let n = read_until(stream, patience, end, &mut bytes);
        if n == 0 {
            return;
        }
        left = left.saturating_sub(n);
    }
}

/// How many bytes come until then; 0 where none do.
fn read_until<R: Clock>(
    stream: &mut TcpStream,
    patience: &Patience<R>,
    end: u64,
    bytes: &mut [u8],
) -> usize {
    match patience.until(end) {
        Ok(wait) if wait > Duration::ZERO && stream.set_read_timeout(Some(wait)).is_ok() => {
            stream.read(bytes).unwrap_or(0)
        }
        Ok(_) | Err(_) => 0,
    }
}

impl<R: Clock> Source for TcpSource<R> {
    ghost left = { λ _. None };

    ghost read_faults = { λ s. s.failed };

    ghost besides_left = { λ _. nothing_besides };

    fn read(&mut self, into: &mut [u8]) -> Result<usize, Failed> {
        match read_in_time(&mut self.stream, &mut self.patience, into) {
            Ok(n) => {
                self.ended = self.ended || (n == 0 && !into.is_empty());
                Ok(n)
            }
            Err(_) => {
                self.failed = self.failed.saturating_add(1);
                Err(Failed)
            }
        }
    }
}
