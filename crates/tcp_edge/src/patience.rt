//! How long a connection still waits for bytes.
use crate::limits::TcpLimits;
use std::alloc::Global;
use std::io;
use std::sync::Arc;
use std::sync::atomic::{AtomicU64, Ordering};
use std::time::{Clock, Duration, Instant};

/// The milliseconds since a start.
pub(crate) fn millis_since<R: Clock>(rt: &R, start: Instant) -> io::Result<u64> {
    Ok(u64::try_from(start.elapsed(rt)?.as_millis()).unwrap_or(u64::MAX))
}

/// Until when the half that is read waits. It counts from the last write of the other half.
#[derive(Drop)]
pub(crate) struct Patience<R> {
    rt: R,
    limits: TcpLimits,
    start: Instant,
    /// When the last write was, in milliseconds since the start. No two writes have the same.
    written: Arc<AtomicU64, Global>,
    /// The last write of which it knows.
    known: u64,
    /// When the first byte since that write came.
    first: Option<u64>,
}

impl<R: Clock> Patience<R> {
    /// That of a connection that came at `start`.
    pub(crate) fn new(
        rt: R,
        limits: TcpLimits,
        start: Instant,
        written: Arc<AtomicU64, Global>,
    ) -> Patience<R> {
        Patience {
            rt,
            limits,
            start,
            written,
            known: 0,
            first: None,
        }
    }

    /// How long a read may wait now; an error if it may not any more.
    pub(crate) fn left(&mut self) -> io::Result<Duration> {
        let written = self.written.load(Ordering::SeqCst);
        if written != self.known {
            self.known = written;
            self.first = None;
        }
        let deadline = match self.first {
            Some(first) => first.saturating_add(self.limits.request),
            None => written.saturating_add(self.limits.idle),
        };
        let now = millis_since(&self.rt, self.start)?;
        if deadline <= now {
            return Err(io::Error::from(io::ErrorKind::TimedOut));
        }
        Ok(Duration::from_millis(deadline - now))
    }

    /// Bytes have come.
    pub(crate) fn note_bytes(&mut self) -> io::Result<()> {
        if self.first.is_none() {
            self.first = Some(millis_since(&self.rt, self.start)?);
        }
        Ok(())
    }

    /// When lingering ends, in milliseconds since the start.
    pub(crate) fn linger_end(&self) -> io::Result<u64> {
        Ok(millis_since(&self.rt, self.start)?.saturating_add(self.limits.linger))
    }

    /// How many bytes are read on while lingering.
    pub(crate) fn linger_bytes(&self) -> usize {
        self.limits.linger_bytes
    }

    /// The time until then.
    pub(crate) fn until(&self, end: u64) -> io::Result<Duration> {
        let now = millis_since(&self.rt, self.start)?;
        Ok(Duration::from_millis(end.saturating_sub(now)))
    }
}
