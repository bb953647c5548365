//! A door at a listener.
ghost use Rattle.std.specs.Prelude.{◌≡◌, None, IfSome};

use crate::limits::TcpLimits;
use crate::patience::Patience;
use crate::sink::TcpSink;
use crate::source::TcpSource;
use io_edge::{Door, Failed, Sink, Source};
use std::alloc::Global;
use std::net::{SocketAddr, TcpListener, TcpStream};
use std::sync::Arc;
use std::sync::atomic::AtomicU64;
use std::thread;
use std::time::{Clock, Duration, Instant};

/// A door at a duplicate of a listener.
#[derive(Drop)]
pub struct TcpDoor<R> {
    rt: R,
    alloc: Global,
    listener: TcpListener,
    limits: TcpLimits,
    pub(crate) failed: u64,
}

impl<R: Clock + Copy> TcpDoor<R> {
    /// A door whose count is 0.
    pub(crate) fn new(rt: R, alloc: Global, listener: TcpListener, limits: TcpLimits) -> TcpDoor<R>
        ensures fresh { result.failed ≡ 0 }
    {
        TcpDoor {
            rt,
            alloc,
            listener,
            limits,
            failed: 0,
        }
    }

    /// Where it listens. The system chooses the port if 0 was asked for.
    pub fn address(&self) -> Option<SocketAddr> {
        self.listener.local_addr().ok()
    }

    /// The halves of a connection that just came. There are none where the system or memory has no room.
    fn halves_of(&self, stream: TcpStream) -> Option<(TcpSource<R>, TcpSink<R>)>
        ensures fresh { IfSome result (λ c. (⟦<TcpSource<R> as Source>⟧.read_faults c.0 ≡ 0)
            × (⟦<TcpSink<R> as Sink>⟧.write_faults c.1 ≡ 0)) }
    {
        stream.set_nodelay(true).ok()?;
        let other = stream.try_clone().ok()?;
        let start = Instant::now(&self.rt).ok()?;
        let written = Arc::new(self.alloc, AtomicU64::new(0)).ok()?;
        let same = Arc::try_clone(&written).ok()?;
        let patience = Patience::new(self.rt, self.limits, start, written);
        let input = TcpSource::new(stream, patience);
        Some((
            input,
            TcpSink::new(self.rt, other, self.limits, start, same),
        ))
    }

    /// The next connection, where one comes now.
    fn next(&self) -> Option<(TcpSource<R>, TcpSink<R>)>
        ensures fresh { IfSome result (λ c. (⟦<TcpSource<R> as Source>⟧.read_faults c.0 ≡ 0)
            × (⟦<TcpSink<R> as Sink>⟧.write_faults c.1 ≡ 0)) }
    {
        let (stream, _) = self.listener.accept().ok()?;
        self.halves_of(stream)
    }
}

impl<R: Clock + Copy> Door for TcpDoor<R> {
    type In = TcpSource<R>;

    type Out = TcpSink<R>;

    ghost coming = { λ _. None };

    ghost finished = { λ _. None };

    ghost number = { λ _. None };

    ghost faults = { λ d. d.failed };

    fn accept(&mut self) -> Result<Option<(TcpSource<R>, TcpSink<R>)>, Failed> {
        for _ in 0..self.limits.tries {
            if let Some(halves) = self.next() {
                return Ok(Some(halves));
            }
            thread::sleep(&self.rt, Duration::from_millis(self.limits.retry));
        }
        self.failed = self.failed.saturating_add(1);
        Err(Failed)
    }

    /// An answer that wasn't taken isn't waited for either.
    fn finish(&mut self, input: TcpSource<R>, output: TcpSink<R>) {
        let mut input = input;
        if !output.has_failed() {
            input.linger();
        }
    }
}
