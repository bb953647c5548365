//! A link over TCP.
ghost use Rattle.std.specs.Prelude.{◌≡◌, None, refl};

use io_edge::{EdgeFault, Failed, Link, Sink, Source};
use std::alloc::Global;
use std::io;
use std::io::{Read, Write};
use std::net::{Net, TcpListener, TcpStream};
use std::time::Duration;

/// How long a read waits for bytes, and a write for room, in milliseconds.
const LINK_WAIT: u64 = 60_000;

/// A connection to a server. It isn't told what comes and goes.
#[derive(Drop)]
pub struct TcpLink<R> {
    rt: R,
    stream: Option<TcpStream>,
    failed_reads: u64,
    failed_writes: u64,
}

impl<R: Net<Listener = TcpListener, Stream = TcpStream>> TcpLink<R> {
    /// A link that isn't connected, whose counts are 0.
    pub fn new(rt: R) -> TcpLink<R>
        ensures read_faults { ⟦<TcpLink<R> as Source>⟧.read_faults result ≡ 0 }
        ensures write_faults { ⟦<TcpLink<R> as Sink>⟧.write_faults result ≡ 0 }
    {
        TcpLink {
            rt,
            stream: None,
            failed_reads: 0,
            failed_writes: 0,
        }
    }

    /// A connection to the address, of which no read and no write waits for long.
    fn stream_to(&self, address: &str) -> io::Result<TcpStream> {
        let stream = TcpStream::connect(&self.rt, address)?;
        let wait = Duration::from_millis(LINK_WAIT);
        stream.set_nodelay(true)?;
        stream.set_read_timeout(Some(wait))?;
        stream.set_write_timeout(Some(wait))?;
        Ok(stream)
    }
}

impl<R> Source for TcpLink<R> {
    ghost left = { λ _. None };

    ghost read_faults = { λ s. s.failed_reads };

    ghost besides_left = { λ s. record { bytes = None; asked = None; faults = s.failed_writes } };

    fn read(&mut self, into: &mut [u8]) -> Result<usize, Failed> {
        if let Some(stream) = &mut self.stream {
            if let Ok(n) = stream.read(into) {
                return Ok(n);
            }
        }
        self.failed_reads = self.failed_reads.saturating_add(1);
        Err(Failed)
    }
}

impl<R> Sink for TcpLink<R> {
    ghost holds = { λ _. None };

    ghost write_faults = { λ s. s.failed_writes };

    ghost besides_held = { λ s. record { bytes = None; asked = None; faults = s.failed_reads } };

    fn write(&mut self, from: &[u8]) -> Result<usize, Failed> {
        if let Some(stream) = &mut self.stream {
            match stream.write(from) {
                Ok(n) if n > 0 || from.is_empty() => return Ok(n),
                Ok(_) | Err(_) => {}
            }
        }
        self.failed_writes = self.failed_writes.saturating_add(1);
        Err(Failed)
    }
}

impl<R: Net<Listener = TcpListener, Stream = TcpStream>> Link for TcpLink<R> {
    ghost asked = { λ _. None };

    ghost unread = { λ _. refl };

    ghost unwritten = { λ _. refl };

    fn connect(&mut self, _alloc: Global, address: &str) -> Result<(), EdgeFault> {
        match self.stream_to(address) {
            Ok(stream) => {
                self.stream = Some(stream);
                Ok(())
            }
            Err(_) => {
                self.failed_reads = self.failed_reads.saturating_add(1);
                Err(EdgeFault::Failed)
            }
        }
    }
}
