//! A connection that is opened to an address.
ghost use Rattle.std.specs.Prelude.{◌≡◌, ◌≤◌, ℕ, Option, None, List, true, refl, IsErr, IsErrOf};
ghost use Rattle.io_edge.specs.Edge.{Counted, Rose};
ghost use Rattle.io_edge.specs.Asked.{and_asked, IsAsked};

use crate::{EdgeFault, Failed, Sink, Source};
use std::alloc::Global;

/// A connection to a server, which is both read and written. Until it is connected, each read and
/// each write fails.
pub trait Link: Source + Sink {
    /// The addresses that it was asked for, in order, where they are told.
    ghost asked: { Self → Option (List (List ℕ)) };

    /// Opens the connection to an address. What is left to read, and what was written, stay.
    fn connect(&mut self, alloc: Global, address: &str) -> Result<(), EdgeFault>
        ensures asked { IsAsked result address.now (asked self.old) (asked self.new) }
        ensures left { Self.left self.new ≡ Self.left self.old }
        ensures holds { Self.holds self.new ≡ Self.holds self.old }
        ensures reads_later { Self.read_faults self.old ≤ Self.read_faults self.new }
        ensures writes_later { Self.write_faults self.old ≤ Self.write_faults self.new }
        ensures cause { IsErrOf result EdgeFault.Failed
            → Rose (Self.read_faults self.old) (Self.read_faults self.new) };

    /// A read leaves what was written, the addresses that it was asked for, and the count of failed writes.
    ghost unread: { (l : Self) → Self.besides_left l
        ≡ record { bytes = Self.holds l; asked = asked l; faults = Self.write_faults l } };

    /// A write leaves what is left to read, the addresses that it was asked for, and the count of failed
    /// reads.
    ghost unwritten: { (l : Self) → Self.besides_held l
        ≡ record { bytes = Self.left l; asked = asked l; faults = Self.read_faults l } };
}

/// The link of a program that connects to nothing: each call fails.
#[derive(Drop)]
pub struct NoLink {
    failed_reads: u64,
    failed_writes: u64,
}

impl NoLink {
    /// A link whose counts are 0.
    pub fn new() -> NoLink
        ensures read_faults { ⟦<NoLink as Source>⟧.read_faults result ≡ 0 }
        ensures write_faults { ⟦<NoLink as Sink>⟧.write_faults result ≡ 0 }
    {
        NoLink {
            failed_reads: 0,
            failed_writes: 0,
        }
    }
}

impl Source for NoLink {
    ghost left = { λ _. None };

    ghost read_faults = { λ s. s.failed_reads };

    ghost besides_left = { λ s. record { bytes = None; asked = None; faults = s.failed_writes } };

    fn read(&mut self, _into: &mut [u8]) -> Result<usize, Failed>
        ensures fails { IsErr result }
        ensures cause { Counted (⟦<NoLink as Source>⟧.read_faults self.old)
            (⟦<NoLink as Source>⟧.read_faults self.new) true }
        ensures besides { ⟦<NoLink as Source>⟧.besides_left self.new
            ≡ ⟦<NoLink as Source>⟧.besides_left self.old }
    {
        self.failed_reads = self.failed_reads.saturating_add(1);
        Err(Failed)
    }
}

impl Sink for NoLink {
    ghost holds = { λ _. None };

    ghost write_faults = { λ s. s.failed_writes };

    ghost besides_held = { λ s. record { bytes = None; asked = None; faults = s.failed_reads } };

    fn write(&mut self, _from: &[u8]) -> Result<usize, Failed>
        ensures fails { IsErr result }
        ensures cause { Counted (⟦<NoLink as Sink>⟧.write_faults self.old)
            (⟦<NoLink as Sink>⟧.write_faults self.new) true }
        ensures besides { ⟦<NoLink as Sink>⟧.besides_held self.new
            ≡ ⟦<NoLink as Sink>⟧.besides_held self.old }
    {
        self.failed_writes = self.failed_writes.saturating_add(1);
        Err(Failed)
    }
}

impl Link for NoLink {
    ghost asked = { λ _. None };

    ghost unread = { λ _. refl };

    ghost unwritten = { λ _. refl };

    fn connect(&mut self, _alloc: Global, _address: &str) -> Result<(), EdgeFault>
        ensures fails { result ≡ Err EdgeFault.Failed }
        ensures cause { Counted (⟦<NoLink as Source>⟧.read_faults self.old)
            (⟦<NoLink as Source>⟧.read_faults self.new) true }
        ensures writes_same { ⟦<NoLink as Sink>⟧.write_faults self.new
            ≡ ⟦<NoLink as Sink>⟧.write_faults self.old }
    {
        self.failed_reads = self.failed_reads.saturating_add(1);
        Err(EdgeFault::Failed)
    }
}
