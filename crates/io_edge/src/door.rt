//! Where connections come in.
ghost use Rattle.std.specs.Prelude.{◌≡◌, ◌≤◌, ◌+◌, ◌-◌, ◌^◌, ℕ, Option, Some, None, List, [], length, map, min, slice_get, sum_by, All, IfOk, IfSome, OnErr, IsErr, IsErrOf, MatchOption, is_err, true};
ghost use Rattle.io_edge.specs.Edge.{Counted, Rose, IsWhereTold};
ghost use Rattle.io_edge.specs.Asked.{IsAsked};
ghost use Rattle.io_edge.specs.Door.{Finished, Opening, and_finished, IsNext, HasRoom, IsOpenedWith, for_place, IsToldOfEach};

use crate::{EdgeFault, Failed, NoLink, Sink, Source};
use std::alloc::Global;

/// A door, where connections come in one after another and are given back.
pub trait Door {
    /// What a connection is read from.
    type In: Source;

    /// What a connection is written to.
    type Out: Sink;

    /// The bytes of each connection that comes, in order, where they are told.
    ghost coming: { Self → Option (List (List ℕ)) };

    /// The connections that were given back, in order, where they are told.
    ghost finished: { Self → Option (List Finished) };

    /// With how many connections the door was opened, where it is told.
    ghost number: { Self → Option ℕ };

    /// How often a call has failed.
    ghost faults: { Self → ℕ };

    /// Takes the next connection out. `None` says that none will come.
    fn accept(&mut self) -> Result<Option<(Self::In, Self::Out)>, Failed>
        ensures some { IfOk result
            (λ next. IfSome next (λ c. IsNext (Self.In.left c.0) (Self.Out.holds c.1)
            (coming self.old) (coming self.new))) }
        ensures fresh { IfOk result
            (λ next. IfSome next (λ c. (Self.In.read_faults c.0 ≡ 0)
            × (Self.Out.write_faults c.1 ≡ 0))) }
        ensures none { result ≡ Ok None → IsWhereTold [] (coming self.old)
            × (coming self.new ≡ coming self.old) }
        ensures err { OnErr result (coming self.new ≡ coming self.old) }
        ensures finished { finished self.new ≡ finished self.old }
        ensures number { number self.new ≡ number self.old }
        ensures cause { Counted (faults self.old) (faults self.new) (is_err result) };

    /// Takes a connection back. It takes no memory, and never fails: whether a door fails is told when it
    /// is asked for the next.
    fn finish(&mut self, input: Self::In, output: Self::Out)
        requires room { HasRoom (coming self.old) (finished self.old) (number self.old) }
        ensures finished { finished self.new
            ≡ and_finished (finished self.old)
            (record {
              left = Self.In.left input;
              holds = Self.Out.holds output;
              read_faults = Self.In.read_faults input;
              write_faults = Self.Out.write_faults output;
            }) }
        ensures coming { coming self.new ≡ coming self.old }
        ensures number { number self.new ≡ number self.old }
        ensures faults { faults self.new ≡ faults self.old };
}

/// Opens doors at an address, and closes them.
pub trait Doors {
    type Door: Door + Send;

    /// For each door the bytes of the connections that come, where they are told.
    ghost coming: { Self → Option (List (List (List ℕ))) };

    /// For each door the connections that were given back, where they are told.
    ghost finished: { Self → Option (List (List Finished)) };

    /// The addresses and numbers that it was asked for, in order, where they are told.
    ghost asked: { Self → Option (List Opening) };

    /// How often a call has failed, here and at doors that were closed.
    ghost faults: { Self → ℕ };

    /// Opens so many doors at an address, which a host's name or an IP address and a port make up.
    /// A door tells what comes only where the whole told it. While they are open, nothing is said of
    /// what the whole tells to come or to have finished.
    fn open(
        &mut self,
        alloc: Global,
        address: &str,
        count: u32,
    ) -> Result<Vec<Self::Door>, EdgeFault>
        ensures count { IfOk result (λ doors. length doors.items ≡ count) }
        ensures fresh { IfOk result (λ doors. All (λ d. Self.Door.faults d ≡ 0) doors.items) }
        ensures opened { IfOk result
            (λ doors. IfSome (coming self.old) (λ told. (i : ℕ)
            → IfSome (slice_get doors.items i) (λ d. IsOpenedWith (for_place told i)
            (Self.Door.coming d) (Self.Door.finished d) (Self.Door.number d)))) }
        ensures untold { IfOk result
            (λ doors. coming self.old ≡ None → All (λ d. Self.Door.coming d ≡ None) doors.items) }
        ensures err { OnErr result
            ((coming self.new ≡ coming self.old) × (finished self.new ≡ finished self.old)) }
        ensures asked { IsAsked result (record { address = address.now; count = count })
            (asked self.old) (asked self.new) }
        ensures later { faults self.old ≤ faults self.new }
        ensures cause { IsErrOf result EdgeFault.Failed
            → Rose (faults self.old) (faults self.new) };

    /// Takes the doors back, with their faults and with what they tell.
    fn close(&mut self, doors: Vec<Self::Door>)
        ensures coming { IsToldOfEach (map (λ d. Self.Door.coming d) doors.items)
            (coming self.new) }
        ensures finished { IsToldOfEach (map (λ d. Self.Door.finished d) doors.items)
            (finished self.new) }
        ensures asked { asked self.new ≡ asked self.old }
        ensures faults { faults self.new
            ≡ min (faults self.old + sum_by (λ d. Self.Door.faults d) doors.items) (2 ^ 64 - 1) }
        ensures later { faults self.old ≤ faults self.new };
}

/// The door of a program with no doors: nothing comes, and each call that can fail does.
#[derive(Drop)]
pub struct NoDoor {
    failed: u64,
}

impl Door for NoDoor {
    type In = NoLink;

    type Out = NoLink;

    ghost coming = { λ _. None };

    ghost finished = { λ _. None };

    ghost number = { λ _. None };

    ghost faults = { λ d. d.failed };

    fn accept(&mut self) -> Result<Option<(NoLink, NoLink)>, Failed>
        ensures fails { IsErr result }
        ensures cause { Counted (⟦<NoDoor as Door>⟧.faults self.old)
            (⟦<NoDoor as Door>⟧.faults self.new) true }
    {
        self.failed = self.failed.saturating_add(1);
        Err(Failed)
    }

    fn finish(&mut self, _input: NoLink, _output: NoLink) {}
}

/// The doors of a program that takes no connections: opening them fails.
#[derive(Drop)]
pub struct NoDoors {
    failed: u64,
}

impl NoDoors {
    /// Doors whose count is 0.
    pub fn new() -> NoDoors
        ensures faults { ⟦<NoDoors as Doors>⟧.faults result ≡ 0 }
    {
        NoDoors { failed: 0 }
    }
}

impl Doors for NoDoors {
    type Door = NoDoor;

    ghost coming = { λ _. None };

    ghost finished = { λ _. None };

    ghost asked = { λ _. None };

    ghost faults = { λ d. d.failed };

    fn open(
        &mut self,
        _alloc: Global,
        _address: &str,
        _count: u32,
    ) -> Result<Vec<NoDoor>, EdgeFault>
        ensures fails { result ≡ Err EdgeFault.Failed }
        ensures cause { Counted (⟦<NoDoors as Doors>⟧.faults self.old)
            (⟦<NoDoors as Doors>⟧.faults self.new) true }
    {
        self.failed = self.failed.saturating_add(1);
        Err(EdgeFault::Failed)
    }

    fn close(&mut self, doors: Vec<NoDoor>)
        ensures faults { ⟦<NoDoors as Doors>⟧.faults self.new
            ≡ min (⟦<NoDoors as Doors>⟧.faults self.old
            + sum_by (λ d. ⟦<NoDoor as Door>⟧.faults d) doors.items) (2 ^ 64 - 1) }
        ensures later { ⟦<NoDoors as Doors>⟧.faults self.old
            ≤ ⟦<NoDoors as Doors>⟧.faults self.new }
    {
        let mut all = self.failed;
        for door in &doors {
            all = all.saturating_add(door.failed);
        }
        self.failed = all;
    }
}
