//! Doors at a listener of the system.
ghost use Rattle.std.specs.Prelude.{◌≡◌, ◌≤◌, ◌+◌, ◌-◌, ◌^◌, None, length, map, min, sum_by, All, IfOk};
ghost use Rattle.io_edge.specs.Door.{IsToldOfEach};

use crate::door::TcpDoor;
use crate::limits::{TCP_LIMITS, TcpLimits};
use io_edge::{Door, Doors, EdgeFault};
use std::alloc::Global;
use std::net::{Net, TcpListener, TcpStream};
use std::time::Clock;

/// Opens doors at addresses of this machine: one listener, and a duplicate of it for each door.
#[derive(Drop)]
pub struct TcpDoors<R> {
    rt: R,
    limits: TcpLimits,
    failed: u64,
}

impl<R: Net<Listener = TcpListener, Stream = TcpStream> + Clock + Copy + Send> TcpDoors<R> {
    /// Doors with the limits of a server, whose count is 0.
    pub fn new(rt: R) -> TcpDoors<R>
        ensures faults { ⟦<TcpDoors<R> as Doors>⟧.faults result ≡ 0 }
    {
        TcpDoors::with_limits(rt, TCP_LIMITS)
    }

    /// Doors with these limits, whose count is 0.
    pub fn with_limits(rt: R, limits: TcpLimits) -> TcpDoors<R>
        ensures faults { ⟦<TcpDoors<R> as Doors>⟧.faults result ≡ 0 }
    {
        TcpDoors {
            rt,
            limits,
            failed: 0,
        }
    }
}

impl<R: Net<Listener = TcpListener, Stream = TcpStream> + Clock + Copy> TcpDoors<R> {
    /// Listens, and makes the doors.
    fn listen(&self, alloc: Global, address: &str, count: u32) -> Result<Vec<TcpDoor<R>>, EdgeFault>
        ensures count { IfOk result (λ doors. length doors.items ≡ count) }
        ensures fresh { IfOk result (λ doors.
            All (λ d. ⟦<TcpDoor<R> as Door>⟧.faults d ≡ 0) doors.items) }
    {
        let Ok(listener) = TcpListener::bind(&self.rt, address) else {
            return Err(EdgeFault::Failed);
        };
        let wanted = count as usize;
        let mut doors = Vec::new(alloc);
        'doors: while doors.len() < wanted {
            let Ok(again) = listener.try_clone() else {
                return Err(EdgeFault::Failed);
            };
            let door = TcpDoor::new(self.rt, alloc, again, self.limits);
            if doors.push(door).is_err() {
                return Err(EdgeFault::NoMemory);
            }
        }
        Ok(doors)
    }
}

impl<R: Net<Listener = TcpListener, Stream = TcpStream> + Clock + Copy + Send> Doors
    for TcpDoors<R> {
    type Door = TcpDoor<R>;

    ghost coming = { λ _. None };

    ghost finished = { λ _. None };

    ghost asked = { λ _. None };

    ghost faults = { λ d. d.failed };

    fn open(
        &mut self,
        alloc: Global,
        address: &str,
        count: u32,
    ) -> Result<Vec<TcpDoor<R>>, EdgeFault> {
        let opened = self.listen(alloc, address, count);
        match opened {
            Err(EdgeFault::Failed) => self.failed = self.failed.saturating_add(1),
            Err(EdgeFault::NoMemory) | Ok(_) => {}
        }
        opened
    }

    fn close(&mut self, doors: Vec<TcpDoor<R>>)
        ensures faults { ⟦<TcpDoors<R> as Doors>⟧.faults self.new
            ≡ min (⟦<TcpDoors<R> as Doors>⟧.faults self.old
            + sum_by (λ d. ⟦<TcpDoor<R> as Door>⟧.faults d) doors.items) (2 ^ 64 - 1) }
        ensures later { ⟦<TcpDoors<R> as Doors>⟧.faults self.old
            ≤ ⟦<TcpDoors<R> as Doors>⟧.faults self.new }
    {
        let mut all = self.failed;
        for door in &doors {
            all = all.saturating_add(door.failed);
        }
        self.failed = all;
    }
}
