//! What each machine of a load knows.
ghost use Rattle.std.specs.Prelude.{◌≡◌, ◌≤◌, ◌-◌, ◌<◌, IfOk, None, [], length, replicate, slice_set};
ghost use Rattle.load_run.specs.Knowing as spec;

use std::alloc::Global;
use std::marker::Model;
use tail_base::{NoMemory, Text};

/// What a machine knows: the handle and the number of its last poll, and the route that it told of
/// last.
#[derive(Drop)]
pub struct MachineMemory {
    /// The handle of its session; it is empty before the first poll.
    pub handle: Text,
    /// The last number that it was sent.
    pub seq: u64,
    /// The second byte of the route that it told of last.
    pub route: Option<u8>,
}

impl MachineMemory {
    /// Nothing is known.
    pub(crate) fn nothing(alloc: Global) -> MachineMemory
        ensures value { result ≡ spec.nothing }
    {
        MachineMemory {
            handle: Text::new(alloc),
            seq: 0,
            route: None,
        }
    }
}

/// What all machines know, seen as a list: the first is that of machine 1.
#[derive(Drop)]
pub struct Roll {
    machines: Vec<MachineMemory>,
}

impl Model for Roll {
    ghost use Rattle.load_run.specs.declared.known.MachineMemory.{MachineMemory};
    ghost use Rattle.std.specs.Prelude.{List};

    ghost Value = { List MachineMemory };

    ghost view = { λ a. a.machines.items };
}

impl Roll {
    /// So many machines that know nothing.
    pub(crate) fn new(alloc: Global, machines: u32) -> Result<Roll, NoMemory>
        ensures value { IfOk result (λ roll. roll ≡ replicate machines spec.nothing) }
    {
        let mut roll = Vec::new(alloc);
        let mut made = 0;
        while made < machines {
            roll.push(MachineMemory::nothing(alloc))?;
            made += 1;
        }
        Ok(Roll { machines: roll })
    }

    /// What this machine knows.
    pub(crate) fn of(&self, machine: u32) -> &MachineMemory
        requires least { 1 ≤ machine }
        requires most { machine ≤ length self.now }
        ensures value { result.now ≡ spec.known_of self.now machine }
    {
        &self.machines[machine as usize - 1]
    }

    /// This machine knows that from now on.
    pub(crate) fn set(&mut self, machine: u32, known: MachineMemory)
        requires least { 1 ≤ machine }
        requires most { machine ≤ length self.old }
        ensures value { self.new ≡ spec.with_known self.old machine known }
    {
        self.machines[machine as usize - 1] = known;
    }
}
