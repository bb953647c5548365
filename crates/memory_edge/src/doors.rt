//! Doors in memory.
ghost use Rattle.std.specs.Prelude.{◌≡◌, ◌≤◌, ◌<◌, ◌+◌, ◌-◌, ◌^◌, ℕ, Some, [], ◌∷◌, ◌++◌, length, map, min, sum_by, All, IfOk, IfSome, OnOk, OnErr, slice_get, drop, option_map, unwrap_or};
ghost use Rattle.io_edge.specs.Asked.{and_asked};
ghost use Rattle.io_edge.specs.Door.{IsOpenedWith, IsToldOfEach, for_place};
ghost use Rattle.io_edge.specs.Edge.{Counted};

use crate::door::MemoryDoor;
use io_edge::{Door, Doors, EdgeFault, Faults, MemorySink, MemorySource, Sink, Source};
use std::alloc::Global;
use tail_base::{Bytes, Items, NoMemory};

/// What comes at one door, and which of its calls fail.
#[derive(Drop)]
pub struct DoorPlan {
    pub connections: Items<Bytes>,
    pub fails: Items<u32>,
}

/// An opening that was asked for.
#[derive(Drop)]
pub struct AskedOpening {
    pub address: Bytes,
    pub count: u32,
}

/// Doors at which given connections come. They tell what comes at each door, and after they were closed
/// what each door has finished and what it still has.
#[derive(Drop)]
pub struct MemoryDoors {
    /// The doors as they are to be opened, or as they were given back.
    places: Vec<MemoryDoor>,
    asked: Vec<AskedOpening>,
    faults: Faults,
}

impl MemoryDoors {
    /// Doors with these plans, one for each, of which the calls with the numbers in `fails` fail.
    pub fn new(
        alloc: Global,
        plans: Items<DoorPlan>,
        fails: Items<u32>,
    ) -> Result<MemoryDoors, NoMemory>
        ensures coming { IfOk result (λ d. ⟦<MemoryDoors as Doors>⟧.coming d
            ≡ Some (map (λ p. p.connections) plans)) }
        ensures asked { IfOk result (λ d. ⟦<MemoryDoors as Doors>⟧.asked d ≡ Some []) }
        ensures faults { IfOk result (λ d. ⟦<MemoryDoors as Doors>⟧.faults d ≡ 0) }
        ensures planned { IfOk result (λ d. d.faults.fails ≡ fails) }
    {
        let mut places = Vec::new(alloc);
        for plan in plans.into_vec() {
            let DoorPlan { connections, fails } = plan;
            places.push(MemoryDoor::new(alloc, connections, fails)?)?;
        }
        Ok(MemoryDoors {
            places,
            asked: Vec::new(alloc),
            faults: Faults::new(fails),
        })
    }

    /// The connections that the door at this place has finished, when it was given back: what is left of
    /// each, and what was written on it. None where there is no such door.
    pub fn finished_at(&self, place: usize) -> &[(MemorySource, MemorySink)]
        ensures value { result.now ≡ unwrap_or
            (option_map (λ d. d.finished.items) (slice_get self.now.places.items place)) [] }
    {
        match self.places.as_slice().get(place) {
            Some(door) => door.finished.as_slice(),
            None => &[],
        }
    }

    /// What was asked for, in order.
    pub fn asked(&self) -> &[AskedOpening]
        ensures value { result.now ≡ self.now.asked.items }
    {
        self.asked.as_slice()
    }

    /// The door for a place: as it is to be opened, or one where nothing comes.
    fn door_for(&self, alloc: Global, place: usize) -> Result<MemoryDoor, NoMemory>
        ensures opened { IfOk result (λ d. IfSome (⟦<MemoryDoors as Doors>⟧.coming self.now)
            (λ told.
            IsOpenedWith (for_place told place) (⟦<MemoryDoor as Door>⟧.coming d)
            (⟦<MemoryDoor as Door>⟧.finished d) (⟦<MemoryDoor as Door>⟧.number d))) }
        ensures fresh { IfOk result (λ d. ⟦<MemoryDoor as Door>⟧.faults d ≡ 0) }
    {
        match self.places.as_slice().get(place) {
            Some(door) => door.anew(alloc),
            None => MemoryDoor::new(alloc, Items::new(alloc), Items::new(alloc)),
        }
    }

    /// The doors for the first places.
    fn doors_for(&self, alloc: Global, count: u32) -> Result<Vec<MemoryDoor>, NoMemory>
        ensures count { IfOk result (λ doors. length doors.items ≡ count) }
        ensures fresh { IfOk result (λ doors.
            All (λ d. ⟦<MemoryDoor as Door>⟧.faults d ≡ 0) doors.items) }
        ensures opened { IfOk result (λ doors. IfSome (⟦<MemoryDoors as Doors>⟧.coming self.now)
            (λ told. (i : ℕ)
            → IfSome (slice_get doors.items i) (λ d. IsOpenedWith (for_place told i)
            (⟦<MemoryDoor as Door>⟧.coming d)
            (⟦<MemoryDoor as Door>⟧.finished d) (⟦<MemoryDoor as Door>⟧.number d)))) }
    {
        let mut doors = Vec::new(alloc);
        for place in 0..count {
            doors.push(self.door_for(alloc, place as usize)?)?;
        }
        Ok(doors)
    }

    /// Notes what is asked for.
    fn note(&mut self, alloc: Global, address: &str, count: u32) -> Result<(), NoMemory>
        ensures ok { OnOk result (⟦<MemoryDoors as Doors>⟧.asked self.new
            ≡ and_asked (⟦<MemoryDoors as Doors>⟧.asked self.old)
            (record { address = address.now; count = count })) }
        ensures err { OnErr result (⟦<MemoryDoors as Doors>⟧.asked self.new
            ≡ ⟦<MemoryDoors as Doors>⟧.asked self.old) }
        ensures same { (self.new.places ≡ self.old.places) × (self.new.faults ≡ self.old.faults) }
    {
        let address = Bytes::from_slice(alloc, address.as_bytes())?;
        self.asked.push(AskedOpening { address, count })?;
        Ok(())
    }
}

impl Doors for MemoryDoors {
    type Door = MemoryDoor;

    ghost use Rattle.memory_edge.specs.Finished.{all_finished, as_opening};

    ghost coming = { λ d. Some (map (λ door. drop door.at door.connections) d.places.items) };

    ghost finished = { λ d. Some (map (λ door. all_finished
        ⟦<MemorySource as Source>⟧.left ⟦<MemorySource as Source>⟧.read_faults
        ⟦<MemorySink as Sink>⟧.holds ⟦<MemorySink as Sink>⟧.write_faults
        door.finished.items) d.places.items) };

    ghost asked = { λ d. Some (map as_opening d.asked.items) };

    ghost faults = { λ d. d.faults.count };

    fn open(
        &mut self,
        alloc: Global,
        address: &str,
        count: u32,
    ) -> Result<Vec<MemoryDoor>, EdgeFault> {
        let fails = self.faults.next();
        let Ok(doors) = self.doors_for(alloc, count) else {
            return Err(EdgeFault::NoMemory);
        };
        if self.note(alloc, address, count).is_err() {
            return Err(EdgeFault::NoMemory);
        }
        if fails {
            return Err(EdgeFault::Failed);
        }
        Ok(doors)
    }

    fn close(&mut self, doors: Vec<MemoryDoor>)
        ensures coming { IsToldOfEach (map (λ d. ⟦<MemoryDoor as Door>⟧.coming d) doors.items)
            (⟦<MemoryDoors as Doors>⟧.coming self.new) }
        ensures finished { IsToldOfEach (map (λ d. ⟦<MemoryDoor as Door>⟧.finished d) doors.items)
            (⟦<MemoryDoors as Doors>⟧.finished self.new) }
        ensures asked { ⟦<MemoryDoors as Doors>⟧.asked self.new
            ≡ ⟦<MemoryDoors as Doors>⟧.asked self.old }
        ensures faults { ⟦<MemoryDoors as Doors>⟧.faults self.new
            ≡ min (⟦<MemoryDoors as Doors>⟧.faults self.old
            + sum_by (λ d. ⟦<MemoryDoor as Door>⟧.faults d) doors.items) (2 ^ 64 - 1) }
        ensures later { ⟦<MemoryDoors as Doors>⟧.faults self.old
            ≤ ⟦<MemoryDoors as Doors>⟧.faults self.new }
    {
        let mut all = self.faults.count;
        for door in &doors {
            all = all.saturating_add(door.faults.count);
        }
        self.faults.count = all;
        self.places = doors;
    }
}
