//! What the clients of machines fold of their responses, beside the maps that the desk computes afresh.
use fresh_maps::View;
use machine_asks::MachineAnswer;
use map_delta::{delta, fold};
use std::alloc::Global;
use std::mem;
use tail_base::{MachineKey, NoMemory};
use tailcfg::Response;
use tailnet_desk::{Answer, Drained, Reply};

/// The client of a machine, and the map that it has.
#[derive(Drop)]
struct Follower {
    machine: MachineKey,
    view: Option<View>,
}

impl Follower {
    /// The client takes one response more.
    fn take(&mut self, alloc: Global, response: &Response) -> Result<(), NoMemory> {
        let before = mem::replace(&mut self.view, None);
        self.view = fold(alloc, before, response)?;
        Ok(())
    }

    /// Whether the client has just this map.
    fn has(&self, alloc: Global, map: &View) -> Result<bool, NoMemory> {
        match &self.view {
            Some(view) => Ok(delta(alloc, view, map, 0)?.is_empty()),
            None => Ok(false),
        }
    }
}

/// The clients of all machines that were sent something.
#[derive(Drop)]
pub(crate) struct Followers {
    all: Vec<Follower>,
}

impl Followers {
    pub(crate) fn new(alloc: Global) -> Followers {
        Followers {
            all: Vec::new(alloc),
        }
    }

    /// The place of a machine's client, who has no map yet if there was none.
    fn place_of(&mut self, machine: &MachineKey) -> Result<usize, NoMemory> {
        for (place, follower) in self.all.iter().enumerate() {
            if follower.machine == *machine {
                return Ok(place);
            }
        }
        self.all.push(Follower {
            machine: *machine,
            view: None,
        })?;
        Ok(self.all.len() - 1)
    }

    /// The client of a machine takes what its session was sent.
    pub(crate) fn follow(
        &mut self,
        alloc: Global,
        machine: &MachineKey,
        drained: &Drained,
    ) -> Result<(), NoMemory> {
        let responses = match drained {
            Drained::Frames(responses) => responses.as_slice(),
            Drained::Ended | Drained::NoMemory => &[],
        };
        let place = self.place_of(machine)?;
        if let Some(follower) = self.all.get_mut(place) {
            for response in responses {
                follower.take(alloc, response)?;
            }
        }
        Ok(())
    }

    /// Whether the client of a machine has the map with which the desk replied.
    pub(crate) fn have(
        &self,
        alloc: Global,
        machine: &MachineKey,
        reply: &Reply,
    ) -> Result<bool, NoMemory> {
        let Reply::Done(Answer::Machine(MachineAnswer::Map(map))) = reply else {
            return Ok(false);
        };
        for follower in self.all.iter() {
            if follower.machine == *machine {
                return follower.has(alloc, map);
            }
        }
        Ok(false)
    }
}
