//! A seat as what serves a connection's events.
ghost use Rattle.std.specs.Prelude.{◌≡◌};

use crate::hub::Hub;
use crate::seat::Seat;
use net_addr::Moment;
use row_keeper::Keeper;
use std::alloc::Global;
use std::sync::Wait;
use tail_base::{MachineKey, NodeKey, Text};
use tailnet_desk::{Ask, Drained, Reply, Turns};

/// A seat and its hub, so that one loop serves connections over a desk and over seats.
#[derive(Drop)]
pub struct HubTurns<'a, R: Wait, K: Keeper> {
    pub rt: &'a R,
    pub hub: &'a Hub<K>,
    pub seat: &'a mut Seat<K>,
    pub ghost of_hub: { seat.now.hub ≡ hub.now.view },
}

impl<'a, R: Wait, K: Keeper> Turns for HubTurns<'a, R, K> {
    ghost use Rattle.std.specs.Prelude.{◌≡◌};
    ghost use Rattle.session_hub.specs.Seats.{IsSeatTurn};

    ghost turn = { λ old event reply new. (new.seat.ghost_name ≡ old.seat.ghost_name)
        × IsSeatTurn old.seat.now new.seat.now event reply };

    fn ask(&mut self, alloc: Global, ask: &Ask, moment: Moment, words: Option<[u64; 4]>) -> Reply {
        self.seat.ask(self.rt, alloc, self.hub, ask, moment, words)
    }

    fn attach(
        &mut self,
        alloc: Global,
        machine: &MachineKey,
        node: &NodeKey,
        handle: &Text,
        seq: u64,
        moment: Moment,
        words: Option<[u64; 4]>,
    ) -> Reply {
        self.seat.attach(
            self.rt, alloc, self.hub, machine, node, handle, seq, moment, words,
        )
    }

    fn drain(
        &mut self,
        alloc: Global,
        machine: &MachineKey,
        handle: &Text,
        moment: Moment,
    ) -> Drained {
        self.seat
            .drain(self.rt, alloc, self.hub, machine, handle, moment)
    }

    fn detach(&mut self, machine: &MachineKey, handle: &Text, moment: Moment) {
        self.seat.detach(self.rt, self.hub, machine, handle, moment);
    }
}
