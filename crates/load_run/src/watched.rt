//! A desk whose replies are heard.
ghost use Rattle.tailnet_desk.specs.Seated.{point_of};

use crate::heard::Heard;
use net_addr::Moment;
use row_keeper::Keeper;
use std::alloc::Global;
use tail_base::{MachineKey, NodeKey, Text};
use tailnet_desk::{Ask, Desk, Drained, Reply, Turns};

/// A desk, and what was heard of its replies.
#[derive(Drop)]
pub struct WatchedDesk<K: Keeper> {
    pub(crate) desk: Desk<K>,
    pub(crate) heard: Heard,
}

impl<K: Keeper> Turns for WatchedDesk<K> {
    ghost use Rattle.load_run.specs.Watching.{IsWatchedTurn, watched_of};

    ghost turn = { λ old event reply new.
        IsWatchedTurn (watched_of (point_of K.told K.faults K.calls) old) event reply
        (watched_of (point_of K.told K.faults K.calls) new) };

    fn ask(&mut self, alloc: Global, ask: &Ask, moment: Moment, words: Option<[u64; 4]>) -> Reply {
        let reply = self.desk.ask(alloc, ask, moment, words);
        self.heard.hear(alloc, &reply);
        reply
    }

    fn attach(
        &mut self,
        alloc: Global,
        machine: &MachineKey,
        node: &NodeKey,
        handle: &Text,
        seq: u64,
        moment: Moment,
        words: Option<[u64; 4]>,
    ) -> Reply {
        let reply = self
            .desk
            .attach(alloc, machine, node, handle, seq, moment, words);
        self.heard.hear(alloc, &reply);
        reply
    }

    fn drain(
        &mut self,
        alloc: Global,
        machine: &MachineKey,
        handle: &Text,
        moment: Moment,
    ) -> Drained {
        let drained = self.desk.drain(alloc, machine, handle, moment);
        self.heard.hear_drained(&drained);
        drained
    }

    fn detach(&mut self, machine: &MachineKey, handle: &Text, moment: Moment) {
        self.desk.detach(machine, handle, moment);
    }
}
