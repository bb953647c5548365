//! A desk with a shelf of frames.
ghost use Rattle.std.specs.Prelude.{◌≡◌, [], None};

use crate::keeping::{kept_drain, owed_by};
use crate::owing::Owing;
use frame_shelf::FrameShelf;
use net_addr::Moment;
use std::alloc::Global;
use tail_base::{MachineKey, NodeKey, Text};
use tailnet_desk::{Ask, Drained, Reply, Turns};

/// A desk, the last frames of its machines' sessions, and what is owed to the drain of the poll
/// that attached last. A poll that asks with an older number is sent what it missed, where the
/// shelf has it.
#[derive(Drop)]
pub struct KeptDesk<T: Turns + Drop> {
    pub(crate) desk: T,
    pub(crate) shelf: FrameShelf,
    pub(crate) owed: Option<Owing>,
}

impl<T: Turns + Drop> KeptDesk<T> {
    /// The desk with an empty shelf. It takes no memory.
    pub fn new(alloc: Global, desk: T) -> KeptDesk<T>
        ensures desk { result.desk ≡ desk }
        ensures shelf { result.shelf ≡ [] }
        ensures owed { result.owed ≡ None }
    {
        KeptDesk {
            desk,
            shelf: FrameShelf::new(alloc),
            owed: None,
        }
    }

    /// The desk without its shelf.
    pub fn into_desk(self) -> T
        ensures value { result ≡ self.desk }
    {
        let KeptDesk {
            desk,
            shelf: _,
            owed: _,
        } = self;
        desk
    }
}

impl<T: Turns + Drop> Turns for KeptDesk<T> {
    ghost use Rattle.kept_desk.specs.Keeping.{IsShelvedTurn, kept_point_of};

    ghost turn = { λ old event reply new.
        IsShelvedTurn T.turn (kept_point_of old) event reply (kept_point_of new) };

    fn ask(&mut self, alloc: Global, ask: &Ask, moment: Moment, words: Option<[u64; 4]>) -> Reply {
        self.desk.ask(alloc, ask, moment, words)
    }

    fn attach(
        &mut self,
        alloc: Global,
        machine: &MachineKey,
        node: &NodeKey,
        handle: &Text,
        seq: u64,
        moment: Moment,
        words: Option<[u64; 4]>,
    ) -> Reply {
        let reached = self.shelf.reach(machine, handle, seq);
        let number = reached.unwrap_or(seq);
        let reply = self
            .desk
            .attach(alloc, machine, node, handle, number, moment, words);
        self.owed = owed_by(machine, seq, reached, &reply);
        reply
    }

    fn drain(
        &mut self,
        alloc: Global,
        machine: &MachineKey,
        handle: &Text,
        moment: Moment,
    ) -> Drained {
        let owed = self.owed;
        self.owed = None;
        let drained = self.desk.drain(alloc, machine, handle, moment);
        kept_drain(alloc, &mut self.shelf, machine, handle, owed, drained)
    }

    fn detach(&mut self, machine: &MachineKey, handle: &Text, moment: Moment) {
        self.desk.detach(machine, handle, moment);
    }
}
