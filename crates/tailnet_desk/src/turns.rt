//! What serves a caller's events.
ghost use Rattle.std.specs.Prelude.{◌≡◌};

use crate::ask::Ask;
use crate::desk::Desk;
use crate::reply::{Drained, Reply};
use net_addr::Moment;
use row_keeper::Keeper;
use std::alloc::Global;
use tail_base::{MachineKey, NodeKey, Text};

/// What serves a caller's events in turn: a desk, or a seat at one.
pub trait Turns {
    ghost use Rattle.tailnet_desk.specs.Asks.{IsShort};
    ghost use Rattle.tailnet_desk.specs.Step.{drain_reply};
    ghost use Rattle.tailnet_desk.specs.Turns.{IsAttachReply};
    ghost use Rattle.tailnet_desk.specs.declared.entry.Event.{Event};
    ghost use Rattle.tailnet_desk.specs.declared.entry.Event.TheVariants as event;
    ghost use Rattle.tailnet_desk.specs.declared.reply.Reply.{Reply};
    ghost use Rattle.tailnet_desk.specs.declared.reply.Reply.TheVariants as reply;

    /// That a call with this event and this reply may lead from one to the other.
    ghost turn: { Self → Event → Reply → Self → Type 0 };

    /// One event. The lists and texts of the ask are within the limits of rows.
    fn ask(&mut self, alloc: Global, ask: &Ask, moment: Moment, words: Option<[u64; 4]>) -> Reply
        requires short { IsShort ask.now }
        ensures turn { turn self.old (event.Ask ask.now moment words) result self.new };

    /// A poll begins.
    fn attach(
        &mut self,
        alloc: Global,
        machine: &MachineKey,
        node: &NodeKey,
        handle: &Text,
        seq: u64,
        moment: Moment,
        words: Option<[u64; 4]>,
    ) -> Reply
        ensures turn { turn self.old
            (event.Attach machine.now node.now handle.now seq moment words) result self.new }
        ensures kind { IsAttachReply result };

    /// A poll fetches what is new in its session.
    fn drain(
        &mut self,
        alloc: Global,
        machine: &MachineKey,
        handle: &Text,
        moment: Moment,
    ) -> Drained
        ensures turn { turn self.old
            (event.Drain machine.now handle.now moment) (drain_reply result) self.new };

    /// A poll ends. It takes no memory.
    fn detach(&mut self, machine: &MachineKey, handle: &Text, moment: Moment)
        ensures turn { turn self.old
            (event.Detach machine.now handle.now moment) reply.Detached self.new };
}

impl<K: Keeper> Turns for Desk<K> {
    ghost use Rattle.tailnet_desk.specs.Crashes.{IsKeptTurn};

    ghost turn = { IsKeptTurn K.told K.faults K.calls K.is_clean K.may_leave };

    fn ask(&mut self, alloc: Global, ask: &Ask, moment: Moment, words: Option<[u64; 4]>) -> Reply {
        Desk::ask(self, alloc, ask, moment, words)
    }

    fn attach(
        &mut self,
        alloc: Global,
        machine: &MachineKey,
        node: &NodeKey,
        handle: &Text,
        seq: u64,
        moment: Moment,
        words: Option<[u64; 4]>,
    ) -> Reply {
        Desk::attach(self, alloc, machine, node, handle, seq, moment, words)
    }

    fn drain(
        &mut self,
        alloc: Global,
        machine: &MachineKey,
        handle: &Text,
        moment: Moment,
    ) -> Drained {
        Desk::drain(self, alloc, machine, handle, moment)
    }

    fn detach(&mut self, machine: &MachineKey, handle: &Text, moment: Moment) {
        Desk::detach(self, machine, handle, moment);
    }
}
