//! The calls of a desk as values, so that all of them take one way through the hub.
ghost use Rattle.session_hub.specs.Calls.{IsReplyTo, event_of};
ghost use Rattle.tailnet_desk.specs.Asks.{IsShortEvent};
ghost use Rattle.tailnet_desk.specs.Crashes.{IsKeptTurn};

use net_addr::Moment;
use row_keeper::Keeper;
use std::alloc::Global;
use tail_base::{MachineKey, NodeKey, Text};
use tailnet_desk::{Ask, Desk, Reply};

/// One call of a desk, by what it is handed.
#[derive(Drop)]
pub(crate) enum Call<'a> {
    Ask {
        alloc: Global,
        ask: &'a Ask,
        moment: Moment,
        words: Option<[u64; 4]>,
    },
    Attach {
        alloc: Global,
        machine: &'a MachineKey,
        node: &'a NodeKey,
        handle: &'a Text,
        seq: u64,
        moment: Moment,
        words: Option<[u64; 4]>,
    },
    Drain {
        alloc: Global,
        machine: &'a MachineKey,
        handle: &'a Text,
        moment: Moment,
    },
    Detach {
        machine: &'a MachineKey,
        handle: &'a Text,
        moment: Moment,
    },
}

impl Call<'_> {
    /// Makes the call.
    pub(crate) fn run<K: Keeper>(&self, desk: &mut Desk<K>) -> Reply
        requires short { IsShortEvent (event_of self.now) }
        ensures kept { IsKeptTurn K.told K.faults K.calls K.is_clean K.may_leave
            desk.old (event_of self.now) result desk.new }
        ensures kind { IsReplyTo (event_of self.now) result }
    {
        match self {
            Call::Ask {
                alloc,
                ask,
                moment,
                words,
            } => desk.ask(*alloc, ask, *moment, *words),
            Call::Attach {
                alloc,
                machine,
                node,
                handle,
                seq,
                moment,
                words,
            } => desk.attach(*alloc, machine, node, handle, *seq, *moment, *words),
            Call::Drain {
                alloc,
                machine,
                handle,
                moment,
            } => desk.drain(*alloc, machine, handle, *moment).into_reply(),
            Call::Detach {
                machine,
                handle,
                moment,
            } => {
                desk.detach(machine, handle, *moment);
                Reply::Detached
            }
        }
    }
}
