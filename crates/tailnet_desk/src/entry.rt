//! Events, and what stands of them in a history.
use crate::ask::Ask;
use crate::reply::Reply;
use net_addr::Moment;
use tail_base::{MachineKey, NodeKey, Text};

/// One call of the desk: what is wanted, the moment, and fresh random words if they were drawn.
#[derive(Drop)]
pub enum Event {
    /// Something is asked.
    Ask {
        ask: Ask,
        moment: Moment,
        words: Option<[u64; 4]>,
    },
    /// A machine's poll begins. The client names its session's handle and last number.
    Attach {
        machine: MachineKey,
        node: NodeKey,
        handle: Text,
        seq: u64,
        moment: Moment,
        words: Option<[u64; 4]>,
    },
    /// A poll fetches what is new in its session.
    Drain {
        machine: MachineKey,
        handle: Text,
        moment: Moment,
    },
    /// A poll ends.
    Detach {
        machine: MachineKey,
        handle: Text,
        moment: Moment,
    },
}

/// An event, its reply, and the keeper's count of faults before and after it.
#[derive(Drop)]
pub struct Entry {
    pub event: Event,
    pub reply: Reply,
    pub before: u64,
    pub after: u64,
}
