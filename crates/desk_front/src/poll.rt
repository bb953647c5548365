//! What machines poll by.
ghost use Rattle.std.specs.Prelude.{◌≡◌};
ghost use Rattle.desk_front.specs.Replies.{map_ask_of};

use machine_asks::MachineAsk;
use tail_base::{MachineKey, NodeKey, Text};
use tailnet_desk::Ask;

/// A machine's poll: its keys, and the handle and the last number of the session that its client has.
#[derive(Drop)]
pub struct Poll {
    pub machine: MachineKey,
    pub node: NodeKey,
    pub handle: Text,
    pub seq: u64,
}

impl Poll {
    /// The ask for the machine's whole map. A poll's refusal is answered as that ask's.
    pub fn map_ask(&self) -> Ask
        ensures value { result ≡ map_ask_of self.now }
    {
        Ask::Machine(MachineAsk::OneMap {
            machine: self.machine,
            node: self.node,
            update: None,
        })
    }
}
