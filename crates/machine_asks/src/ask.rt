//! What a machine asks of the desk.
use tail_base::{MachineKey, NodeKey};
use tailcfg::{Register, Update};

/// One thing that a machine asks of the desk.
#[derive(Drop)]
pub enum MachineAsk {
    /// The machine with this key registers.
    Register {
        machine: MachineKey,
        form: Register,
    },
    /// The machine with these keys tells of itself.
    Update {
        machine: MachineKey,
        node: NodeKey,
        update: Update,
    },
    /// The machine with these keys asks for its map, and may tell of itself.
    OneMap {
        machine: MachineKey,
        node: NodeKey,
        update: Option<Update>,
    },
}
