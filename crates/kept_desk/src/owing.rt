//! What is owed to the drain of a poll.
use tail_base::MachineKey;

/// The responses of a machine's session that are numbered behind this one are owed to the drain
/// of its poll.
#[derive(Clone, Copy, Drop)]
pub struct Owing {
    pub machine: MachineKey,
    pub number: u64,
}
