//! What a seat at the hub's table knows. No value of these types is made: they are what proofs see.
use std::collections::LinkedList;
use tailnet_desk::Entry;

/// An entry of the history, and the name of the seat that made it.
pub struct Line {
    pub by: u64,
    pub entry: Entry,
}

/// Where a seat stands in the queue.
pub enum Stage {
    /// It has no ticket.
    Idle,
    /// It has drawn this ticket.
    Waits(u64),
    /// Its ticket is served, and it has the desk.
    InTurn(u64),
}

/// Names, and a history that has all lines under them.
pub struct Portion {
    pub names: LinkedList<u64>,
    pub seen: LinkedList<Line>,
}

/// What a seat knows.
pub struct Known<D> {
    /// The desk as it was when the hub was made. A seat of a hub has it.
    pub start: Option<D>,
    /// The history, as far as it was seen.
    pub seen: LinkedList<Line>,
    /// The names that the seat answers for.
    pub names: LinkedList<u64>,
    pub stage: Stage,
    /// After a join, what the seat and the other had before it.
    pub left: Portion,
    pub right: Portion,
}
