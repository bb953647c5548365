//! A worker, and what is said of it when it has stopped.
use row_keeper::Keeper;
use session_hub::Seat;

/// The limits under which workers serve.
#[derive(Clone, Copy, Debug, PartialEq, Eq, Drop)]
pub struct WorkLimits {
    /// How many connections a worker takes; 0 is no limit.
    pub connections: u32,
    /// How many requests one connection is served.
    pub requests: u32,
    /// How many further drains a poll has that may wait.
    pub more: u32,
}

/// Why a worker stopped.
#[derive(Clone, Copy, Debug, PartialEq, Eq, Drop)]
pub enum Stop {
    /// No connection will come.
    Over,
    /// It took as many connections as it may.
    Full,
    /// Its door failed.
    DoorFault,
}

/// What is said of a worker when it has stopped.
#[derive(Clone, Copy, Debug, PartialEq, Eq, Drop)]
pub struct Report {
    pub stop: Stop,
    /// Whether one of its connections ended because memory was refused.
    pub starved: bool,
}

/// What serves the connections of one door, one after another.
pub struct Worker<K: Keeper, D, C, N> {
    pub seat: Seat<K>,
    pub door: D,
    pub clock: C,
    pub entropy: N,
    /// What was said of it when it stopped; before that it says nothing.
    pub report: Report,
}
