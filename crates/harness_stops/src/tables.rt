//! What a table of stops must have, so that a store that calls its disks less doesn't empty it in silence.
use crate::script::Script;
use crate::stopping::{Ending, TriedStop};
use harness_disks::CallKind;

/// All kinds of calls.
pub const KINDS: [CallKind; 5] = [
    CallKind::Length,
    CallKind::Read,
    CallKind::Write,
    CallKind::Truncation,
    CallKind::Sync,
];

/// Whether one of the stops is in each ask, in the open and in the close.
pub fn are_everywhere(stops: &[TriedStop], script: &Script) -> bool {
    let has = |wanted: Ending| stops.iter().any(|stop| stop.ending == wanted);
    (0..script.asks().len()).all(|ask| has(Ending::Stopped(ask)))
        && has(Ending::Unopened)
        && has(Ending::Unclosed)
}
