//! What grants a flow.

/// A rule that grants a flow, and one of its destinations by which it does.
#[derive(Clone, Copy, PartialEq, Eq, Debug)]
pub struct Granted {
    /// The rule's number among the rules in force, from 0.
    pub rule: usize,
    /// The destination's number within the rule, from 0.
    pub entry: usize,
}
