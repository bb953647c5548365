//! What a report says of two machines.

/// That a live machine reaches another one, and by which rule first.
#[derive(Clone, Copy, PartialEq, Eq, Debug)]
pub struct Reach {
    /// The id of the machine that sends.
    pub from: u32,
    /// The id of the machine to which it sends, or through which.
    pub to: u32,
    /// The rule's number among the rules in force, from 0.
    pub rule: usize,
}
