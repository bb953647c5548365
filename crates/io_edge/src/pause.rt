//! Waiting until there is something new.

/// Where threads wait until another has noted something. A call that returns has changed nothing
/// that a caller could tell, and no more is claimed.
pub trait Pause {
    /// How much has been noted so far.
    fn mark(&self) -> u64;

    /// Notes that there is something new.
    fn note(&self);

    /// Waits until more has been noted than `seen`, or for a while, and says how much has.
    fn wait(&self, seen: u64) -> u64;
}

/// The pause of a program with nothing to wait for: it notes nothing, and returns at once.
#[derive(Drop)]
pub struct NoPause;

impl Pause for NoPause {
    fn mark(&self) -> u64 {
        0
    }

    fn note(&self) {}

    fn wait(&self, seen: u64) -> u64 {
        seen
    }
}
