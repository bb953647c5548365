//! The entry of a test that fails.

/// An entry of a policy's tests that fails, by its places in the lists, counted from 0.
#[derive(Clone, Copy, Debug, PartialEq, Eq, Drop)]
pub struct TestFailure {
    /// The place of the test.
    pub test: usize,
    /// Whether the entry stands in `accept`, and not in `deny`.
    pub accept: bool,
    /// The place of the entry there.
    pub index: usize,
}
