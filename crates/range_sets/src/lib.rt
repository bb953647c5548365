//! Sets of addresses, and the prefixes that they result in.
#![tactic(auto)]

mod gaps;
mod joins;
mod laws;
mod meeting;
mod prefix_spans;
mod range_set;
mod span;
mod walk;

pub use laws::canonical_law;
pub use range_set::RangeSet;
