//! What new starts find behind a call that failed once, and behind a start that stopped itself, for tests.
#![tactic(auto)]

mod failing_once;
mod pages;
mod reopening;

pub use failing_once::{Hiccup, HiccupEnd, hiccups};
pub use pages::small_pages;
pub use reopening::{Chosen, SecondStops, second_stops};
