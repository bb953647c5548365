//! The tests that a policy brings with it: which entry fails first over the live machines of a tailnet,
//! and the phantoms that stand for machines to come.
#![tactic(auto)]

mod accepting;
mod denying;
mod ends;
mod failure;
mod laws;
mod opening;
mod pairs;
mod side;
mod testing;

pub use failure::TestFailure;
pub use laws::{an_accept_is_by_phantoms, passed_tests_last, phantoms_stand_for_machines};
pub use testing::{first_failure, tested};
