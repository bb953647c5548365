//! Changes that tests commit to keepers, which are tried on the tables first, and what openers keep.
#![tactic(auto)]

mod openers;
mod puts;
mod sound;

pub use openers::{fails_by, fault_of_load, has_one_opener, keep_and_close, keep_and_drop, reads};
pub use puts::{change_to, policy_change};
pub use sound::{answer_to, commit_twice, load};
