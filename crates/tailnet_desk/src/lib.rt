//! The Tailnet machine: what an event does to a tailnet, legal histories, and the desk that runs it.
#![tactic(auto)]

mod ask;
mod deciding;
mod desk;
mod entry;
mod kept;
mod laws;
mod opening;
mod polls;
mod reply;
mod sessions;
mod settling;
mod turns;

pub use ask::Ask;
pub use desk::{Desk, OpenFault};
pub use entry::{Entry, Event};
pub use laws::{
    decisions_are_sound, decisions_keep_the_policy, desks_stay_safe, legal_histories_keep_rules,
    legal_histories_keep_the_policy, polls_leave_tables, turns_are_a_history,
};
pub use reply::{Answer, Drained, Loss, Reply};
pub use turns::Turns;
