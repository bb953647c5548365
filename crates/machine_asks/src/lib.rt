//! What the machines of a tailnet ask: how they register, what a machine that is registered tells of
//! itself, its map and the polls by which its client is kept up, and which ask is decided how; what
//! machines are answered; and the first user and key.
#![tactic(auto)]

mod answer;
mod ask;
mod asks;
mod attaching;
mod by_key;
mod detaching;
mod draining;
mod ids;
mod laws;
mod limits;
mod logout;
mod map_ask;
mod register_ask;
mod seed_ask;
mod told;
mod told_laws;
mod update_ask;
mod waiting;
mod who_asks;

pub use answer::MachineAnswer;
pub use ask::MachineAsk;
pub use asks::{decide, draws};
pub use attaching::{AttachDecision, attach};
pub use detaching::detach;
pub use draining::{DrainDecision, drain};
pub use laws::{
    machine_decisions_are_sound, repeats_are_answered, repeats_change_nothing, seeds_are_sound,
};
pub use map_ask::one_map;
pub use seed_ask::seed;
pub use told_laws::told_rows_keep_the_rest;
pub use update_ask::update;
