//! What the statuses of the program say of their causes: laws of the top call, and nothing that is done.
#![tactic(auto)]

mod laws;

pub use laws::{answers_name_their_faults, commands_complete, statuses_have_causes};
