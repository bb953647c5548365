//! What a crash leaves of the histories at a desk. No function here does anything: each states a law.
#![tactic(auto)]

mod laws;

pub use laws::{
    acknowledged_asks_survive, histories_survive, polls_are_kept, safe_desks_leave_their_rows,
};
