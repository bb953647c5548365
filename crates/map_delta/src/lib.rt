//! The responses that bring a client's map to a newer one, and the map that a client has after them.
#![tactic(auto)]

mod change;
mod deltas;
mod folding;
mod laws;
mod patch;
mod patching;
mod puts;
mod response;
mod whole;

pub use deltas::delta;
pub use folding::fold;
pub use laws::{
    changes_stand_at_listed_ids, deltas_bring_new_maps, first_responses_are_whole_maps,
    greetings_change_nothing, sessions_have_their_maps,
};
pub use response::greeting;
pub use whole::responses_for;
