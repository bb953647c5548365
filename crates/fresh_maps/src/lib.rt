//! What a machine is told of the tailnet: its map, computed afresh, and the responses and frames
//! that carry it.
#![tactic(auto)]

mod frame;
mod fresh;
mod laws;
mod node_texts;
mod profile;
mod response;
mod view;

pub use frame::{first_frame, frame_bytes};
pub use fresh::{dns_of, fresh_map, visible_of};
pub use laws::maps_of_sound_tables;
pub use node_texts::NodeTexts;
pub use profile::profile_of;
pub use response::first_response;
pub use view::View;
