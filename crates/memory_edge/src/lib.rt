//! The outside in memory, for programs that are run on given bytes: doors, a link, and a pause.
#![tactic(auto)]

mod door;
mod doors;
mod link;
mod pause;

pub use door::MemoryDoor;
pub use doors::{AskedOpening, DoorPlan, MemoryDoors};
pub use link::MemoryLink;
pub use pause::MemoryPause;
