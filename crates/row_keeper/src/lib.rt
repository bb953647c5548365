//! Where the tables of a tailnet are kept, and a keeper in memory.
#![tactic(auto)]

mod keeper;
mod memory_keeper;
mod memory_opener;
mod opener;

pub use keeper::{Keeper, LoadFault};
pub use memory_keeper::MemoryKeeper;
pub use memory_opener::MemoryOpener;
pub use opener::Opener;
