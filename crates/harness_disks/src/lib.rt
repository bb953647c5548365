//! The two disks of a database in memory, for tests: they fail at a chosen call, and a crash leaves a chosen part
//! of what wasn't synced.
#![tactic(auto)]

mod calls;
mod faulty;
mod image;
mod recorded;

pub use calls::{CallKind, DiskFault, Disks, FailedCall, FaultPlan, Part};
pub use faulty::Faulty;
pub use image::{Image, Left};
pub use recorded::Recorded;
