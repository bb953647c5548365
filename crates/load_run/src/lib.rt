//! The command `load`: a large input made from two numbers, run through the program.
#![tactic(auto)]

mod counts;
mod draws;
mod given;
mod heard;
mod keeper;
mod known;
mod load;
mod messages;
mod outside;
mod report;
mod run;
mod task;
mod watched;

pub use counts::Counts;
pub use heard::Heard;
pub use keeper::SureKeeper;
pub use known::{MachineMemory, Roll};
pub use load::load_command;
pub use task::{LoadPlan, PolicyChoice, Task, TaskKind};
pub use watched::WatchedDesk;
