//! The outside: what is read, written, asked and drawn, by traits that say what they can tell.
#![tactic(auto)]

mod clock;
mod door;
mod entropy;
mod faults;
mod files;
mod host_clock;
mod host_entropy;
mod host_files;
mod link;
mod pause;
mod read_source;
mod sink;
mod source;
mod write_sink;

pub use clock::{Clock, MemoryClock};
pub use door::{Door, Doors, NoDoor, NoDoors};
pub use entropy::{Entropy, MemoryEntropy};
pub use faults::{EdgeFault, Failed, Faults};
pub use files::{FileFault, Files, MemoryFiles, NamedBytes};
pub use host_clock::HostClock;
pub use host_entropy::HostEntropy;
pub use host_files::HostFiles;
pub use link::{Link, NoLink};
pub use pause::{NoPause, Pause};
pub use read_source::ReadSource;
pub use sink::{MemorySink, Sink};
pub use source::{MemorySource, Source};
pub use write_sink::WriteSink;
