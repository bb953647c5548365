//! The outside over TCP: doors at a listener of the system, the halves of their connections, the link
//! to a server, and the pause that threads share. What comes and goes isn't told; nothing is proved of time.
#![tactic(auto)]

mod door;
mod doors;
mod limits;
mod link;
mod patience;
mod pause;
mod sink;
mod source;

pub use door::TcpDoor;
pub use doors::TcpDoors;
pub use limits::TcpLimits;
pub use link::TcpLink;
pub use pause::HostPause;
pub use sink::TcpSink;
pub use source::TcpSource;
