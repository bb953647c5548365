//! How long a connection may hold a worker for nothing.
use std::io::{Error, ErrorKind};

/// The limits of connections, in milliseconds and bytes.
#[derive(Clone, Copy, Debug, PartialEq, Eq, Drop)]
pub struct TcpLimits {
    /// Until the first byte, since the connection came or the last write.
    pub idle: u64,
    /// Until the last byte that is waited for, since the first one.
    pub request: u64,
    /// Until a piece that is written is taken.
    pub write: u64,
    /// How long input is read on when a connection is given back at which nothing failed, so that the last
    /// answer arrives.
    pub linger: u64,
    /// How many bytes are read on then.
    pub linger_bytes: usize,
    /// Between two tries to accept.
    pub retry: u64,
    /// How often accepting is tried before listening counts as over.
    pub tries: u32,
}

/// The limits of a server. None of the first three is longer than the system's queue of 128 connections has
/// room for where ten come in a second. Accepting is tried for a minute.
pub const TCP_LIMITS: TcpLimits = TcpLimits {
    idle: 2_000,
    request: 10_000,
    write: 10_000,
    linger: 2_000,
    linger_bytes: 1 << 20,
    retry: 100,
    tries: 600,
};

/// How often a call that a signal broke off is begun again.
pub(crate) const INTERRUPTIONS: u32 = 1_000;

/// Whether a signal broke the call off.
pub(crate) fn is_interrupted(error: &Error) -> bool {
    error.kind() == ErrorKind::Interrupted
}
