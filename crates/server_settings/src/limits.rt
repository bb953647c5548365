//! The limits of a server's settings.

/// Bytes of the server's URL, and of the token.
pub const VISIBLE_LIMIT: usize = 255;

/// Connections, turns of a poll, and requests of a connection.
pub const COUNT_LIMIT: u32 = 1_000_000_000;
