//! The defaults of a server's settings.

/// No limit of connections.
pub const CONNECTIONS_DEFAULT: u32 = 0;

/// A database that ends with the server.
pub const DATABASE_DEFAULT: &str = ":memory:";

/// The loopback address.
pub const LISTEN_DEFAULT: &str = "127.0.0.1:8080";

pub const POLL_TURNS_DEFAULT: u32 = 1000;

pub const REQUESTS_DEFAULT: u32 = 100_000;
