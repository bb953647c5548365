//! The defaults of a tailnet's settings. Resolvers and routes have none, the search domains are the base domain
//! alone, and the prefixes are all addresses of tailnets.

/// Half an hour.
pub const EPHEMERAL_SECONDS_DEFAULT: u32 = 1800;

/// Keys never expire.
pub const KEY_SECONDS_DEFAULT: u32 = 0;

/// An hour.
pub const PENDING_SECONDS_DEFAULT: u32 = 3600;

/// MagicDNS answers.
pub const PROXIED_DEFAULT: bool = true;

/// Polls that wait leave one of these.
pub const WORKERS_DEFAULT: u32 = 4;
