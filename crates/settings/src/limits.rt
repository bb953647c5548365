//! The limits of a tailnet's settings.

/// Bytes of a domain, as a name in the DNS has (RFC 1035 section 2.3.4, without the length bytes).
pub const DOMAIN_LIMIT: usize = 253;

/// Bytes of the base domain, which leave room for a machine's label before it.
pub const BASE_DOMAIN_LIMIT: usize = 180;

/// Resolvers of all names, and resolvers of one route.
pub const RESOLVER_LIMIT: usize = 16;

/// Routes of DNS.
pub const DNS_ROUTE_LIMIT: usize = 64;

/// Search domains.
pub const SEARCH_LIMIT: usize = 16;

/// The longest time, in seconds.
pub const SECONDS_LIMIT: u32 = 1_000_000_000;

/// The greatest length of the IPv4 prefix, which leaves two addresses between its ends.
pub const PREFIX_V4_LEN_LIMIT: u8 = 30;

/// The greatest length of the IPv6 prefix.
pub const PREFIX_V6_LEN_LIMIT: u8 = 126;

/// Threads that serve, one for each connection at once.
pub const WORKER_LIMIT: u32 = 1024;
