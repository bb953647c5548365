//! How much a machine may send.

/// Endpoints of a machine.
pub const ENDPOINT_LIMIT: usize = 32;

/// Routes that a machine advertises.
pub const ROUTE_LIMIT: usize = 32;

/// Tags that a registration asks for.
pub const ASKED_TAG_LIMIT: usize = 16;

/// Bytes of a host name.
pub const HOST_LIMIT: usize = 255;

/// The greatest number of a DERP region.
pub const REGION_LIMIT: u64 = 65535;
