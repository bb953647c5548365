//! Limits of sessions.

/// Sessions and their responses are numbered up to it.
pub(crate) const NUMBER_LIMIT: u64 = 1 << 63;
