//! A limit that reading a policy and keeping one share.

/// How many bytes the text of a policy may have: 256 KiB.
pub const POLICY_LIMIT: usize = 262_144;
