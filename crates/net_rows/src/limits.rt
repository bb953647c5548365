//! How much the tables hold.

/// The greatest counter; ids are below it.
pub const COUNTER_LIMIT: u32 = 2_147_483_647;

/// Rows of each kind.
pub const USER_LIMIT: usize = 256;

pub const KEY_LIMIT: usize = 1024;

pub const PENDING_LIMIT: usize = 256;

pub const MACHINE_LIMIT: usize = 1024;

/// Extra DNS records.
pub const EXTRA_LIMIT: usize = 256;

/// Tags of a machine.
pub const TAG_LIMIT: usize = 32;
