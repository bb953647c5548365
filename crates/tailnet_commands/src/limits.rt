//! The limits of the program's files.

/// The most bytes that a settings file or a policy file may have: 1 MiB.
pub const FILE_LIMIT: usize = 1_048_576;
