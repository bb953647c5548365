//! Why a text is no prefix.

/// The first thing that is wrong with a prefix's text.
#[derive(Clone, Copy, Debug, PartialEq, Eq, Drop)]
pub enum PrefixFault {
    /// There is no slash, or no address before the first.
    BadAddress,
    /// What follows the slash is no length in decimal without leading zeros, or above the family's.
    BadLength,
    /// The address has bits set past the length.
    HostBitsSet,
}
