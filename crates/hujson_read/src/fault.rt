ghost use Rattle.std.specs.Prelude.{◌≡◌};
ghost use Rattle.hujson_read.specs.declared.fault.HujsonFault.TheVariants.{NoMemory};

use std::alloc::{AllocError, AllocFailed};

/// Why a text has no standard text. The number is the offset of the fault's first byte.
#[derive(Clone, Copy, Debug, PartialEq, Eq)]
pub enum HujsonFault {
    /// A `/*` has no `*/` after it.
    OpenComment(u32),
    /// No value stands before the comma: it is the first significant byte, or follows a `[`, `{`,
    /// `,` or `:`.
    StrayComma(u32),
    /// A string has no end.
    OpenString(u32),
    /// Memory ran out, which says nothing of the text.
    NoMemory,
}

impl From<AllocError> for HujsonFault {
    ghost from_gives = { λ _ e. e ≡ NoMemory };

    fn from(_: AllocError) -> Self {
        HujsonFault::NoMemory
    }
}

impl<T: Drop> From<AllocFailed<T>> for HujsonFault {
    ghost from_gives = { λ _ e. e ≡ NoMemory };

    fn from(_: AllocFailed<T>) -> Self {
        HujsonFault::NoMemory
    }
}
