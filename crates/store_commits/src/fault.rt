//! Why the store did nothing.
ghost use Rattle.std.specs.Prelude.{◌≡◌};
ghost use Rattle.store_commits.specs.declared.fault.Fault.TheVariants.{NoMemory};
ghost use Rattle.store_commits.specs.Faults.{meaning_of};

use sqlite::{Error, ErrorCode};
use std::alloc::{AllocError, AllocFailed};
use tail_base::NoMemory;

/// Why the store did nothing.
#[derive(Clone, Copy, Debug, PartialEq, Eq, Drop)]
pub enum Fault {
    /// A statement failed.
    Failed,
    /// Memory was refused.
    NoMemory,
}

impl From<Error> for Fault {
    ghost from_gives = { λ error fault. fault ≡ meaning_of error };

    fn from(error: Error) -> Self {
        match error {
            Error::SqliteFailure(ErrorCode::OutOfMemory) => Fault::NoMemory,
            _ => Fault::Failed,
        }
    }
}

impl From<NoMemory> for Fault {
    ghost from_gives = { λ _ fault. fault ≡ NoMemory };

    fn from(_: NoMemory) -> Self {
        Fault::NoMemory
    }
}

impl From<AllocError> for Fault {
    ghost from_gives = { λ _ fault. fault ≡ NoMemory };

    fn from(_: AllocError) -> Self {
        Fault::NoMemory
    }
}

impl<T: Drop> From<AllocFailed<T>> for Fault {
    ghost from_gives = { λ _ fault. fault ≡ NoMemory };

    fn from(_: AllocFailed<T>) -> Self {
        Fault::NoMemory
    }
}
