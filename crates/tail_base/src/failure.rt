//! Why a call gave no value.
use crate::memory::NoMemory;
use std::alloc::AllocError;

/// Why a call that reads or decides gave no value.
#[derive(Clone, Copy, Debug, PartialEq, Eq, Drop)]
pub enum Failure<F> {
    /// Out of memory, which says nothing of what was read.
    NoMemory,
    /// What is wrong with what was read.
    Fault(F),
}

impl<F: Drop> From<AllocError> for Failure<F> {
    ghost use Rattle.std.specs.Prelude.{◌≡◌};
    ghost use Rattle.tail_base.specs.declared.failure.Failure.TheVariants.{NoMemory};

    ghost from_gives = { λ _ e. e ≡ NoMemory };

    fn from(_: AllocError) -> Self {
        Failure::NoMemory
    }
}

impl<F: Drop> From<NoMemory> for Failure<F> {
    ghost use Rattle.std.specs.Prelude.{◌≡◌};
    ghost use Rattle.tail_base.specs.declared.failure.Failure.TheVariants.{NoMemory};

    ghost from_gives = { λ _ e. e ≡ NoMemory };

    fn from(_: NoMemory) -> Self {
        Failure::NoMemory
    }
}
