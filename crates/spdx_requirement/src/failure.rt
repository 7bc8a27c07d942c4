// Why a call that takes memory gave nothing.

use std::alloc::{AllocError, AllocFailed};

/// Why a call that takes memory gave nothing.
#[derive(Debug, PartialEq, Eq, Drop)]
pub enum Failure<E> {
    /// The call refuses what it was given.
    Refused(E),
    /// Memory was refused.
    Memory(AllocError),
}

impl<E> From<AllocError> for Failure<E> {
    ghost use Rattle.std.specs.Prelude.{◌≡◌};
    ghost use Rattle.spdx_requirement.specs.declared.failure.Failure.TheVariants.{Memory};

    ghost from_gives = { λ e f. f ≡ Memory e };

    fn from(error: AllocError) -> Failure<E> {
        Failure::Memory(error)
    }
}

impl<T: Drop, E> From<AllocFailed<T>> for Failure<E> {
    ghost use Rattle.std.specs.Prelude.{◌≡◌, alloc_error};
    ghost use Rattle.spdx_requirement.specs.declared.failure.Failure.TheVariants.{Memory};

    ghost from_gives = { λ _ f. f ≡ Memory alloc_error };

    fn from(_failed: AllocFailed<T>) -> Failure<E> {
        Failure::Memory(AllocError)
    }
}
