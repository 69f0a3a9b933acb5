//! Want of memory, the one answer that needs no cause.
ghost use Rattle.std.specs.Prelude.{◌≡◌};
ghost use Rattle.tss_base.specs.Errors.{no_memory};

use std::alloc::{AllocError, AllocFailed};

/// Memory ran out. It is merged with no other answer.
#[derive(Clone, Copy, Debug, PartialEq, Eq)]
pub struct NoMemory;

impl From<AllocError> for NoMemory {
    ghost from_gives = { λ _ e. e ≡ no_memory };

    fn from(_e: AllocError) -> NoMemory {
        NoMemory
    }
}

impl<T: Drop> From<AllocFailed<T>> for NoMemory {
    ghost from_gives = { λ _ e. e ≡ no_memory };

    fn from(_e: AllocFailed<T>) -> NoMemory {
        NoMemory
    }
}
