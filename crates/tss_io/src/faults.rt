//! What can go wrong with a source or a sink.
ghost use Rattle.std.specs.Prelude.{◌≡◌};
ghost use Rattle.tss_io.specs.declared.faults.ReadFault.TheVariants as faults;

use std::alloc::AllocError;
use tss_base::NoMemory;

/// A call of a source or a sink failed, and its count of faults rose.
#[derive(Clone, Copy, Debug, PartialEq, Eq)]
pub struct Failed;

/// Why a source wasn't read to its end.
#[derive(Clone, Copy, Debug, PartialEq, Eq)]
pub enum ReadFault {
    /// A read failed.
    Failed,
    /// More bytes were left than the limit.
    TooLong,
    /// Memory ran out.
    NoMemory,
}

impl From<Failed> for ReadFault {
    ghost from_gives = { λ _ e. e ≡ faults.Failed };

    fn from(_e: Failed) -> ReadFault {
        ReadFault::Failed
    }
}

impl From<NoMemory> for ReadFault {
    ghost from_gives = { λ _ e. e ≡ faults.NoMemory };

    fn from(_e: NoMemory) -> ReadFault {
        ReadFault::NoMemory
    }
}

impl From<AllocError> for ReadFault {
    ghost from_gives = { λ _ e. e ≡ faults.NoMemory };

    fn from(_e: AllocError) -> ReadFault {
        ReadFault::NoMemory
    }
}
