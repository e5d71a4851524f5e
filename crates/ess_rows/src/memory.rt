ghost use Rattle.std.specs.Prelude.{◌≡◌};
ghost use Rattle.ess_rows.specs.declared.memory.NoMemory.{NoMemory};

use std::alloc::{AllocError, AllocFailed};

/// The error of a call that can fail for want of memory alone.
#[derive(Clone, Copy, Debug, PartialEq, Eq)]
pub struct NoMemory;

impl From<AllocError> for NoMemory {
    ghost from_gives = { λ _ e. e ≡ record {} };

    fn from(_: AllocError) -> NoMemory {
        NoMemory
    }
}

/// What there was no room for is dropped.
impl<T: Drop> From<AllocFailed<T>> for NoMemory {
    ghost from_gives = { λ _ e. e ≡ record {} };

    fn from(_: AllocFailed<T>) -> NoMemory {
        NoMemory
    }
}
