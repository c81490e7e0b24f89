//! Out of memory.
ghost use Rattle.std.specs.Prelude.{◌≡◌};

use std::alloc::{AllocError, AllocFailed};

/// The error of a call that ran out of memory. It is returned if an allocation fails. No contract
/// says that it is returned only then.
#[derive(Clone, Copy, Debug, PartialEq, Eq)]
pub struct Memory;

impl From<AllocError> for Memory {
    ghost from_gives = { λ _ memory. memory ≡ record {} };

    fn from(_refused: AllocError) -> Memory {
        Memory
    }
}

/// From a failed allocation that returns the value that was to be stored. The value is dropped.
impl<T: Drop> From<AllocFailed<T>> for Memory {
    ghost from_gives = { λ _ memory. memory ≡ record {} };

    fn from(_refused: AllocFailed<T>) -> Memory {
        Memory
    }
}
