//! Want of memory.
use std::alloc::{AllocError, AllocFailed};
use thiserror::Error;

/// Want of memory: a growth was refused.
#[derive(Debug, Drop, Clone, Copy, PartialEq, Eq, Error)]
#[error("out of memory")]
pub struct Memory(AllocError);

impl Memory {
    ghost use Rattle.std.specs.Prelude.{◌≡◌};
    ghost use Rattle.units.specs.Numbers.{memory_number};

    /// The fault's number, which is 1: it has one kind.
    pub fn number(self) -> u8
        ensures { result ≡ memory_number self }
    {
        1
    }
}

impl From<AllocError> for Memory {
    ghost use Rattle.std.specs.Prelude.{⊤};

    ghost from_gives = { λ _ e. ⊤ };

    fn from(refused: AllocError) -> Memory {
        Memory(refused)
    }
}

impl<T: Drop> From<AllocFailed<T>> for Memory {
    ghost use Rattle.std.specs.Prelude.{⊤};

    ghost from_gives = { λ _ e. ⊤ };

    fn from(refused: AllocFailed<T>) -> Memory {
        Memory(AllocError::from(refused))
    }
}
