//! Why there is no sender of some requests.

use std::alloc::AllocError;
use thiserror::Error;

/// Why there is no sender of some requests.
#[derive(Clone, Copy, Debug, Drop, Error)]
pub enum SenderFault {
    /// A number stands twice.
    #[error("a number stands twice")]
    Twice = 1,
    /// A growth was refused.
    #[error("out of memory")]
    Memory = 2,
}

impl SenderFault {
    ghost use Rattle.std.specs.Prelude.{◌≡◌};
    ghost use Rattle.sender.specs.Faults.{fault_number};

    /// 1 Twice, 2 Memory.
    pub fn number(self) -> u8
        ensures { result ≡ fault_number self }
    {
        self as u8
    }
}

impl From<AllocError> for SenderFault {
    ghost use Rattle.std.specs.Prelude.{◌≡◌};
    ghost use Rattle.sender.specs.declared.fault.SenderFault.TheVariants.{Memory};

    ghost from_gives = { λ _ e. e ≡ Memory };

    fn from(_refused: AllocError) -> SenderFault {
        SenderFault::Memory
    }
}
