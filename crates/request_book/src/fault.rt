//! Why a text gave no request.
use std::alloc::{AllocError, AllocFailed};
use thiserror::Error;

/// Why a text gave no request.
#[derive(Clone, Copy, Debug, Drop, Error)]
pub enum RequestFault {
    /// No request has this text.
    #[error("not a request")]
    Malformed,
    /// A growth was refused.
    #[error("out of memory")]
    Memory,
}

impl From<AllocError> for RequestFault {
    ghost use Rattle.std.specs.Prelude.{◌≡◌};
    ghost use Rattle.request_book.specs.declared.fault.RequestFault.TheVariants.{Memory};

    ghost from_gives = { λ _ e. e ≡ Memory };

    fn from(_refused: AllocError) -> RequestFault {
        RequestFault::Memory
    }
}

impl<T: Drop> From<AllocFailed<T>> for RequestFault {
    ghost use Rattle.std.specs.Prelude.{◌≡◌};
    ghost use Rattle.request_book.specs.declared.fault.RequestFault.TheVariants.{Memory};

    ghost from_gives = { λ _ e. e ≡ Memory };

    fn from(_refused: AllocFailed<T>) -> RequestFault {
        RequestFault::Memory
    }
}

impl RequestFault {
    ghost use Rattle.std.specs.Prelude.{◌≡◌};
    ghost use Rattle.request_book.specs.Faults.{fault_number};

    /// 1 Malformed, 2 Memory.
    pub fn number(self) -> u8
        ensures { result ≡ fault_number self }
    {
        match self {
            RequestFault::Malformed => 1,
            RequestFault::Memory => 2,
        }
    }
}
