//! Why a column gave no value.
use std::alloc::{AllocError, AllocFailed};
use thiserror::Error;

/// Why a column gave no value.
#[derive(Clone, Copy, Debug, Drop, Error)]
pub enum RowFault {
    /// The column stands for no value.
    #[error("not a column of the office")]
    Malformed,
    /// A growth was refused.
    #[error("out of memory")]
    Memory,
}

impl From<AllocError> for RowFault {
    ghost use Rattle.std.specs.Prelude.{◌≡◌};
    ghost use Rattle.sql_columns.specs.declared.fault.RowFault.TheVariants.{Memory};

    ghost from_gives = { λ _ e. e ≡ Memory };

    fn from(_refused: AllocError) -> RowFault {
        RowFault::Memory
    }
}

impl<T: Drop> From<AllocFailed<T>> for RowFault {
    ghost use Rattle.std.specs.Prelude.{◌≡◌};
    ghost use Rattle.sql_columns.specs.declared.fault.RowFault.TheVariants.{Memory};

    ghost from_gives = { λ _ e. e ≡ Memory };

    fn from(_refused: AllocFailed<T>) -> RowFault {
        RowFault::Memory
    }
}

impl RowFault {
    ghost use Rattle.std.specs.Prelude.{◌≡◌};
    ghost use Rattle.sql_columns.specs.Faults.{fault_number};

    /// 1 Malformed, 2 Memory.
    pub fn number(self) -> u8
        ensures { result ≡ fault_number self }
    {
        match self {
            RowFault::Malformed => 1,
            RowFault::Memory => 2,
        }
    }
}
