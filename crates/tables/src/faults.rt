//! Why a call of tables failed.

use std::alloc::{AllocError, AllocFailed};
use std::fmt::Debug;
use thiserror::Error;
use units::Memory;

/// Why a call of tables failed, and with it a delivery. Of tables that no failure has shut nothing was recorded, and nothing changed; of
/// others an opening may find what the call was to write.
#[derive(Clone, Copy, Debug, Drop, PartialEq, Eq, Error)]
pub enum Lost {
    /// A growth was refused.
    #[error("out of memory")]
    Memory = 1,
    /// The disk failed under the tables, which answer this until they are opened again. Tables in memory never do.
    #[error("the disk failed")]
    Disk = 2,
    /// The file takes no such rows, as a row that is too large, or shows rows that stand for no value, since another program has written
    /// them: the tables run on.
    #[error("the file takes no such rows")]
    Refused = 3,
}

impl Lost {
    ghost use Rattle.std.specs.Prelude.{◌≡◌};
    ghost use Rattle.tables.specs.Faults.{lost_number};

    /// The fault's number.
    pub fn number(self) -> u8
        ensures { result ≡ lost_number self }
    {
        self as u8
    }
}

impl From<AllocError> for Lost {
    ghost use Rattle.std.specs.Prelude.{◌≡◌};
    ghost use Rattle.tables.specs.declared.faults.Lost.TheVariants.{Memory};

    ghost from_gives = { λ _ e. e ≡ Memory };

    fn from(_refused: AllocError) -> Lost {
        Lost::Memory
    }
}

impl<T: Drop> From<AllocFailed<T>> for Lost {
    ghost use Rattle.std.specs.Prelude.{◌≡◌};
    ghost use Rattle.tables.specs.declared.faults.Lost.TheVariants.{Memory};

    ghost from_gives = { λ _ e. e ≡ Memory };

    fn from(_refused: AllocFailed<T>) -> Lost {
        Lost::Memory
    }
}

impl From<Memory> for Lost {
    ghost use Rattle.std.specs.Prelude.{◌≡◌};
    ghost use Rattle.tables.specs.declared.faults.Lost.TheVariants.{Memory};

    ghost from_gives = { λ _ e. e ≡ Memory };

    fn from(_refused: Memory) -> Lost {
        Lost::Memory
    }
}

/// Why not all entries of a language were taken. The sink took those before.
#[derive(Debug, Drop, Error)]
#[error_bound(R: Debug)]
pub enum EachFault<R: Drop> {
    /// The tables failed: number 1.
    #[error("the tables failed: {0}")]
    NoTables(Lost),
    /// The sink refused an entry, and says why: number 2.
    #[error("the sink refused an entry")]
    NoSink(R),
}

impl<R: Drop> EachFault<R> {
    ghost use Rattle.std.specs.Prelude.{◌≡◌};
    ghost use Rattle.tables.specs.Faults.{each_fault_number};

    /// The fault's number.
    pub fn number(&self) -> u8
        ensures { result ≡ each_fault_number self.now }
    {
        match self {
            EachFault::NoTables(_) => 1,
            EachFault::NoSink(_) => 2,
        }
    }
}
