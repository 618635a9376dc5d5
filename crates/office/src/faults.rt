//! Why an export failed, and why a question has no answer.

use std::alloc::{AllocError, AllocFailed};
use tables::{EachFault, Lost};
use thiserror::Error;
use units::Memory;

/// Why an export failed. After `NoLanguage` the writer has taken nothing, and after the others a beginning of the text.
#[derive(Clone, Copy, Debug, Drop, PartialEq, Eq, Error)]
pub enum ExportFault {
    /// The language isn't there.
    #[error("no such language")]
    NoLanguage = 1,
    /// A write of the writer failed.
    #[error("the device failed")]
    Device = 2,
    /// A growth was refused.
    #[error("out of memory")]
    Memory = 3,
    /// The disk failed under the tables. Tables in memory never answer it.
    #[error("the disk failed")]
    Disk = 4,
    /// The text has more than 9,000,000,000,000,000 bytes.
    #[error("the text is too long")]
    Long = 5,
    /// The file refused what was asked of it.
    #[error("the file refused")]
    Refused = 6,
}

impl ExportFault {
    ghost use Rattle.std.specs.Prelude.{◌≡◌};
    ghost use Rattle.office.specs.Faults.{export_fault_number};

    /// The fault's number.
    pub fn number(self) -> u8
        ensures { result ≡ export_fault_number self }
    {
        self as u8
    }
}

/// Why an entry's text was not sent on.
#[derive(Clone, Copy, Drop)]
pub(crate) enum SendFault {
    Device,
    Memory,
    Long,
}

impl<T: Drop> From<AllocFailed<T>> for SendFault {
    ghost use Rattle.std.specs.Prelude.{◌≡◌};
    ghost use Rattle.office.specs.declared.faults.SendFault.TheVariants.{Memory};

    ghost from_gives = { λ _ e. e ≡ Memory };

    fn from(_refused: AllocFailed<T>) -> SendFault {
        SendFault::Memory
    }
}

impl From<EachFault<SendFault>> for ExportFault {
    ghost use Rattle.std.specs.Prelude.{◌≡◌};
    ghost use Rattle.office.specs.Faults.{fault_of};

    ghost from_gives = { λ each e. e ≡ fault_of each };

    fn from(fault: EachFault<SendFault>) -> ExportFault {
        match fault {
            EachFault::NoTables(Lost::Memory) => ExportFault::Memory,
            EachFault::NoTables(Lost::Disk) => ExportFault::Disk,
            EachFault::NoTables(Lost::Refused) => ExportFault::Refused,
            EachFault::NoSink(SendFault::Device) => ExportFault::Device,
            EachFault::NoSink(SendFault::Memory) => ExportFault::Memory,
            EachFault::NoSink(SendFault::Long) => ExportFault::Long,
        }
    }
}

/// Why a question about the office has no answer.
#[derive(Clone, Copy, Debug, Drop, PartialEq, Eq, Error)]
pub enum QueryFault {
    /// The language isn't there.
    #[error("no such language")]
    NoLanguage = 1,
    /// The language is there without the unit.
    #[error("no such unit")]
    NoUnit = 2,
    /// A growth was refused.
    #[error("out of memory")]
    Memory = 3,
    /// The disk failed under the tables. Tables in memory never answer it.
    #[error("the disk failed")]
    Disk = 4,
    /// The file refused what was asked of it.
    #[error("the file refused")]
    Refused = 5,
}

impl QueryFault {
    ghost use Rattle.std.specs.Prelude.{◌≡◌};
    ghost use Rattle.office.specs.Faults.{query_fault_number};

    /// The fault's number.
    pub fn number(self) -> u8
        ensures { result ≡ query_fault_number self }
    {
        self as u8
    }
}

impl From<Lost> for QueryFault {
    ghost use Rattle.std.specs.Prelude.{◌≡◌};
    ghost use Rattle.office.specs.Faults.{query_fault_of};

    ghost from_gives = { λ lost e. e ≡ query_fault_of lost };

    fn from(lost: Lost) -> QueryFault {
        match lost {
            Lost::Memory => QueryFault::Memory,
            Lost::Disk => QueryFault::Disk,
            Lost::Refused => QueryFault::Refused,
        }
    }
}

impl From<AllocError> for QueryFault {
    ghost use Rattle.std.specs.Prelude.{◌≡◌};
    ghost use Rattle.office.specs.declared.faults.QueryFault.TheVariants.{Memory};

    ghost from_gives = { λ _ e. e ≡ Memory };

    fn from(_refused: AllocError) -> QueryFault {
        QueryFault::Memory
    }
}

impl From<Memory> for QueryFault {
    ghost use Rattle.std.specs.Prelude.{◌≡◌};
    ghost use Rattle.office.specs.declared.faults.QueryFault.TheVariants.{Memory};

    ghost from_gives = { λ _ e. e ≡ Memory };

    fn from(_refused: Memory) -> QueryFault {
        QueryFault::Memory
    }
}
