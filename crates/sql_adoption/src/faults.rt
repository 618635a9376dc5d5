//! Why an office's tables can't be had.

use sql_decoding::Failure;
use sql_streams::WalkFault;
use sqlite::Error;
use std::alloc::AllocError;
use tables::Lost;
use units::Memory;

/// Why the tables of a database aren't an office's with its book.
#[derive(Clone, Copy, Debug, Drop, PartialEq, Eq, thiserror::Error)]
pub enum Mismatch {
    /// The tables aren't those of an office.
    #[error("its tables are others")]
    OtherTables,
    /// The policy's row tells another form of the tables, or none.
    #[error("its tables have another form")]
    OtherForm,
    /// A row stands for no value or is of a domain that isn't there, a template for no valid catalogue, or what is recorded is no request's
    /// content.
    #[error("a row stands for no value")]
    UnreadRow,
    /// A kept sum of votes, or a language's kept counts, aren't what counting the rows gives.
    #[error("a kept sum or count isn't that of its rows")]
    OtherFigures,
    /// The rows break the rules of an office with its book.
    #[error("its rows break the rules of an office")]
    BrokenRules,
}

/// Why a connection doesn't become tables. Its rows are as before.
#[derive(Clone, Copy, Debug, Drop, PartialEq, Eq, thiserror::Error)]
pub enum OpenFault {
    /// A growth was refused.
    #[error("out of memory")]
    Memory,
    /// The disk failed, or an earlier failure has shut the connection.
    #[error("the disk failed")]
    Disk,
    /// The database isn't an office's.
    #[error("the database isn't an office's: {0}")]
    Foreign(Mismatch),
    /// Where an office is to be made, one is there already: the database has a table `policy`.
    #[error("an office is there already")]
    Exists,
    /// The database refused a statement, as one whose row is too large.
    #[error("the database refused a statement")]
    Refused,
}

impl OpenFault {
    ghost use Rattle.std.specs.Prelude.{◌≡◌};
    ghost use Rattle.sql_adoption.specs.Faults.{open_fault_number};

    /// The fault's number: 1 Memory, 2 Disk, 3 Foreign, 4 Exists, 5 Refused.
    pub fn number(self) -> u8
        ensures { result ≡ open_fault_number self }
    {
        match self {
            OpenFault::Memory => 1,
            OpenFault::Disk => 2,
            OpenFault::Foreign(_) => 3,
            OpenFault::Exists => 4,
            OpenFault::Refused => 5,
        }
    }
}

impl From<AllocError> for OpenFault {
    ghost use Rattle.std.specs.Prelude.{◌≡◌};
    ghost use Rattle.sql_adoption.specs.declared.faults.OpenFault.TheVariants.{Memory};

    ghost from_gives = { λ _ fault. fault ≡ Memory };

    fn from(_refused: AllocError) -> OpenFault {
        OpenFault::Memory
    }
}

impl From<Memory> for OpenFault {
    ghost use Rattle.std.specs.Prelude.{◌≡◌};
    ghost use Rattle.sql_adoption.specs.declared.faults.OpenFault.TheVariants as variants;

    ghost from_gives = { λ _ fault. fault ≡ variants.Memory };

    fn from(_refused: Memory) -> OpenFault {
        OpenFault::Memory
    }
}

impl From<Failure> for OpenFault {
    ghost use Rattle.std.specs.Prelude.{◌≡◌};
    ghost use Rattle.sql_adoption.specs.Faults.{fault_of};

    ghost from_gives = { λ failure fault. fault ≡ fault_of failure.lost };

    fn from(failure: Failure) -> OpenFault {
        match failure.lost {
            Lost::Memory => OpenFault::Memory,
            Lost::Disk => OpenFault::Disk,
            Lost::Refused => OpenFault::Refused,
        }
    }
}

/// Of a statement's errors want of memory alone is `Memory`, those that tell of the disk are `Disk`, and all others `Refused`.
impl From<Error> for OpenFault {
    ghost use Rattle.sql_adoption.specs.Reading.{IsOfStatement};

    ghost from_gives = { IsOfStatement };

    fn from(error: Error) -> OpenFault {
        OpenFault::from(Failure::from(error))
    }
}

/// Of a walk that was cut short: why its query failed, or why a row wasn't read.
impl From<WalkFault<Failure>> for OpenFault {
    ghost use Rattle.sql_adoption.specs.Reading.{IsOfWalk};

    ghost from_gives = { IsOfWalk };

    fn from(fault: WalkFault<Failure>) -> OpenFault {
        match fault {
            WalkFault::NoRows(error) => OpenFault::from(error),
            WalkFault::NoSink(failure) => OpenFault::unread(failure),
        }
    }
}

impl OpenFault {
    ghost use Rattle.std.specs.Prelude.{◌≡◌};
    ghost use Rattle.sql_adoption.specs.Reading.{unread};

    /// Of rows that are at hand, and were not read.
    pub(crate) fn unread(failure: Failure) -> OpenFault
        ensures { result ≡ unread failure.lost }
    {
        match failure.lost {
            Lost::Memory => OpenFault::Memory,
            Lost::Disk => OpenFault::Foreign(Mismatch::UnreadRow),
            Lost::Refused => OpenFault::Refused,
        }
    }
}
