//! What a failure of the file comes to: want of memory is `Memory`; what the connection tells of the disk, and a row that stands for no
//! value, are `Disk`; and what is refused otherwise is `Refused`.

ghost use Rattle.std.specs.Prelude.{◌≡◌, ◌≢◌, ◌↔◌, Ok, IfOk, IfErr, IsErrAnd};
ghost use Rattle.tables.specs.declared.faults.Lost.TheVariants as variants;

use sql_columns::RowFault;
use sqlite::{Error, ErrorCode};
use std::alloc::{AllocError, AllocFailed};
use tables::Lost;
use units::Memory;

/// Why a call answers nothing: what it comes to for the caller of tables.
#[derive(Debug, Clone, Copy, Drop, PartialEq, Eq, thiserror::Error)]
#[error("{lost}")]
pub struct Failure {
    pub lost: Lost,
}

impl Failure {
    ghost use Rattle.std.specs.Prelude.{◌≡◌, ◌≢◌, ◌↔◌};
    ghost use Rattle.sqlite.specs.declared.error.Error.TheVariants.{SqliteFailure};
    ghost use Rattle.sqlite.specs.declared.error.ErrorCode.TheVariants.{OutOfMemory};
    ghost use Rattle.tables.specs.Faults.{lost_number};

    /// The number of what it comes to: 1 for memory, 2 for the disk, 3 for a refusal.
    pub fn number(self) -> u8
        ensures { result ≡ lost_number self.lost }
    {
        self.lost.number()
    }

    /// Of a row that isn't read where a change needs it: the file takes no such change, and the connection goes on.
    pub fn refused(self) -> Failure
        ensures memory { (result.lost ≡ variants.Memory) ↔ (self.lost ≡ variants.Memory) }
        ensures disk { result.lost ≢ variants.Disk }
    {
        match self.lost {
            Lost::Memory => Failure { lost: Lost::Memory },
            Lost::Disk | Lost::Refused => Failure {
                lost: Lost::Refused,
            },
        }
    }

    /// Of a column that isn't read: what isn't want of memory is `Disk`, since another program has written the file.
    pub(crate) fn unread(error: Error) -> Failure
        ensures { (result.lost ≡ variants.Memory) ↔ (error ≡ SqliteFailure OutOfMemory) }
    {
        match error {
            Error::SqliteFailure(ErrorCode::OutOfMemory) => Failure { lost: Lost::Memory },
            _ => Failure { lost: Lost::Disk },
        }
    }
}

/// Of a row that a call needs: what isn't read of it is refused, so that `Disk` is told of the connection alone.
pub fn needed<T: Drop>(read: Result<T, Failure>) -> Result<T, Failure>
    ensures value { IfOk result (λ value. read ≡ Ok value) }
    ensures told { IfErr result (λ failure. failure.lost ≢ variants.Disk) }
    ensures failed { IfErr result (λ failure. IsErrAnd read (λ why. (failure.lost ≡ variants.Memory) ↔ (why.lost ≡ variants.Memory))) }
{
    match read {
        Ok(value) => Ok(value),
        Err(failure) => Err(failure.refused()),
    }
}

impl From<AllocError> for Failure {
    ghost use Rattle.std.specs.Prelude.{◌≡◌};
    ghost use Rattle.tables.specs.declared.faults.Lost.TheVariants.{Memory};

    ghost from_gives = { λ _ failure. failure.lost ≡ Memory };

    fn from(_refused: AllocError) -> Failure {
        Failure { lost: Lost::Memory }
    }
}

impl<T: Drop> From<AllocFailed<T>> for Failure {
    ghost use Rattle.std.specs.Prelude.{◌≡◌};
    ghost use Rattle.tables.specs.declared.faults.Lost.TheVariants.{Memory};

    ghost from_gives = { λ _ failure. failure.lost ≡ Memory };

    fn from(_refused: AllocFailed<T>) -> Failure {
        Failure { lost: Lost::Memory }
    }
}

impl From<Memory> for Failure {
    ghost use Rattle.std.specs.Prelude.{◌≡◌};
    ghost use Rattle.tables.specs.declared.faults.Lost.TheVariants.{Memory};

    ghost from_gives = { λ _ failure. failure.lost ≡ Memory };

    fn from(_refused: Memory) -> Failure {
        Failure { lost: Lost::Memory }
    }
}

/// Of a statement's errors want of memory alone is `Memory`, and those that tell of the disk are `Disk`. What is refused otherwise, as a row
/// that is too large, is `Refused`: nothing was written, and the connection goes on.
impl From<Error> for Failure {
    ghost use Rattle.sql_decoding.specs.DiskFailures.{IsOfError};

    ghost from_gives = { IsOfError };

    fn from(error: Error) -> Failure {
        match error {
            Error::SqliteFailure(code) => Failure::told(code),
            _ => Failure {
                lost: Lost::Refused,
            },
        }
    }
}

impl Failure {
    ghost use Rattle.sqlite.specs.declared.error.Error.TheVariants.{SqliteFailure};
    ghost use Rattle.sql_decoding.specs.DiskFailures.{IsOfError};

    /// Of what a statement that failed tells.
    fn told(code: ErrorCode) -> Failure
        ensures { IsOfError (SqliteFailure code) result }
    {
        match code {
            ErrorCode::OutOfMemory => Failure { lost: Lost::Memory },
            ErrorCode::SystemIoFailure => Failure { lost: Lost::Disk },
            ErrorCode::DatabaseCorrupt => Failure { lost: Lost::Disk },
            ErrorCode::DiskFull => Failure { lost: Lost::Disk },
            ErrorCode::Closed => Failure { lost: Lost::Disk },
            _ => Failure {
                lost: Lost::Refused,
            },
        }
    }
}

/// A column that no value is written as is `Disk`: another program has written the file.
impl From<RowFault> for Failure {
    ghost use Rattle.std.specs.Prelude.{◌≡◌, ◌↔◌};
    ghost use Rattle.sql_columns.specs.declared.fault.RowFault.TheVariants as faults;
    ghost use Rattle.tables.specs.declared.faults.Lost.TheVariants.{Memory};

    ghost from_gives = { λ fault failure. (failure.lost ≡ Memory) ↔ (fault ≡ faults.Memory) };

    fn from(fault: RowFault) -> Failure {
        match fault {
            RowFault::Memory => Failure { lost: Lost::Memory },
            RowFault::Malformed => Failure { lost: Lost::Disk },
        }
    }
}
