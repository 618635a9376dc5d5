//! Why a connection is given up.

use byte_streams::SinkFault;
use http_messages::ReadFault;
use thiserror::Error;

/// Why a connection was given up. The writer has taken a beginning of the answers.
#[derive(Clone, Copy, Debug, Drop, PartialEq, Eq, Error)]
pub enum ServeFault {
    /// A read failed.
    #[error("a read failed")]
    Read = 1,
    /// A write failed.
    #[error("a write failed")]
    Write = 2,
    /// A growth was refused: there is no room for a message, or for an export whose head was written.
    #[error("out of memory")]
    Memory = 3,
    /// The disk failed under an export whose head was written.
    #[error("the disk failed")]
    Disk = 4,
}

impl ServeFault {
    ghost use Rattle.std.specs.Prelude.{◌≡◌};
    ghost use Rattle.http_api.specs.Faults.{serve_fault_number};

    /// The fault's number.
    pub fn number(self) -> u8
        ensures { result ≡ serve_fault_number self }
    {
        self as u8
    }
}

impl From<ReadFault> for ServeFault {
    ghost use Rattle.std.specs.Prelude.{◌≡◌};
    ghost use Rattle.http_api.specs.Faults.{fault_of};

    ghost from_gives = { λ cause e. e ≡ fault_of cause };

    fn from(cause: ReadFault) -> ServeFault {
        match cause {
            ReadFault::Source => ServeFault::Read,
            ReadFault::Memory => ServeFault::Memory,
        }
    }
}

impl From<SinkFault> for ServeFault {
    ghost use Rattle.std.specs.Prelude.{◌≡◌};
    ghost use Rattle.http_api.specs.declared.faults.ServeFault.TheVariants.{Write};

    ghost from_gives = { λ _ e. e ≡ Write };

    fn from(_fault: SinkFault) -> ServeFault {
        ServeFault::Write
    }
}
