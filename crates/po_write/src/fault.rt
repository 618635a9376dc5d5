//! Why a text was not written.

ghost use Rattle.std.specs.Prelude.{◌≡◌};
ghost use Rattle.po_write.specs.Numbers.{fault_number};

use thiserror::Error;

/// What stopped a writer.
#[derive(Clone, Copy, Debug, PartialEq, Eq, Drop, Error)]
pub enum WriteFault {
    /// A write of the sink failed.
    #[error("the device failed")]
    Device,
    /// Memory ran out. Writing takes none, so no call of this crate answers it.
    #[error("out of memory")]
    Memory,
    /// An earlier entry was not written whole.
    #[error("the writer has failed before")]
    Failed,
}

impl WriteFault {
    /// The number that programs print.
    pub fn number(self) -> u8
        ensures { result ≡ fault_number self }
    {
        match self {
            WriteFault::Device => 1,
            WriteFault::Memory => 2,
            WriteFault::Failed => 3,
        }
    }
}
