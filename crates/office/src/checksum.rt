//! The length and the digest of a text that is sent piece by piece.

ghost use Rattle.std.specs.Prelude.{[], ◌++◌, List, ℕ, OnOk, IfErr, ◌≡◌, ◌<◌, length};
ghost use Rattle.units.specs.Limits.{export_limit};
ghost use Rattle.office.specs.Checksums.{IsChecksum};
ghost use Rattle.office.specs.declared.faults.SendFault.TheVariants.{Long};

use crate::faults::SendFault;
use sha2::{Digest, Sha256};

/// A text has at most so many bytes.
const MAX_BYTES: u64 = 9_000_000_000_000_000;

/// How many bytes a text has so far, and a hasher that was fed with them.
#[derive(Drop)]
pub(crate) struct Checksum {
    pub(crate) bytes: u64,
    pub(crate) digest: Sha256,
}

impl Checksum {
    /// That of no bytes.
    pub(crate) fn new() -> Checksum
        ensures { IsChecksum result [] }
    {
        Checksum {
            bytes: 0,
            digest: Sha256::new(),
        }
    }

    /// Counts and digests more bytes, where the limit allows them.
    pub(crate) fn add(&mut self, bytes: &[u8]) -> Result<(), SendFault>
        ensures ok { OnOk result ((before : List ℕ) → IsChecksum self.old before → IsChecksum self.new (before ++ bytes.now)) }
        ensures only { IfErr result (λ e. e ≡ Long) }
        ensures long { IfErr result
            (λ e. (before : List ℕ) → IsChecksum self.old before → export_limit < length (before ++ bytes.now)) }
    {
        match self.bytes.checked_add(bytes.len() as u64) {
            Some(total) if total <= MAX_BYTES => {
                self.bytes = total;
                self.digest.update(bytes);
                Ok(())
            }
            _ => Err(SendFault::Long),
        }
    }
}
