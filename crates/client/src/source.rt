//! The whole text that a source gives.

ghost use Rattle.std.specs.Prelude.{◌≡◌, ◌<◌, ◌≤◌, ◌+◌, ◌++◌, ℕ, length, take, vec_len, IfOk, IfErr, OnOk};
ghost use Rattle.byte_streams.specs.Streams.{prepend_known, IsAtEnd, RoseOrStands};
ghost use Rattle.client.specs.SendLines.{IsAllOf};
ghost use Rattle.client.specs.TalkSteps.{IsReadFault};

use crate::fault::SendFault;
use byte_streams::{ByteSource, SourceFault};
use std::alloc::Global;

const ROOM: usize = 16_384;

/// Reads the source to its end.
pub(crate) fn gather<R: ByteSource>(alloc: Global, source: &mut R) -> Result<Vec<u8>, SendFault>
    ensures ok { IfOk result (λ bytes. IsAllOf (R.left source.old) bytes.items) }
    ensures err { IfErr result (IsReadFault (RoseOrStands (R.failed source.old) (R.failed source.new))) }
{
    let mut room = [0u8; ROOM];
    let mut bytes = Vec::new(alloc);
    loop {
        let count = match source.read(&mut room) {
            Ok(count) => count,
            Err(SourceFault) => return Err(SendFault::Unread),
        };
        if count == 0 {
            return Ok(bytes);
        }
        if bytes.extend_from_slice(&room[..count]).is_err() {
            return Err(SendFault::Memory);
        }
    }
}
