//! Whole pieces, sent to a sink.

ghost use Rattle.std.specs.Prelude.{◌≡◌, [], false, OnOk};
ghost use Rattle.byte_streams.specs.Sending.{Sends};

use crate::streams::{ByteSink, SinkFault};

/// Writes all of the bytes, or a beginning of them where a write of the sink fails.
#[inline]
pub fn send<W: ByteSink>(w: &mut W, bytes: &[u8]) -> Result<(), SinkFault>
    ensures { Sends W.taken W.failed w.old w.new bytes.now result }
{
    if bytes.is_empty() {
        return Ok(());
    }
    // Most sinks take all at once.
    let sent = w.write(bytes)?;
    if sent < bytes.len() {
        return send_rest(w, &bytes[sent..]);
    }
    Ok(())
}

/// Writes all of the bytes, by as many writes as the sink wants.
#[inline(never)]
fn send_rest<W: ByteSink>(w: &mut W, bytes: &[u8]) -> Result<(), SinkFault>
    ensures { Sends W.taken W.failed w.old w.new bytes.now result }
{
    let mut sent = 0;
    while sent < bytes.len() {
        sent += w.write(&bytes[sent..])?;
    }
    Ok(())
}

/// Hands on what the writer holds back: a client that waits for it gets it.
pub fn hand_on<W: ByteSink>(w: &mut W) -> Result<(), SinkFault>
    ensures sent { Sends W.taken W.failed w.old w.new [] result }
    ensures handed_on { OnOk result (W.holds_back w.new ≡ false) }
{
    w.flush()
}
