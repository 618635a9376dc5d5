//! Numbers in lines.
ghost use Rattle.byte_streams.specs.Sending.{Sends};

use byte_streams::{ByteSink, SinkFault, send};
use itoa::{Buffer, Integer};

/// Writes a number in decimal digits.
pub(crate) fn send_number<W: ByteSink, N: Integer>(w: &mut W, number: N) -> Result<(), SinkFault>
    ensures { Sends W.taken W.failed w.old w.new (N.text number) result }
{
    let mut buffer = Buffer::new();
    let digits = buffer.format(number);
    send(w, digits.as_bytes())
}
