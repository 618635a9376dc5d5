//! What is printed of a record.
ghost use Rattle.byte_streams.specs.Sending.{Sends};
ghost use Rattle.request_book.specs.Words.{number_text};
ghost use Rattle.commands.specs.RecordLines.{record_line};

use crate::numbers::send_number;
use byte_streams::{ByteSink, SinkFault, send};
use uuid::Uuid;

/// Writes the line of a record: its request's number and its reply's status, in JSON.
pub fn send_record<W: ByteSink>(w: &mut W, number: Uuid, status: u16) -> Result<(), SinkFault>
    ensures { Sends W.taken W.failed w.old w.new (record_line (number_text number) status) result }
{
    let mut buffer = Uuid::encode_buffer();
    let written: &str = number.hyphenated().encode_lower(&mut buffer);
    send(w, b"{\"number\":\"")?;
    send(w, written.as_bytes())?;
    send(w, b"\",\"status\":")?;
    send_number(w, status)?;
    send(w, b"}\n")
}
