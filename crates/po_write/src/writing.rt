//! One entry.

ghost use Rattle.std.specs.Prelude.{◌≡◌, OnOk, OnErr, Err};
ghost use Rattle.byte_streams.specs.Streams.{Took, TookBeginning, RoseOrStands};
ghost use Rattle.byte_streams.specs.Sending.{Sends};
ghost use Rattle.po_write.specs.Text.{entry_text, message_mark, previous_mark, separated};

use crate::comments::{write_comments, write_flags};
use crate::fault::WriteFault;
use crate::strings::{write_messages, write_previous};
use byte_streams::{ByteSink, SinkFault, send};
use po_text::Entry;

fn message_mark(obsolete: bool) -> &'static [u8]
    ensures { result.now ≡ message_mark obsolete }
{
    if obsolete { b"#~ " } else { b"" }
}

fn previous_mark(obsolete: bool) -> &'static [u8]
    ensures { result.now ≡ previous_mark obsolete }
{
    if obsolete { b"#~| " } else { b"#| " }
}

fn send_entry<W: ByteSink>(w: &mut W, entry: &Entry) -> Result<(), SinkFault>
    ensures { Sends W.taken W.failed w.old w.new (entry_text entry.now) result }
{
    write_comments(w, b"#", entry.translator.as_slice())?;
    write_comments(w, b"#.", entry.extracted.as_slice())?;
    write_comments(w, b"#:", entry.references.as_slice())?;
    write_flags(w, entry.flags.as_slice())?;
    write_previous(w, previous_mark(entry.obsolete), &entry.previous)?;
    write_messages(w, message_mark(entry.obsolete), entry)
}

/// Writes the canonical text of one entry, and takes no memory. The only fault is `Device`, where a write of the sink
/// failed; the sink has then taken a beginning of the text.
pub fn write_entry<W: ByteSink>(w: &mut W, entry: &Entry) -> Result<(), WriteFault>
    ensures ok { OnOk result (Took (W.taken w.old) (W.taken w.new) (entry_text entry.now)) }
    ensures ok_count { OnOk result (W.failed w.new ≡ W.failed w.old) }
    ensures err { OnErr result (TookBeginning (W.taken w.old) (W.taken w.new) (entry_text entry.now)) }
    ensures device { OnErr result (RoseOrStands (W.failed w.old) (W.failed w.new)) }
    ensures only { OnErr result (result ≡ Err WriteFault.Device) }
{
    match send_entry(w, entry) {
        Ok(()) => Ok(()),
        Err(SinkFault) => Err(WriteFault::Device),
    }
}

/// Writes an entry, behind a blank line where one came before it.
pub(crate) fn send_separated<W: ByteSink>(
    w: &mut W,
    begun: bool,
    entry: &Entry,
) -> Result<(), SinkFault>
    ensures { Sends W.taken W.failed w.old w.new (separated begun (entry_text entry.now)) result }
{
    if !begun {
        return send_entry(w, entry);
    }
    send(w, b"\n")?;
    send_entry(w, entry)
}
