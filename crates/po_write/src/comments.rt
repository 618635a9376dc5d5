//! Comment lines and flags.

ghost use Rattle.std.specs.Prelude.{flat_map};
ghost use Rattle.byte_streams.specs.Sending.{Sends};
ghost use Rattle.po_write.specs.Text.{comment, flags_line, further, spaced};

use byte_streams::{ByteSink, SinkFault, send};
use po_text::Text;

/// Writes a text behind one space, if it isn't empty.
fn write_spaced<W: ByteSink>(w: &mut W, text: &str) -> Result<(), SinkFault>
    ensures { Sends W.taken W.failed w.old w.new (spaced text.now) result }
{
    if text.is_empty() {
        return Ok(());
    }
    send(w, b" ")?;
    send(w, text.as_bytes())
}

fn write_comment<W: ByteSink>(w: &mut W, mark: &[u8], text: &str) -> Result<(), SinkFault>
    ensures { Sends W.taken W.failed w.old w.new (comment mark.now text.now) result }
{
    send(w, mark)?;
    write_spaced(w, text)?;
    send(w, b"\n")
}

/// Writes comment lines of one kind.
pub(crate) fn write_comments<W: ByteSink>(
    w: &mut W,
    mark: &[u8],
    texts: &[Text],
) -> Result<(), SinkFault>
    ensures { Sends W.taken W.failed w.old w.new (flat_map (comment mark.now) texts.now) result }
{
    for text in texts {
        write_comment(w, mark, text.as_str())?;
    }
    Ok(())
}

/// Writes a flag behind another.
fn write_further<W: ByteSink>(w: &mut W, flag: &str) -> Result<(), SinkFault>
    ensures { Sends W.taken W.failed w.old w.new (further flag.now) result }
{
    send(w, b", ")?;
    send(w, flag.as_bytes())
}

/// Writes all flags in one line, if there are any.
pub(crate) fn write_flags<W: ByteSink>(w: &mut W, flags: &[Text]) -> Result<(), SinkFault>
    ensures { Sends W.taken W.failed w.old w.new (flags_line flags.now) result }
{
    let Some((first, others)) = flags.split_first() else {
        return Ok(());
    };
    send(w, b"#, ")?;
    send(w, first.as_str().as_bytes())?;
    for flag in others {
        write_further(w, flag.as_str())?;
    }
    send(w, b"\n")
}
