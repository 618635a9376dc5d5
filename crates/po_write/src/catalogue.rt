//! Whole catalogues.

ghost use Rattle.std.specs.Prelude.{◌≡◌, List, OnOk, OnErr, Err};
ghost use Rattle.byte_streams.specs.Streams.{Took, TookBeginning, RoseOrStands};
ghost use Rattle.po_text.specs.declared.entry.Entry.{Entry as EntryValue};
ghost use Rattle.po_read.specs.Spells.{Spells};
ghost use Rattle.byte_streams.specs.Sending.{Sends};
ghost use Rattle.po_write.specs.Text.{text_of};

use crate::fault::WriteFault;
use crate::writing::send_separated;
use byte_streams::{ByteSink, SinkFault};
use po_text::{Catalogue, Entry};

/// Writes the entries, with one blank line between each two.
fn send_entries<W: ByteSink>(w: &mut W, entries: &[Entry]) -> Result<(), SinkFault>
    ensures { Sends W.taken W.failed w.old w.new (text_of entries.now) result }
{
    for (i, entry) in entries.iter().enumerate() {
        send_separated(w, 0 < i, entry)?;
    }
    Ok(())
}

/// Writes the canonical text of a catalogue, and takes no memory: a text that spells this catalogue and no other, as the GNU
/// gettext manual has it in "The Format of PO Files". The only fault is `Device`, where a write of the sink failed; the sink
/// has then taken a beginning of the text.
pub fn write_catalogue<W: ByteSink>(w: &mut W, catalogue: &Catalogue) -> Result<(), WriteFault>
    ensures ok { OnOk result (Took (W.taken w.old) (W.taken w.new) (text_of catalogue.now)) }
    ensures ok_count { OnOk result (W.failed w.new ≡ W.failed w.old) }
    ensures err { OnErr result (TookBeginning (W.taken w.old) (W.taken w.new) (text_of catalogue.now)) }
    ensures device { OnErr result (RoseOrStands (W.failed w.old) (W.failed w.new)) }
    ensures fault { OnErr result (result ≡ Err WriteFault.Device) }
    ensures spelled { Spells (text_of catalogue.now) catalogue.now }
    ensures only { (other : List EntryValue) → Spells (text_of catalogue.now) other → other ≡ catalogue.now }
{
    match send_entries(w, catalogue.entries()) {
        Ok(()) => Ok(()),
        Err(SinkFault) => Err(WriteFault::Device),
    }
}
