//! A sink of entries that sends their text on to a writer.

ghost use Rattle.std.specs.Prelude.{◌≡◌, ◌∷◌, [], true, false, OnOk, IfErr};
ghost use Rattle.po_write.specs.Text.{entry_text, separated};
ghost use Rattle.office.specs.declared.faults.SendFault.TheVariants.{Memory};
ghost use Rattle.office.specs.Sendings.{SendsOn};

use crate::checksum::Checksum;
use crate::faults::SendFault;
use crate::strings::has_strings;
use byte_streams::{ByteSink, SinkFault, VecSink, send};
use po_text::Entry;
use po_write::CatalogueWriter;
use std::alloc::Global;
use tables::EntrySink;

/// A writer of entries into memory, to which none was written yet.
pub(crate) fn text_writer(alloc: Global) -> CatalogueWriter<VecSink>
    ensures { result.begun ≡ false }
{
    CatalogueWriter::new(VecSink {
        bytes: Vec::new(alloc),
        piece: usize::MAX,
        room: usize::MAX,
        failed: 0,
    })
}

/// Pushes an entry, so that its text alone stands in memory, behind a blank line where an entry came before it.
fn push_entry(writer: &mut CatalogueWriter<VecSink>, entry: &Entry) -> Result<(), SendFault>
    ensures ok { OnOk result (writer.new.sink.bytes.items ≡ separated writer.old.begun (entry_text entry.now)) }
    ensures begun { OnOk result (writer.new.begun ≡ true) }
    ensures err { IfErr result (λ e. e ≡ Memory) }
{
    let text = writer.sink_mut();
    text.bytes.clear();
    text.room = usize::MAX;
    match writer.push(entry) {
        Ok(()) => Ok(()),
        Err(_) => Err(SendFault::Memory),
    }
}

/// Counts, digests and sends an entry's text. It is in memory until it is sent.
fn send_entry<W: ByteSink>(
    w: &mut W,
    checksum: &mut Checksum,
    writer: &mut CatalogueWriter<VecSink>,
    entry: &Entry,
) -> Result<(), SendFault>
    ensures sent { SendsOn W.taken W.failed w.old w.new checksum.old checksum.new (separated writer.old.begun (entry_text entry.now)) result }
    ensures begun { OnOk result (writer.new.begun ≡ true) }
{
    push_entry(writer, entry)?;
    let text = writer.sink_mut().bytes.as_slice();
    checksum.add(text)?;
    match send(w, text) {
        Ok(()) => Ok(()),
        Err(SinkFault) => Err(SendFault::Device),
    }
}

/// Entries on their way to a writer. The text of one is in memory at a time.
#[derive(Drop)]
pub(crate) struct ExportSink<'a, W: ByteSink> {
    pub(crate) w: &'a mut W,
    pub(crate) text: &'a mut CatalogueWriter<VecSink>,
    /// Whether an entry was sent.
    pub(crate) begun: bool,
    pub(crate) checksum: Checksum,
}

impl<'a, W: ByteSink> EntrySink for ExportSink<'a, W> {
    ghost use Rattle.std.specs.Prelude.{◌≡◌, refl};
    ghost use Rattle.std.proofs.Common.{◌∙◌};
    ghost use Rattle.office.specs.Sendings.{TookEntries, SentPart, begun_after, took-none, took-more, begun-more};
    ghost use Rattle.po_write.specs.Text.{entry_text, separated};

    type Refusal = SendFault;

    ghost Took = { λ a es b. (b.w.ghost_name ≡ a.w.ghost_name)
        × TookEntries (W.taken a.w.now) (W.taken b.w.now) (W.failed a.w.now) (W.failed b.w.now) a.checksum b.checksum a.text.now.begun b.text.now.begun es
        × (b.begun ≡ begun_after a.begun es) };

    ghost Refuses = { λ a entry fault b. (b.w.ghost_name ≡ a.w.ghost_name)
        × SentPart (W.taken a.w.now) (W.taken b.w.now) (W.failed a.w.now) (W.failed b.w.now) a.checksum (separated a.text.now.begun (entry_text entry)) fault };

    ghost none = { λ s. (refl, took-none (W.taken s.w.now) (W.failed s.w.now) s.checksum s.text.now.begun, refl) };

    ghost more = { λ a b c xs ys p q. (
      q.0 ∙ p.0,
      took-more (W.taken a.w.now) (W.taken b.w.now) (W.taken c.w.now) (W.failed a.w.now) (W.failed b.w.now) (W.failed c.w.now)
          a.checksum b.checksum c.checksum a.text.now.begun b.text.now.begun c.text.now.begun xs ys p.1 q.1,
      begun-more a.begun b.begun c.begun xs ys p.2 q.2,
    ) };

    fn take(&mut self, entry: &Entry) -> Result<(), SendFault> {
        has_strings(entry);
        send_entry(self.w, &mut self.checksum, self.text, entry)?;
        self.begun = true;
        Ok(())
    }
}
