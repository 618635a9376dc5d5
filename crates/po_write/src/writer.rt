//! Entries, written one by one.

ghost use Rattle.std.specs.Prelude.{◌≡◌, ◌≢◌, ◌↔◌, List, [], ◌∷◌, ◌++◌, MatchResult, OnOk, OnErr, IsTrue, IsOk, Err, true, false};
ghost use Rattle.byte_streams.specs.Streams.{Took, TookBeginning, RoseOrStands};
ghost use Rattle.po_text.specs.declared.entry.Entry.{Entry as EntryValue};
ghost use Rattle.po_write.specs.Pushed.{HasPushed, HasBroken};
ghost use Rattle.byte_streams.specs.Sending.{Sends};
ghost use Rattle.po_write.specs.Text.{entry_text, separated, text_of};
ghost use Rattle.po_write.specs.Writing.{Writing};

use crate::fault::WriteFault;
use crate::writing::send_separated;
use byte_streams::{ByteSink, SinkFault};
use po_text::Entry;
use std::marker::Model;

/// Writes a catalogue's entries with one blank line between each two. It takes no memory. Once a `push` has failed,
/// every later one and `finish` answer `Failed`.
#[derive(Drop)]
pub struct CatalogueWriter<W> {
    sink: W,
    begun: bool,
    failed: bool,
}

impl<W> Model for CatalogueWriter<W> {
    ghost Value = { Writing W };

    ghost view = { λ c. record { sink = c.sink; begun = c.begun; failed = c.failed } };
}

impl<W: ByteSink> CatalogueWriter<W> {
    ghost use Rattle.std.specs.Borrow.{Lends, sem};
    ghost use Rattle.po_write.specs.contracts.writer.CatalogueWriter.{the_row};

    /// A writer to whose sink no entry was written yet.
    pub fn new(sink: W) -> Self
        ensures state { result ≡ record { sink = sink; begun = false; failed = false } }
        ensures pushed { HasPushed W.taken W.failed sink result [] }
    {
        CatalogueWriter {
            sink,
            begun: false,
            failed: false,
        }
    }

    /// Writes the canonical text of an entry behind those before it. It answers `Device` where a write of the sink
    /// failed, after which the sink has taken a beginning of the text; `Failed` after a fault; and never `Memory`.
    pub fn push(&mut self, entry: &Entry) -> Result<(), WriteFault>
        ensures ok { OnOk result (Took (W.taken self.old.sink) (W.taken self.new.sink)
            (separated self.old.begun (entry_text entry.now))) }
        ensures ok_state { OnOk result ((self.old.failed ≡ false) × (self.new.begun ≡ true) × (self.new.failed ≡ false)) }
        ensures ok_count { OnOk result (W.failed self.new.sink ≡ W.failed self.old.sink) }

        ensures err { OnErr result (TookBeginning (W.taken self.old.sink) (W.taken self.new.sink)
            (separated self.old.begun (entry_text entry.now))) }
        ensures err_state { OnErr result (self.new.failed ≡ true) }
        ensures device { result ≡ Err WriteFault.Device → RoseOrStands (W.failed self.old.sink) (W.failed self.new.sink) }

        // Of all entries that were pushed the sink took the text; where this push is the first to fail, a beginning of it.
        ensures pushed { (sink : W) (es : List EntryValue) → HasPushed W.taken W.failed sink self.old es →
            MatchResult result
            (λ _. HasPushed W.taken W.failed sink self.new (es ++ entry.now ∷ []))
            (λ _. HasBroken W.taken W.failed sink self.new (es ++ entry.now ∷ [])) }

        ensures failed { (result ≡ Err WriteFault.Failed) ↔ IsTrue self.old.failed }
        ensures stays { IsTrue self.old.failed → self.new ≡ self.old }
        ensures never_memory { result ≢ Err WriteFault.Memory }
    {
        if self.failed {
            return Err(WriteFault::Failed);
        }
        match send_separated(&mut self.sink, self.begun, entry) {
            Ok(()) => {
                self.begun = true;
                Ok(())
            }
            Err(SinkFault) => {
                self.failed = true;
                Err(WriteFault::Device)
            }
        }
    }

    /// The sink, to read what it took or to empty it. The next entry comes behind a blank line all the same.
    pub fn sink_mut(&mut self) -> &mut W
        ensures* writes_back { sem 𝓛 (Lends (the_row W.row) W.row self.entry result (λ sink. record self.old { sink = sink })) }
        ensures sink { result.now ≡ self.old.sink }
    {
        &mut self.sink
    }

    /// The sink, and whether every entry was written whole.
    pub fn finish(self) -> (W, Result<(), WriteFault>)
        ensures sink { result.0 ≡ self.sink }
        ensures done { IsOk result.1 ↔ (self.failed ≡ false) }
        ensures failed { self.failed ≡ true → result.1 ≡ Err WriteFault.Failed }
        // The text of all entries that were pushed, or a beginning of it up to the entry whose push failed.
        ensures whole { (sink : W) (es : List EntryValue) → HasPushed W.taken W.failed sink self es →
            Sends W.taken W.failed sink result.0 (text_of es) result.1 }
        ensures part { (sink : W) (es : List EntryValue) → HasBroken W.taken W.failed sink self es →
            Sends W.taken W.failed sink result.0 (text_of es) result.1 }
    {
        let CatalogueWriter {
            sink,
            begun: _,
            failed,
        } = self;
        if failed {
            (sink, Err(WriteFault::Failed))
        } else {
            (sink, Ok(()))
        }
    }
}
