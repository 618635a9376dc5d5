//! A source of messages that is read in turn with a sink.
ghost use Rattle.std.specs.Prelude.{◌≡◌, ℕ, false, List, Option, OnOk, IfOk, IfErr};
ghost use Rattle.http_messages.specs.Arrivals.{ReadBehind, WasCutOff, WasWanted, Arrives};

use byte_streams::{ByteSink, ByteSource};
use http_messages::{Arrival, Inbox, ReadFault};

/// A reader of messages that is read only while a writer holds nothing back: a client that waits for what was written has got it before
/// more is wanted of it. What takes a reader as such a one, and that writer, has no other way to read. Each reader is one.
pub trait MessagesBehind<W: ByteSink> {
    /// The bytes that are still to come, where they are known.
    ghost left: { Self → Option (List ℕ) };

    /// How many reads failed so far, up to the greatest `u64`.
    ghost failed: { Self → ℕ };

    /// Reads until a message stands at the front of the inbox, as `Inbox::read_message` does.
    fn message_behind(&mut self, sink: &W, inbox: &mut Inbox) -> Result<Arrival, ReadFault>
        requires handed_on { W.holds_back sink.now ≡ false }
        ensures read { OnOk result (ReadBehind (left self.old) (left self.new) (failed self.old) (failed self.new) inbox.old inbox.new) }
        ensures arrives { IfOk result (Arrives (left self.new) inbox.new) }
        ensures wanted { OnOk result (WasWanted inbox.old inbox.new) }
        ensures fault { IfErr result (WasCutOff (left self.old) (left self.new) (failed self.old) (failed self.new)) };
}

impl<W: ByteSink, R: ByteSource> MessagesBehind<W> for R {
    ghost left = { R.left };

    ghost failed = { R.failed };

    fn message_behind(&mut self, _sink: &W, inbox: &mut Inbox) -> Result<Arrival, ReadFault> {
        inbox.read_message(self)
    }
}
