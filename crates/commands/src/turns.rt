//! A source that is read in turn with a sink.
ghost use Rattle.std.specs.Prelude.{◌≡◌, ◌<◌, ◌≤◌, ℕ, false, List, Option, length, take, OnOk, OnErr, IfOk};
ghost use Rattle.byte_streams.specs.Streams.{one_more, prepend_known, IsAtEnd};

use byte_streams::{ByteSink, ByteSource, SourceFault};

/// A reader that is read only while a writer holds nothing back: who waits for what was written has got it before more is wanted of
/// him. What takes a reader as such a one, and that writer, has no other way to read. Each reader is one.
pub trait SourceBehind<W: ByteSink> {
    /// The bytes that are still to come, where they are known.
    ghost left: { Self → Option (List ℕ) };

    /// How many reads failed so far, up to the greatest `u64`.
    ghost failed: { Self → ℕ };

    /// Fills the front of the room, and answers how many bytes came; 0 where none is left.
    fn read_behind(&mut self, sink: &W, room: &mut [u8]) -> Result<usize, SourceFault>
        requires handed_on { W.holds_back sink.now ≡ false }
        requires some { 0 < length room.old }
        ensures room { length room.new ≡ length room.old }
        ensures most { IfOk result (λ n. n ≤ length room.old) }
        ensures ok { IfOk result (λ n. left self.old ≡ prepend_known (take n room.new) (left self.new)) }
        ensures end { IfOk result (λ n. n ≡ 0 → IsAtEnd (left self.old)) }
        ensures ok_failed { IfOk result (λ n. failed self.new ≡ failed self.old) }
        ensures err { OnErr result (left self.new ≡ left self.old) }
        ensures err_failed { OnErr result (failed self.new ≡ one_more (failed self.old)) };
}

impl<W: ByteSink, R: ByteSource> SourceBehind<W> for R {
    ghost left = { R.left };

    ghost failed = { R.failed };

    fn read_behind(&mut self, _sink: &W, room: &mut [u8]) -> Result<usize, SourceFault> {
        self.read(room)
    }
}
