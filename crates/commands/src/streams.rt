//! Standard input and output as streams of the office's bytes. Nothing is known of what a terminal, a pipe or a file holds; what a
//! reader or a writer of std says of its own bytes holds of each call here.
ghost use Rattle.std.specs.Prelude.{◌≡◌, ◌≤◌, ◌<◌, None, true, false, length, IfOk, OnOk, OnErr};
ghost use Rattle.std.specs.Io.KnownBytes.{ReadConsumes, WriteAppends, Keeps};
ghost use Rattle.commands.specs.StdStreams.{reader_of, reads_failed, writer_of, writes_failed, writes_held_back};
ghost use Rattle.byte_streams.specs.Streams.{one_more};

use byte_streams::{ByteSink, ByteSource, SinkFault, SourceFault};
use std::io::{Read, Write};

/// One more failure, up to the greatest count.
fn one_more(failures: u64) -> u64
    ensures { result ≡ one_more failures }
{
    failures.saturating_add(1)
}

/// A reader of std as a source.
#[derive(Drop)]
pub struct Input<R: Read + Drop> {
    reader: R,
    failures: u64,
}

impl<R: Read + Drop> Input<R> {
    /// A source of the reader's bytes.
    pub fn new(reader: R) -> Self
        ensures of_reader { reader_of result ≡ reader }
        ensures none_failed { reads_failed result ≡ 0 }
    {
        Input {
            reader,
            failures: 0,
        }
    }
}

impl<R: Read + Drop> ByteSource for Input<R> {
    ghost left = { λ _. None };

    ghost failed = { reads_failed };

    /// Reads once: the bytes that the reader gave, or a failure more.
    fn read(&mut self, room: &mut [u8]) -> Result<usize, SourceFault>
        ensures room { length room.new ≡ length room.old }
        ensures most { IfOk result (λ n. n ≤ length room.old) }
        ensures ok_failed { IfOk result (λ n. reads_failed self.new ≡ reads_failed self.old) }
        ensures err_failed { OnErr result (reads_failed self.new ≡ one_more (reads_failed self.old)) }
        ensures passed { ReadConsumes (R.remaining (reader_of self.old)) (R.remaining (reader_of self.new)) result room.new }
    {
        match self.reader.read(room) {
            Ok(count) => Ok(count),
            Err(_) => {
                self.failures = one_more(self.failures);
                Err(SourceFault)
            }
        }
    }

    fn failures(&self) -> u64 {
        self.failures
    }
}

/// A writer of std as a sink.
#[derive(Drop)]
pub struct Output<W: Write + Drop> {
    writer: W,
    failures: u64,
    /// Whether bytes were written behind the last flush that succeeded.
    holds_back: bool,
}

impl<W: Write + Drop> Output<W> {
    /// A sink whose bytes the writer takes. It holds nothing back; of what the writer itself held till then, it knows nothing.
    pub fn new(writer: W) -> Self
        ensures of_writer { writer_of result ≡ writer }
        ensures none_failed { writes_failed result ≡ 0 }
        ensures none_held { writes_held_back result ≡ false }
    {
        Output {
            writer,
            failures: 0,
            holds_back: false,
        }
    }
}

impl<W: Write + Drop> ByteSink for Output<W> {
    ghost taken = { λ _. None };

    ghost failed = { writes_failed };

    ghost holds_back = { writes_held_back };

    /// Writes once: as many bytes as the writer took, or a failure more. A writer that takes none has failed.
    fn write(&mut self, bytes: &[u8]) -> Result<usize, SinkFault>
        ensures some { IfOk result (λ n. 0 < n) }
        ensures most { IfOk result (λ n. n ≤ length bytes.now) }
        ensures ok_failed { IfOk result (λ n. writes_failed self.new ≡ writes_failed self.old) }
        ensures err_failed { OnErr result (writes_failed self.new ≡ one_more (writes_failed self.old)) }
        ensures held { OnOk result (writes_held_back self.new ≡ true) }
        ensures passed { WriteAppends (W.contents (writer_of self.old)) (W.contents (writer_of self.new)) result bytes.now }
    {
        match self.writer.write(bytes) {
            Ok(count) if 0 < count => {
                self.holds_back = true;
                Ok(count)
            }
            _ => {
                self.failures = one_more(self.failures);
                Err(SinkFault)
            }
        }
    }

    /// Has the writer hand on what it holds back.
    fn flush(&mut self) -> Result<(), SinkFault>
        ensures ok { OnOk result (writes_held_back self.new ≡ false) }
        ensures ok_failed { OnOk result (writes_failed self.new ≡ writes_failed self.old) }
        ensures err_failed { OnErr result (writes_failed self.new ≡ one_more (writes_failed self.old)) }
        ensures kept { Keeps (W.contents (writer_of self.old)) (W.contents (writer_of self.new)) }
    {
        match self.writer.flush() {
            Ok(()) => {
                self.holds_back = false;
                Ok(())
            }
            Err(_) => {
                self.failures = one_more(self.failures);
                Err(SinkFault)
            }
        }
    }

    fn failures(&self) -> u64 {
        self.failures
    }
}
