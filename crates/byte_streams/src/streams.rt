//! Where bytes go, and where they come from.

ghost use Rattle.std.specs.Prelude.{◌≡◌, ◌<◌, ◌≤◌, ℕ, Bool, false, List, Option, length, take, OnOk, OnErr, IfOk};
ghost use Rattle.byte_streams.specs.Streams.{one_more, append_known, prepend_known, IsAtEnd};

use thiserror::Error;

/// A write that the sink refused.
#[derive(Clone, Copy, Debug, PartialEq, Eq, Drop, Error)]
#[error("the sink refused a write")]
pub struct SinkFault;

impl SinkFault {
    ghost use Rattle.byte_streams.specs.Numbers.{sink_fault_number};

    /// The fault's number, which is 1: it has one kind.
    pub fn number(self) -> u8
        ensures { result ≡ sink_fault_number self }
    {
        match self {
            SinkFault => 1,
        }
    }
}

/// A writer. A write that succeeds takes at least one byte.
pub trait ByteSink {
    /// The bytes that it took so far, where they are known.
    ghost taken: { Self → Option (List ℕ) };

    /// How many writes failed so far, up to the greatest `u64`.
    ghost failed: { Self → ℕ };

    /// Whether it may hold back bytes that it took.
    ghost holds_back: { Self → Bool };

    /// Takes bytes from the front, and answers how many.
    fn write(&mut self, bytes: &[u8]) -> Result<usize, SinkFault>
        requires { 0 < length bytes.now }
        ensures some { IfOk result (λ n. 0 < n) }
        ensures most { IfOk result (λ n. n ≤ length bytes.now) }
        ensures ok { IfOk result (λ n. taken self.new ≡ append_known (taken self.old) (take n bytes.now)) }
        ensures ok_failed { IfOk result (λ n. failed self.new ≡ failed self.old) }
        ensures err { OnErr result (taken self.new ≡ taken self.old) }
        ensures err_failed { OnErr result (failed self.new ≡ one_more (failed self.old)) };

    /// Hands on what it holds back, where it holds anything back: a client that waits for an answer gets it.
    fn flush(&mut self) -> Result<(), SinkFault>
        ensures same { taken self.new ≡ taken self.old }
        ensures ok { OnOk result (holds_back self.new ≡ false) }
        ensures ok_failed { OnOk result (failed self.new ≡ failed self.old) }
        ensures err_failed { OnErr result (failed self.new ≡ one_more (failed self.old)) };

    /// How many writes failed so far.
    fn failures(&self) -> u64
        ensures { result ≡ failed self.now };
}

/// A read that the source refused.
#[derive(Clone, Copy, Debug, PartialEq, Eq, Drop, Error)]
#[error("the source refused a read")]
pub struct SourceFault;

impl SourceFault {
    ghost use Rattle.byte_streams.specs.Numbers.{source_fault_number};

    /// The fault's number, which is 1: it has one kind.
    pub fn number(self) -> u8
        ensures { result ≡ source_fault_number self }
    {
        match self {
            SourceFault => 1,
        }
    }
}

/// A reader. A read that succeeds gives at least one byte, or says that the end is reached.
pub trait ByteSource {
    /// The bytes that are still to come, where they are known.
    ghost left: { Self → Option (List ℕ) };

    /// How many reads failed so far, up to the greatest `u64`.
    ghost failed: { Self → ℕ };

    /// Fills the front of the room, and answers how many bytes came; 0 where none is left.
    fn read(&mut self, room: &mut [u8]) -> Result<usize, SourceFault>
        requires { 0 < length room.old }
        ensures room { length room.new ≡ length room.old }
        ensures most { IfOk result (λ n. n ≤ length room.old) }
        ensures ok { IfOk result (λ n. left self.old ≡ prepend_known (take n room.new) (left self.new)) }
        ensures end { IfOk result (λ n. n ≡ 0 → IsAtEnd (left self.old)) }
        ensures ok_failed { IfOk result (λ n. failed self.new ≡ failed self.old) }
        ensures err { OnErr result (left self.new ≡ left self.old) }
        ensures err_failed { OnErr result (failed self.new ≡ one_more (failed self.old)) };

    /// How many reads failed so far.
    fn failures(&self) -> u64
        ensures { result ≡ failed self.now };
}
