//! A sink over memory.
ghost use Rattle.std.specs.Prelude.{Some, false};

use crate::streams::{ByteSink, SinkFault};

/// A writer into memory. It takes a piece at a time, until it is full or a growth is refused.
#[derive(Drop)]
pub struct VecSink {
    /// What it took.
    pub bytes: Vec<u8>,
    /// The most bytes of one write.
    pub piece: usize,
    /// How many bytes it still takes.
    pub room: usize,
    /// How many writes failed.
    pub failed: u64,
}

impl ByteSink for VecSink {
    ghost taken = { λ sink. Some sink.bytes.items };

    ghost failed = { λ sink. sink.failed };

    ghost holds_back = { λ _. false };

    fn write(&mut self, bytes: &[u8]) -> Result<usize, SinkFault> {
        let count = bytes.len().min(self.piece).min(self.room);
        if count == 0 || self.bytes.extend_from_slice(&bytes[..count]).is_err() {
            self.failed = self.failed.saturating_add(1);
            return Err(SinkFault);
        }
        self.room -= count;
        Ok(count)
    }

    fn flush(&mut self) -> Result<(), SinkFault> {
        Ok(())
    }

    fn failures(&self) -> u64 {
        self.failed
    }
}
