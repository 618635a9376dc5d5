//! The second output, where faults are told by numbers.

ghost use Rattle.std.specs.Prelude.{◌≤◌, length};

use crate::sentences::sentence_of;
use std::io::{self, IsTerminal, Stderr, Write};
use std::rt::HostRuntime;

/// The second output. At a terminal each line that tells a fault has one more behind it, which says what the fault means.
#[derive(Drop)]
pub(crate) struct Faults {
    stderr: Stderr,
    is_terminal: bool,
    /// The line that is being written, so far.
    line: Vec<u8>,
}

impl Faults {
    pub(crate) fn new(rt: &HostRuntime) -> Faults {
        let stderr = rt.stderr();
        let is_terminal = stderr.is_terminal();
        Faults {
            stderr,
            is_terminal,
            line: Vec::new(rt.alloc()),
        }
    }

    /// Keeps what was written of a line, and says behind its end what it means.
    fn keep(&mut self, piece: &[u8]) {
        // Where there is no memory for a line, it is told alone.
        let _ = self.line.extend_from_slice(piece);
        if piece.last() == Some(&b'\n') {
            self.explain();
            self.line.clear();
        }
    }

    fn explain(&mut self) {
        if let Some(sentence) = sentence_of(self.line.as_slice()) {
            // Where it can't be told, the fault is told all the same.
            let _ = writeln!(self.stderr, "{sentence}");
        }
    }
}

/// The bytes up to and with the first line end; all of them where there is none.
fn first_line(bytes: &[u8]) -> &[u8]
    ensures { length result.now ≤ length bytes.now }
{
    match bytes.iter().position(|byte| *byte == b'\n') {
        Some(end) => &bytes[..=end],
        None => bytes,
    }
}

impl Write for Faults {
    fn write(&mut self, bytes: &[u8]) -> io::Result<usize> {
        if !self.is_terminal {
            return self.stderr.write(bytes);
        }
        let line = first_line(bytes);
        let count = self.stderr.write(line)?;
        self.keep(&line[..count]);
        Ok(count)
    }

    fn flush(&mut self) -> io::Result<()> {
        self.stderr.flush()
    }
}
