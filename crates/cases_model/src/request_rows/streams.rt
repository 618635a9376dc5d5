//! Sinks and sources over memory.
ghost use Rattle.std.specs.Prelude.{Some};

use crate::words::word;
use byte_streams::{ByteSink, ByteSource, SinkFault, SourceFault, VecSink};
use std::alloc::Global;

/// A source over memory that gives one byte a read.
#[derive(Drop)]
struct SliceSource<'a> {
    left: &'a [u8],
}

impl<'a> ByteSource for SliceSource<'a> {
    ghost left = { λ source. Some source.left.now };

    ghost failed = { λ source. 0 };

    fn read(&mut self, room: &mut [u8]) -> Result<usize, SourceFault> {
        match self.left {
            [] => Ok(0),
            [first, rest @ ..] => {
                room[0] = *first;
                self.left = rest;
                Ok(1)
            }
        }
    }

    fn failures(&self) -> u64 {
        0
    }
}

fn tell_write(told: &mut String, sink: &mut VecSink, bytes: &[u8]) -> Option<()> {
    if bytes.is_empty() {
        return None;
    }
    match sink.write(bytes) {
        Ok(count) => write!(told, "{count}, ").ok(),
        Err(SinkFault) => told.push_str("refused, ").ok(),
    }
}

fn tell_writes(told: &mut String, sink: &mut VecSink, texts: &str) -> Option<()> {
    for text in texts.split('|') {
        tell_write(told, sink, text.as_bytes())?;
    }
    Some(())
}

fn tell_end(told: &mut String, sink: &mut VecSink) -> Option<()> {
    let flushed = if sink.flush().is_ok() {
        "flushed"
    } else {
        "stuck"
    };
    let taken = str::from_utf8(sink.bytes.as_slice()).ok()?;
    write!(told, "{flushed}, {} failed: {taken}", sink.failures()).ok()
}

/// Tells what each write of a text comes to, and what the sink holds then.
pub(crate) fn tell_sink(alloc: Global, told: &mut String, words: &str, texts: &str) -> Option<()> {
    let room = word(words, 1).parse::<usize>().ok()?;
    let mut sink = VecSink {
        bytes: Vec::new(alloc),
        piece: 1,
        room,
        failed: 0,
    };
    tell_writes(told, &mut sink, texts)?;
    tell_end(told, &mut sink)
}

fn tell_one_read(told: &mut String, source: &mut SliceSource) -> Option<()> {
    let mut room = [0u8; 4];
    let came = source.read(&mut room).ok()?;
    let text = str::from_utf8(room.get(..came)?).ok()?;
    write!(told, "{came} {text}, ").ok()
}

/// Tells what so many reads give, and how many of them failed.
pub(crate) fn tell_source(told: &mut String, words: &str, text: &str) -> Option<()> {
    let mut source = SliceSource {
        left: text.as_bytes(),
    };
    for _ in 0..word(words, 1).parse::<u32>().ok()? {
        tell_one_read(told, &mut source)?;
    }
    write!(told, "{} failed", source.failures()).ok()
}
