//! Streams in memory, which may fail. Nothing is known of what they hold.
ghost use Rattle.std.specs.Prelude.{None, false};

use crate::stream_rows::words::{has, most};
use byte_streams::{ByteSink, ByteSource, SinkFault, SourceFault, VecSink};
use client::{Link, send_lines};
use std::alloc::Global;

/// A source that gives a piece at a time, and fails once it gave so many bytes.
#[derive(Drop)]
pub(crate) struct Given<'a> {
    left: &'a [u8],
    piece: usize,
    before_fault: usize,
    failures: u64,
}

impl<'a> Given<'a> {
    /// How many bytes were not read.
    pub(crate) fn left(&self) -> usize {
        self.left.len()
    }
}

impl<'a> ByteSource for Given<'a> {
    ghost left = { λ _. None };

    ghost failed = { λ s. s.failures };

    fn read(&mut self, room: &mut [u8]) -> Result<usize, SourceFault> {
        if self.before_fault == 0 {
            self.failures = self.failures.saturating_add(1);
            return Err(SourceFault);
        }
        let most = self.piece.min(self.before_fault).min(room.len());
        let count = most.min(self.left.len());
        let (front, rest) = self.left.split_at(count);
        room[..count].copy_from_slice(front);
        self.left = rest;
        self.before_fault -= count;
        Ok(count)
    }

    fn failures(&self) -> u64 {
        self.failures
    }
}

/// A sink in memory, which may hand on nothing that it holds back.
#[derive(Drop)]
pub(crate) struct Kept {
    sink: VecSink,
    flushes: bool,
}

impl Kept {
    fn new(alloc: Global, piece: usize, room: usize, flushes: bool) -> Kept {
        let sink = VecSink {
            bytes: Vec::new(alloc),
            piece,
            room,
            failed: 0,
        };
        Kept { sink, flushes }
    }

    pub(crate) fn bytes(&self) -> &[u8] {
        self.sink.bytes.as_slice()
    }

    /// Keeps bytes besides those that are written.
    pub(crate) fn keep(&mut self, bytes: &[u8]) -> Option<()> {
        self.sink.bytes.extend_from_slice(bytes).ok()
    }
}

impl ByteSink for Kept {
    ghost taken = { λ _. None };

    ghost failed = { λ s. s.sink.failed };

    ghost holds_back = { λ _. false };

    fn write(&mut self, bytes: &[u8]) -> Result<usize, SinkFault> {
        self.sink.write(bytes)
    }

    fn flush(&mut self) -> Result<(), SinkFault> {
        if self.flushes {
            return Ok(());
        }
        self.sink.failed = self.sink.failed.saturating_add(1);
        Err(SinkFault)
    }

    fn failures(&self) -> u64 {
        self.sink.failed
    }
}

/// What a command reads and writes.
#[derive(Drop)]
pub(crate) struct Streams<'a> {
    pub(crate) source: Given<'a>,
    pub(crate) output: Kept,
    pub(crate) faults: Kept,
}

impl<'a> Streams<'a> {
    /// The streams of a row's words, with this text.
    pub(crate) fn new(alloc: Global, words: &str, text: &'a [u8], piece: usize) -> Streams<'a> {
        Streams {
            source: Given {
                left: text,
                piece,
                before_fault: most(words, "reader"),
                failures: 0,
            },
            output: Kept::new(alloc, piece, most(words, "writer"), !has(words, "flush")),
            faults: Kept::new(alloc, piece, most(words, "faults"), true),
        }
    }

    /// Sends the source's lines over a link. Answers the exit status.
    pub(crate) fn send<L: Link>(&mut self, alloc: Global, link: &mut L, tries: u32) -> u8 {
        send_lines(
            alloc,
            &mut self.source,
            link,
            tries,
            &mut self.output,
            &mut self.faults,
        )
    }
}
