//! What a row of a command comes to.
use crate::stream_rows::command::status;
use crate::stream_rows::streams::Streams;
use crate::stream_rows::texts::{bytes_of, show};
use crate::stream_rows::words::{has, words_and_text};
use std::alloc::{AllocError, Global};

/// What a command comes to, with streams that give and take 1 byte, 100 bytes, and as many as there are at a time; where that isn't the
/// same, what came by how many bytes.
pub(crate) fn command_told(alloc: Global, given: &mut Vec<u8>, deed: &str) -> Option<String> {
    let (words, text) = words_and_text(deed);
    if let Some(text) = text {
        let bytes = bytes_of(alloc, text)?;
        if words != "given" {
            return come(alloc, words, bytes.as_slice());
        }
        *given = bytes;
        return Some(String::new(alloc));
    }
    come(alloc, words, given.as_slice())
}

/// What the words' command comes to with this text, by any pieces; or, where the words say so, by the greatest alone.
fn come(alloc: Global, words: &str, text: &[u8]) -> Option<String> {
    let told = come_by(alloc, words, text, usize::MAX)?;
    if has(words, "whole") {
        return Some(told);
    }
    for piece in [1, 100] {
        let other = come_by(alloc, words, text, piece)?;
        if other.as_str() != told.as_str() {
            return format!(in alloc; "{told}, by {piece} bytes {other}").ok();
        }
    }
    Some(told)
}

/// What the words' command comes to with this text, with streams that give and take so many bytes at a time. None where the words can't be
/// read.
fn come_by(alloc: Global, words: &str, text: &[u8], piece: usize) -> Option<String> {
    let mut streams = Streams::new(alloc, words, text, piece);
    match status(alloc, &mut streams, words, text) {
        Some(status) => told(alloc, status, &streams, has(words, "canon")),
        None => None,
    }
}

/// Adds bytes behind these letters, if there are any.
fn put_bytes(text: &mut String, letters: &str, bytes: &[u8]) -> Result<(), AllocError> {
    if bytes.is_empty() {
        return Ok(());
    }
    text.push_str(letters).and(show(text, bytes))
}

/// Adds how many bytes were left, if any were.
fn put_left(text: &mut String, left: usize) -> Result<(), AllocError> {
    if left == 0 {
        return Ok(());
    }
    write!(text, " left {left}")
}

fn put_told(
    text: &mut String,
    status: u8,
    streams: &Streams<'_>,
    tells_left: bool,
) -> Result<(), AllocError> {
    let left = if tells_left { streams.source.left() } else { 0 };
    write!(text, "{status}")
        .and(put_bytes(text, " ", streams.output.bytes()))
        .and(put_bytes(text, " told ", streams.faults.bytes()))
        .and(put_left(text, left))
}

/// What a command came to: its status and what it wrote, and how many bytes it left, if that is told and it left any.
pub(crate) fn told(
    alloc: Global,
    status: u8,
    streams: &Streams<'_>,
    tells_left: bool,
) -> Option<String> {
    let mut text = String::new(alloc);
    match put_told(&mut text, status, streams, tells_left) {
        Ok(()) => Some(text),
        Err(_) => None,
    }
}
