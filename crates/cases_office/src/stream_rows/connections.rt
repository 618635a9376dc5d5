//! What connections over HTTP come to.
use crate::desks::open_demo;
use crate::stream_rows::stage::Stage;
use crate::stream_rows::streams::Streams;
use crate::stream_rows::words::{has, words_and_text};
use http_api::{ServeFault, Served, serve};
use office::Desk;
use std::alloc::Global;
use tables::PlainTables;

pub(crate) fn outcome_told(alloc: Global, outcome: Result<Served, ServeFault>) -> Option<String> {
    match outcome {
        Ok(served) => format!(in alloc; "{}", served.answered).ok(),
        Err(fault) => format!(in alloc; "fault {}", fault.number()).ok(),
    }
}

/// An outcome, and the bytes that were written.
pub(crate) fn with_answers(
    alloc: Global,
    stage: &Stage,
    outcome: &str,
    bytes: &[u8],
) -> Option<String> {
    match stage.texts.shown(bytes) {
        Some(answers) => format!(in alloc; "{outcome}; {answers}").ok(),
        None => None,
    }
}

/// Serves a connection from a desk.
pub(crate) fn connection_served(
    alloc: Global,
    desk: &mut Desk<PlainTables>,
    streams: &mut Streams<'_>,
) -> Result<Served, ServeFault> {
    serve(alloc, desk, &mut streams.source, &mut streams.output)
}

/// What comes of one more connection at the last desk, with streams that give and take so many bytes at a time.
fn connected(
    alloc: Global,
    stage: &mut Stage,
    words: &str,
    stream: &[u8],
    piece: usize,
) -> Option<String> {
    let mut streams = Streams::new(alloc, words, stream, piece);
    let outcome = connection_served(alloc, stage.desks.last_mut()?, &mut streams);
    let told = outcome_told(alloc, outcome)?;
    with_answers(alloc, stage, told.as_str(), streams.output.bytes())
}

/// What comes of a connection at a new desk, by any pieces; where that isn't the same, what came by how many bytes.
fn connected_anew(alloc: Global, stage: &mut Stage, words: &str, stream: &[u8]) -> Option<String> {
    open_demo(alloc, &mut stage.desks)?;
    let told = connected(alloc, stage, words, stream, 1)?;
    for piece in [100, usize::MAX] {
        open_demo(alloc, &mut stage.desks)?;
        let other = connected(alloc, stage, words, stream, piece)?;
        if other.as_str() != told.as_str() {
            return format!(in alloc; "{told}, by {piece} bytes {other}").ok();
        }
    }
    Some(told)
}

/// What a connection comes to.
pub(crate) fn connection_told(alloc: Global, stage: &mut Stage, deed: &str) -> Option<String> {
    let (words, text) = words_and_text(deed);
    let stream = stage.texts.bytes_of(text.unwrap_or(""))?;
    if has(words, "new") {
        connected_anew(alloc, stage, words, stream.as_slice())
    } else if has(words, "on") {
        connected(alloc, stage, words, stream.as_slice(), usize::MAX)
    } else {
        None
    }
}

/// What a row wants of a connection, told alike.
pub(crate) fn connection_wanted(alloc: Global, stage: &Stage, wanted: &str) -> Option<String> {
    let (outcome, text) = words_and_text(wanted);
    match stage.texts.bytes_of(text.unwrap_or("")) {
        Some(bytes) => with_answers(alloc, stage, outcome, bytes.as_slice()),
        None => None,
    }
}
