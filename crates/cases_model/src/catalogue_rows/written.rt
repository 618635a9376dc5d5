//! What the writer makes of entries.

use crate::catalogue_rows::stage::Stage;
use byte_streams::{ByteSink, VecSink};
use po_read::read;
use po_text::Entry;
use po_write::{CatalogueWriter, WriteFault, write_catalogue, write_entry};
use std::alloc::{AllocError, Global};

/// A sink that is full after so many bytes.
fn sink(alloc: Global, most: usize) -> VecSink {
    VecSink {
        bytes: Vec::new(alloc),
        piece: usize::MAX,
        room: most,
        failed: 0,
    }
}

/// Tells what the sink took, where all was written and no write failed.
fn tell_taken(told: &mut String, sink: &VecSink, is_done: bool) -> Option<()> {
    if is_done && sink.failures() == 0 {
        told.push_str(str::from_utf8(sink.bytes.as_slice()).ok()?)
            .ok()
    } else {
        told.push_str("a fault").ok()
    }
}

/// Tells the canonical text of a catalogue.
pub(crate) fn tell_canonical(alloc: Global, told: &mut String, bytes: &[u8]) -> Option<()> {
    let catalogue = read(alloc, bytes).ok()?;
    let mut sink = sink(alloc, usize::MAX);
    let is_done = write_catalogue(&mut sink, &catalogue).is_ok();
    drop(catalogue);
    tell_taken(told, &sink, is_done)
}

/// Tells the text of the last entry.
pub(crate) fn tell_one(alloc: Global, told: &mut String, stage: &Stage) -> Option<()> {
    let entry = stage.entries.last()?;
    let mut sink = sink(alloc, usize::MAX);
    let is_done = write_entry(&mut sink, entry).is_ok();
    tell_taken(told, &sink, is_done)
}

/// Tells the text of all entries, pushed one after the other.
pub(crate) fn tell_pushed(alloc: Global, told: &mut String, stage: &Stage) -> Option<()> {
    let mut writer = CatalogueWriter::new(sink(alloc, usize::MAX));
    let mut is_done = true;
    for entry in stage.entries.as_slice() {
        is_done = writer.push(entry).is_ok() && is_done;
    }
    let (sink, finished) = writer.finish();
    tell_taken(told, &sink, is_done && finished.is_ok())
}

fn tell_outcome(told: &mut String, outcome: Result<(), WriteFault>) -> Result<(), AllocError> {
    match outcome {
        Ok(()) => told.push_str("ok "),
        Err(fault) => write!(told, "{fault:?} "),
    }
}

fn tell_outcomes(told: &mut String, outcomes: &[Result<(), WriteFault>]) -> Result<(), AllocError> {
    for outcome in outcomes {
        tell_outcome(told, *outcome)?;
    }
    Ok(())
}

/// Two entries and the first again go to a sink that is full after so many bytes.
fn push_to_full(
    alloc: Global,
    told: &mut String,
    most: usize,
    first: &Entry,
    second: &Entry,
) -> Option<()> {
    let mut writer = CatalogueWriter::new(sink(alloc, most));
    let outcomes = [writer.push(first), writer.push(second), writer.push(first)];
    let (sink, finished) = writer.finish();
    let [one, two, three] = outcomes;
    let done = tell_outcomes(told, &[one, two, three, finished]).ok();
    match String::from_utf8_lossy(alloc, sink.bytes.as_slice()) {
        Ok(taken) => done.and(write!(told, "{} {taken}", sink.failures()).ok()),
        Err(_) => None,
    }
}

/// Tells what comes of writing two entries to a sink that is full after so many bytes.
pub(crate) fn tell_full(alloc: Global, told: &mut String, stage: &Stage, most: &str) -> Option<()> {
    let most = most.parse::<usize>().ok()?;
    match stage.entries.as_slice() {
        [first, second] => push_to_full(alloc, told, most, first, second),
        _ => None,
    }
}

/// Tells the number and the words of a fault.
pub(crate) fn tell_write_fault(told: &mut String, name: &str) -> Option<()> {
    let fault = match name {
        "Device" => WriteFault::Device,
        "Memory" => WriteFault::Memory,
        "Failed" => WriteFault::Failed,
        _ => return None,
    };
    write!(told, "{} {fault}", fault.number()).ok()
}
