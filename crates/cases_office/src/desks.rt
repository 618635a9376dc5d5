//! Desks over tables in maps, and sinks.
use byte_streams::VecSink;
use office::Desk;
use std::alloc::Global;
use tables::{PlainTables, Start};
use units::Name;

/// The demo office, or one with this manager alone.
pub(crate) fn start(who: &str) -> Option<Start> {
    if who == "demo" {
        return Some(Start::Demo);
    }
    Some(Start::Opening(Name::try_new(who)?))
}

pub(crate) fn desk_in_maps(alloc: Global, start: &Start) -> Option<Desk<PlainTables>> {
    match PlainTables::new(alloc, start) {
        Ok(tables) => Some(Desk::new(alloc, tables)),
        Err(_) => None,
    }
}

/// A desk of this office.
pub(crate) fn desk_opened(alloc: Global, who: &str) -> Option<Desk<PlainTables>> {
    match start(who) {
        Some(start) => desk_in_maps(alloc, &start),
        None => None,
    }
}

/// Opens a new desk with the demo office, in place of those so far.
pub(crate) fn open_demo(alloc: Global, desks: &mut Vec<Desk<PlainTables>>) -> Option<()> {
    desks.clear();
    desks.push(desk_opened(alloc, "demo")?).ok()
}

/// A sink that is full after so many bytes.
pub(crate) fn sink(alloc: Global, most: usize) -> VecSink {
    VecSink {
        bytes: Vec::new(alloc),
        piece: usize::MAX,
        room: most,
        failed: 0,
    }
}
