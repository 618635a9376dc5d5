//! What the rows so far set, and what a row makes of it.
use crate::desk_rows::Offices;
use crate::{desk_rows, sender_rows, stream_rows};
use std::alloc::Global;
use std::rt::HostRuntime;

/// Whose words rows have.
#[derive(Drop)]
enum Part {
    Desks,
    Streams,
    Senders,
}

impl Part {
    fn named(name: &str) -> Option<Part> {
        match name {
            "desks" => Some(Part::Desks),
            "streams" => Some(Part::Streams),
            "senders" => Some(Part::Senders),
            _ => None,
        }
    }
}

/// The part that rows are of, and what those of each part set.
#[derive(Drop)]
pub(crate) struct Stage<O: Offices> {
    part: Part,
    desks: desk_rows::Stage<O>,
    streams: stream_rows::Stage,
    senders: sender_rows::Stage,
}

impl<O: Offices> Stage<O> {
    pub(crate) fn new(alloc: Global) -> Stage<O> {
        Stage {
            part: Part::Desks,
            desks: desk_rows::Stage::new(alloc),
            streams: stream_rows::Stage::new(alloc),
            senders: sender_rows::Stage::new(alloc),
        }
    }

    /// What a deed comes to, which is nothing where it only sets something. None where it can't be read.
    pub(crate) fn told(&mut self, rt: &HostRuntime, alloc: Global, deed: &str) -> Option<String> {
        if let Some(name) = deed.strip_prefix("== ") {
            self.part = Part::named(name)?;
            return Some(String::new(alloc));
        }
        match self.part {
            Part::Desks => desk_rows::deed_told(alloc, &mut self.desks, deed),
            Part::Streams => stream_rows::deed_told(rt, alloc, &mut self.streams, deed),
            Part::Senders => sender_rows::deed_told(alloc, &mut self.senders, deed),
        }
    }

    /// Whether what a deed's row wants stands for this text.
    pub(crate) fn means(&self, alloc: Global, deed: &str, wanted: &str, text: &str) -> bool {
        match self.part {
            Part::Streams => stream_rows::means(alloc, &self.streams, deed, wanted, text),
            _ => wanted == text,
        }
    }
}
