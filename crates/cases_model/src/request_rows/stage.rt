//! What the rows above set.
use request_book::Record;
use std::alloc::Global;
use units::Votes;

/// The text of the last request, the votes, and the records so far, of which the last counts. (In a list, since each function
/// that holds one is dear to prove.)
#[derive(Drop)]
pub(crate) struct Stage {
    pub(crate) request: String,
    pub(crate) votes: Votes,
    pub(crate) records: Vec<Record>,
}

impl Stage {
    pub(crate) fn new(alloc: Global) -> Stage {
        Stage {
            request: String::new(alloc),
            votes: Votes::new(alloc),
            records: Vec::new(alloc),
        }
    }

    pub(crate) fn keep(&mut self, record: Record) -> Option<()> {
        self.records.push(record).ok()
    }
}
