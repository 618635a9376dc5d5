//! What the rows above set.
use crate::stream_rows::named::NamedTexts;
use office::Desk;
use std::alloc::Global;
use tables::PlainTables;

/// The text of those commands that have none of their own, the texts with names, the desks so far, of which the last is that of
/// the row before, and the bytes of the file between two rows.
#[derive(Drop)]
pub(crate) struct Stage {
    pub(crate) given: Vec<u8>,
    pub(crate) texts: NamedTexts,
    pub(crate) desks: Vec<Desk<PlainTables>>,
    pub(crate) file: Vec<u8>,
}

impl Stage {
    pub(crate) fn new(alloc: Global) -> Stage {
        Stage {
            given: Vec::new(alloc),
            texts: NamedTexts::new(alloc),
            desks: Vec::new(alloc),
            file: Vec::new(alloc),
        }
    }
}
