//! What the rows above set.
use plural_expr::PluralForms;
use po_text::Entry;
use std::alloc::Global;

/// The text that was kept, the rules so far, of which the last is that of the next row, and the entries.
#[derive(Drop)]
pub(crate) struct Stage {
    pub(crate) kept: Vec<u8>,
    pub(crate) rules: Vec<PluralForms>,
    pub(crate) entries: Vec<Entry>,
}

impl Stage {
    pub(crate) fn new(alloc: Global) -> Stage {
        Stage {
            kept: Vec::new(alloc),
            rules: Vec::new(alloc),
            entries: Vec::new(alloc),
        }
    }
}
