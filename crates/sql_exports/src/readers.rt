//! What reads the entries of an export off rows.
ghost use Rattle.std.specs.Prelude.{Some, None, if◌then◌else◌};
ghost use Rattle.sql_decoding.specs.ShownEntries.{message_shown, obsolete_shown, is_translated_row};

use crate::entry_rows::EntryReader;
use po_text::Entry;
use sql_decoding::{message_in, obsolete_in};
use sqlite::Row;
use std::alloc::Global;
use tables::Lost;

/// Reads the template's entries, each with its unit.
#[derive(Drop)]
pub(crate) struct Messages {
    pub(crate) alloc: Global,
}

impl EntryReader for Messages {
    ghost entry = { λ row. Some (message_shown row) };

    fn read(&self, row: &Row) -> Result<Option<Entry>, Lost> {
        match message_in(self.alloc, row) {
            Ok(entry) => Ok(Some(entry)),
            Err(failure) => Err(failure.lost),
        }
    }
}

/// Reads the entries of obsolete units. A unit without a nonempty form has none.
#[derive(Drop)]
pub(crate) struct Obsolete {
    pub(crate) alloc: Global,
}

impl EntryReader for Obsolete {
    ghost entry = { λ row. if is_translated_row row then Some (obsolete_shown row) else None };

    fn read(&self, row: &Row) -> Result<Option<Entry>, Lost> {
        match obsolete_in(self.alloc, row) {
            Ok(entry) => Ok(entry),
            Err(failure) => Err(failure.lost),
        }
    }
}
