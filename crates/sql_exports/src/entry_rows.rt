//! A sink of rows over a sink of entries.

ghost use Rattle.std.specs.Prelude.{◌≡◌, Option, IfOk};
ghost use Rattle.po_text.specs.declared.entry.Entry.{Entry as EntryValue};
ghost use Rattle.sqlite.specs.Order.{Row as RowValue};
ghost use Rattle.sql_exports.specs.RowEntries.{TookEntries, RefusedEntry};

use po_text::Entry;
use sql_streams::RowSink;
use sqlite::Row;
use std::mem::replace;
use tables::{EachFault, EntrySink, Lost};

/// Reads the entry that a row stands for.
pub(crate) trait EntryReader {
    /// The entry of a row, if it stands for one.
    ghost entry: { RowValue → Option EntryValue };

    /// Reads it, where there is memory and the row has its columns.
    fn read(&self, row: &Row) -> Result<Option<Entry>, Lost>
        ensures { IfOk result (λ own. own ≡ entry row.now) };
}

/// Takes rows, and hands the entry of each that stands for one to a sink, when the next one was read: the last is held back, so that
/// the sink gets it when no row is left that could be wanted.
#[derive(Drop)]
pub(crate) struct EntryRows<'a, R: EntryReader, K: EntrySink> {
    reader: &'a R,
    sink: &'a mut K,
    /// The entry that is held back.
    held: &'a mut Entry,
}

impl<'a, R: EntryReader, K: EntrySink> EntryRows<'a, R, K> {
    /// A sink of rows that holds an entry back already.
    pub(crate) fn new(reader: &'a R, held: &'a mut Entry, sink: &'a mut K) -> EntryRows<'a, R, K>
        ensures same_reference { result.sink.ghost_name ≡ sink.entry.ghost_name }
        ensures same { result.sink.now ≡ sink.old }
        ensures held_reference { result.held.ghost_name ≡ held.entry.ghost_name }
        ensures held { result.held.now ≡ held.old }
    {
        EntryRows { reader, sink, held }
    }
}

impl<'a, R: EntryReader, K: EntrySink> RowSink for EntryRows<'a, R, K> {
    ghost use Rattle.sql_exports.specs.Sinks.{took_none, took_more};

    type Refusal = EachFault<K::Refusal>;

    ghost Took = { λ a rows b. TookEntries K.Took R.entry a.sink a.held rows b.sink b.held };

    ghost Refuses = { λ a row fault b. RefusedEntry K.Refuses a.sink a.held fault b.sink b.held };

    ghost none = { λ s. took_none K.Took R.entry K.none s.sink s.held };

    ghost more = { λ a b c xs ys one two. took_more K.Took R.entry K.more a.sink b.sink c.sink a.held b.held c.held xs ys one two };

    fn take(&mut self, row: &Row) -> Result<(), EachFault<K::Refusal>> {
        match self.reader.read(row) {
            Ok(Some(entry)) => {
                let last = replace(self.held, entry);
                let taken = self.sink.take(&last);
                drop(last);
                match taken {
                    Ok(()) => Ok(()),
                    Err(refusal) => Err(EachFault::NoSink(refusal)),
                }
            }
            Ok(None) => Ok(()),
            Err(lost) => Err(EachFault::NoTables(lost)),
        }
    }
}
