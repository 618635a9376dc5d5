//! The statuses of records, as the rows of a walk over them all show them.
ghost use Rattle.std.specs.Prelude.{◌≡◌, ◌≢◌, true, Some, IfOk, IfErr, OnOk};
ghost use Rattle.std.specs.FinMap as maps;
ghost use Rattle.request_book.specs.Book.{Book, row_of};
ghost use Rattle.sql_columns.specs.Readings.{number_read};
ghost use Rattle.sql_schema.specs.Keys.{text_at};
ghost use Rattle.sql_meaning.specs.Meaning.{number_at};
ghost use Rattle.sql_meaning.specs.Shown.{shown_record};
ghost use Rattle.rule_tests.specs.Given.{AreStatusesOf};
ghost use Rattle.sql_decoding.specs.RowTests.{holds_text, is_number, is_record_row, IsUnread};
ghost use Rattle.tables.specs.declared.faults.Lost.TheVariants.{Memory};
ghost use Rattle.sql_adoption.specs.BookShown.{IsRecordRow};
ghost use Rattle.sql_adoption.specs.NotedRecords.{has_status};

use request_book::{Record, bytes_fit};
use rule_tests::{is_content, is_status, note_status};
use sql_columns::number_from;
use sql_decoding::{Failure, record_in, text_in};
use sql_streams::RowSink;
use sqlite::Row;
use std::alloc::Global;
use std::collections::BTreeMap;
use tables::Lost;
use uuid::Uuid;

/// The number of a row's record.
fn number_of(row: &Row) -> Result<Uuid, Failure>
    ensures shown { IfOk result (λ number. number_read (text_at 3 row.now) ≡ Some number) }
    ensures stands { OnOk result (holds_text is_number 3 row.now ≡ true) }
    ensures unread { IfErr result (IsUnread (holds_text is_number 3 row.now)) }
{
    let column = text_in(row, 3)?;
    let number = number_from(column.as_str())?;
    bytes_fit(number.as_bytes());
    Ok(number)
}

/// The record of a row.
fn record_of(row: &Row) -> Result<Record, Failure>
    ensures value { IfOk result (λ r. r ≡ row_of (number_at 3 row.now) (shown_record row.now)) }
    ensures stands { OnOk result (is_record_row row.now ≡ true) }
    ensures unread { IfErr result (IsUnread (is_record_row row.now)) }
{
    let number = number_of(row)?;
    record_in(number, row)
}

/// The record of a row, where its content is a request's.
fn known_record(alloc: Global, row: &Row) -> Result<Record, Failure>
    ensures value { IfOk result (λ r. r ≡ row_of (number_at 3 row.now) (shown_record row.now)) }
    ensures stands { OnOk result (IsRecordRow row.now) }
    ensures unread { IfErr result (λ failure. failure.lost ≢ Memory → ¬ IsRecordRow row.now) }
{
    let record = record_of(row)?;
    if is_content(alloc, record.content.as_str())? {
        Ok(record)
    } else {
        drop(record);
        Err(Failure { lost: Lost::Disk })
    }
}

/// Notes the status of a row's record.
fn note_row(alloc: Global, statuses: &mut BTreeMap<Uuid, u16>, row: &Row) -> Result<(), Failure>
    ensures noted { (book : Book) → AreStatusesOf book statuses.old
        → OnOk result (AreStatusesOf (maps.insert book (number_at 3 row.now) (shown_record row.now)) statuses.new) }
    ensures stands { OnOk result (IsRecordRow row.now) }
    ensures unread { IfErr result (λ failure. failure.lost ≢ Memory → ¬ IsRecordRow row.now) }
{
    let record = known_record(alloc, row)?;
    note_status(statuses, &record)?;
    drop(record);
    Ok(())
}

/// Whether the reply of a row's record has a status that one may have.
fn has_status(alloc: Global, row: &Row) -> Result<bool, Failure>
    ensures told { IfOk result (λ has. has ≡ has_status row.now) }
    ensures stands { OnOk result (IsRecordRow row.now) }
    ensures unread { IfErr result (λ failure. failure.lost ≢ Memory → ¬ IsRecordRow row.now) }
{
    let record = known_record(alloc, row)?;
    let has = is_status(record.reply.status());
    drop(record);
    Ok(has)
}

/// Takes rows of records, and notes the status of each one's reply under its number.
///
/// A row is refused with `Memory` where a growth was, and with `Disk` only where it stands for no record or its content is no request's.
#[derive(Drop)]
pub(crate) struct Statuses {
    alloc: Global,
    pub(crate) by_number: BTreeMap<Uuid, u16>,
}

impl Statuses {
    /// Those of no record.
    pub(crate) fn new(alloc: Global) -> Statuses
        ensures { AreStatusesOf maps.empty result.by_number }
    {
        Statuses {
            alloc,
            by_number: BTreeMap::new(alloc),
        }
    }
}

impl RowSink for Statuses {
    ghost use Rattle.std.specs.Prelude.{◌≡◌, ◌≢◌};
    ghost use Rattle.tables.specs.declared.faults.Lost.TheVariants.{Memory};
    ghost use Rattle.sql_adoption.specs.BookShown.{IsRecordRow};
    ghost use Rattle.sql_adoption.specs.NotedRecords.{NotesRecords, notes_none, notes_more};

    type Refusal = Failure;

    ghost Took = { λ a rows b. NotesRecords a.by_number rows b.by_number };

    ghost Refuses = { λ a row failure b. failure.lost ≢ Memory → ¬ IsRecordRow row };

    ghost none = { λ s. notes_none s.by_number };

    ghost more = { λ a b c xs ys one two. notes_more a.by_number b.by_number c.by_number xs ys one two };

    fn take(&mut self, row: &Row) -> Result<(), Failure> {
        note_row(self.alloc, &mut self.by_number, row)
    }
}

/// Takes rows of records, and tells whether the reply of each has a status that one may have.
///
/// A row is refused as `Statuses` refuses it.
#[derive(Drop)]
pub(crate) struct Contents {
    pub(crate) alloc: Global,
    pub(crate) answered: bool,
}

impl RowSink for Contents {
    ghost use Rattle.std.specs.Prelude.{◌≡◌, ◌≢◌};
    ghost use Rattle.tables.specs.declared.faults.Lost.TheVariants.{Memory};
    ghost use Rattle.sql_adoption.specs.BookShown.{IsRecordRow};
    ghost use Rattle.sql_adoption.specs.NotedRecords.{TestsRecords, tests_none, tests_more};

    type Refusal = Failure;

    ghost Took = { λ a rows b. TestsRecords a.answered rows b.answered };

    ghost Refuses = { λ a row failure b. failure.lost ≢ Memory → ¬ IsRecordRow row };

    ghost none = { λ s. tests_none s.answered };

    ghost more = { λ a b c xs ys one two. tests_more a.answered b.answered c.answered xs ys one two };

    fn take(&mut self, row: &Row) -> Result<(), Failure> {
        let has = has_status(self.alloc, row)?;
        self.answered = self.answered && has;
        Ok(())
    }
}
