//! A record, as its row is shown.
ghost use Rattle.std.specs.Prelude.{◌≡◌, true, IfOk, IfErr, OnOk};
ghost use Rattle.request_book.specs.Book.{row_of};
ghost use Rattle.sql_meaning.specs.Shown.{shown_record};
ghost use Rattle.sql_decoding.specs.RowTests.{is_record, IsUnread};

use crate::columns::text_in;
use crate::faults::Failure;
use crate::integers::integer_at;
use po_text::Text;
use request_book::{Record, Reply};
use sqlite::Row;
use uuid::Uuid;

/// The record of a number whose row is shown.
///
/// `Memory` where a growth was refused, and `Disk` exactly where the row stands for no record.
pub fn record_in(number: Uuid, row: &Row) -> Result<Record, Failure>
    ensures shown { IfOk result (λ r. r ≡ row_of number (shown_record row.now)) }
    ensures stands { OnOk result (is_record row.now ≡ true) }
    ensures unread { IfErr result (IsUnread (is_record row.now)) }
{
    let content = text_in(row, 0)?;
    let status = integer_at(row, 1)?;
    let body = text_in(row, 2)?;
    let reply = Reply::new(status, Text::from_string(body));
    Ok(Record {
        number,
        content: Text::from_string(content),
        reply,
    })
}
