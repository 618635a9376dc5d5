//! A language's tally, as its row is read.
ghost use Rattle.std.specs.Prelude.{◌≡◌, true, IfOk, IfErr, OnOk};
ghost use Rattle.sql_meaning.specs.Shown.{shown_tally};
ghost use Rattle.sql_meaning.specs.Values as values;
ghost use Rattle.sql_decoding.specs.RowTests.{holds_integer, is_count, is_tally, IsUnread};

use crate::columns::integer_in;
use crate::faults::Failure;
use office_specification::Tally;
use sqlite::Row;
use tables::Lost;

/// The count in a column. Less than nothing is `Disk`: another program has written the file.
fn count_at(row: &Row, at: usize) -> Result<usize, Failure>
    ensures shown { IfOk result (λ count. count ≡ values.natural_at at row.now) }
    ensures stands { OnOk result (holds_integer is_count at row.now ≡ true) }
    ensures unread { IfErr result (IsUnread (holds_integer is_count at row.now)) }
{
    let number = integer_in(row, at)?;
    if number < 0 {
        Err(Failure { lost: Lost::Disk })
    } else {
        Ok(number as usize)
    }
}

/// The tally of a row that shows untranslated, needing editing, translated, approved, read-only, suggestions and obsolete.
///
/// `Memory` where a growth was refused, and `Disk` exactly where a column holds no count.
pub fn tally_in(row: &Row) -> Result<Tally, Failure>
    ensures shown { IfOk result (λ tally. tally ≡ shown_tally row.now) }
    ensures stands { OnOk result (is_tally row.now ≡ true) }
    ensures unread { IfErr result (IsUnread (is_tally row.now)) }
{
    Ok(Tally {
        approved: count_at(row, 3)?,
        needs_editing: count_at(row, 1)?,
        obsolete: count_at(row, 6)?,
        read_only: count_at(row, 4)?,
        suggestions: count_at(row, 5)?,
        translated: count_at(row, 2)?,
        untranslated: count_at(row, 0)?,
    })
}
