//! Whether each suggestion has a sum that is that of the votes on it.
ghost use Rattle.std.specs.Prelude.{◌≡◌, true, Option, IfOk, IfErr, OnOk, if◌then◌else◌};
ghost use Rattle.std.specs.List.{list_all};
ghost use Rattle.sqlite.specs.Order.{column};
ghost use Rattle.po_text.specs.Texts.{Text};
ghost use Rattle.units.specs.Units.{vote_sum};
ghost use Rattle.sql_schema.specs.Keys.{text_at, has_text};
ghost use Rattle.sql_decoding.specs.RowTests.{holds_text, is_number, IsUnread};
ghost use Rattle.sql_decoding.specs.TablesRead.{votes_of};
ghost use Rattle.sql_adoption.specs.FigureRows as spec;
ghost use Rattle.sql_adoption.specs.FigureRows.{sum_in, sum_shown, is_sum, have_shown_sums, votes_stand};
ghost use Rattle.sql_layouts.specs.RisingRows.{integer_in};

use crate::figure_rows::FigureRows;
use crate::own_domains::bytes_of;
use sql_decoding::{Failure, text_in};
use sql_layouts::integer_of;
use sql_loading::votes_by_number;
use sqlite::Row;
use std::alloc::{AllocError, Global};
use std::collections::BTreeMap;
use units::Votes;

/// Puts the sum of a row under its number.
fn put_sum<'a>(all: &mut BTreeMap<&'a [u8], Option<i64>>, row: &'a Row) -> Result<(), AllocError>
    ensures { OnOk result ((number : Text) → sum_in all.new number
        ≡ (if has_text 0 number row.now then integer_in (column row.now 1) else sum_in all.old number)) }
{
    all.insert(bytes_of(row), integer_of(row, 1))?;
    Ok(())
}

/// The sums of rows, under the numbers of their suggestions.
fn sums_by_number<'a>(
    alloc: Global,
    rows: &'a [Row],
) -> Result<BTreeMap<&'a [u8], Option<i64>>, AllocError>
    ensures { IfOk result (λ all. (number : Text) → sum_in all number ≡ sum_shown rows.now number) }
{
    let mut all = BTreeMap::new(alloc);
    for row in rows {
        put_sum(&mut all, row)?;
    }
    Ok(all)
}

/// What the votes on a number come to.
fn sum_of_votes(alloc: Global, votes: &BTreeMap<String, Votes>, number: &str) -> i64
    ensures { result ≡ vote_sum (votes_of votes.now number.now) }
{
    match votes.get(number) {
        Some(own) => own.sum(),
        None => Votes::new(alloc).sum(),
    }
}

/// The sum that is kept under a number.
fn sum_kept(sums: &BTreeMap<&[u8], Option<i64>>, number: &[u8]) -> Option<i64>
    ensures { result ≡ sum_in sums.now number.now }
{
    match sums.get(number) {
        Some(sum) => *sum,
        None => None,
    }
}

/// Whether a sum is there, and this one.
fn is_sum(kept: Option<i64>, sum: i64) -> bool
    ensures { result ≡ spec.is_sum kept sum }
{
    match kept {
        Some(number) => number == sum,
        None => false,
    }
}

/// Whether the suggestion whose number a row shows has the sum of its votes.
fn has_its_sum(
    alloc: Global,
    votes: &BTreeMap<String, Votes>,
    sums: &BTreeMap<&[u8], Option<i64>>,
    row: &Row,
) -> Result<bool, Failure>
    ensures told { IfOk result (λ has. has ≡ spec.has_its_sum votes.now sums.now row.now) }
    ensures unread { IfErr result (IsUnread (holds_text is_number 0 row.now)) }
{
    let number = text_in(row, 0)?;
    let kept = sum_kept(sums, number.as_str().as_bytes());
    Ok(is_sum(kept, sum_of_votes(alloc, votes, number.as_str())))
}

/// Whether each suggestion has the sum of its votes.
fn have_their_sums(
    alloc: Global,
    votes: &BTreeMap<String, Votes>,
    sums: &BTreeMap<&[u8], Option<i64>>,
    rows: &[Row],
) -> Result<bool, Failure>
    ensures told { IfOk result (λ have. have ≡ list_all (spec.has_its_sum votes.now sums.now) rows.now) }
    ensures unread { IfErr result (IsUnread (list_all (holds_text is_number 0) rows.now)) }
{
    for row in rows {
        if !has_its_sum(alloc, votes, sums, row)? {
            return Ok(false);
        }
    }
    Ok(true)
}

/// Whether each suggestion has a sum among rows that show all, which is that of the votes on it.
///
/// `Memory` where a growth was refused, and `Disk` only where a vote or a suggestion's number stands for no value.
pub(crate) fn are_sums(alloc: Global, rows: &FigureRows) -> Result<bool, Failure>
    ensures told { IfOk result (λ are. are ≡ have_shown_sums rows.now) }
    ensures unread { IfErr result (IsUnread (votes_stand rows.now)) }
{
    let votes = votes_by_number(alloc, rows.votes.as_slice())?;
    let sums = sums_by_number(alloc, rows.sums.as_slice())?;
    have_their_sums(alloc, &votes, &sums, rows.suggestions.as_slice())
}
