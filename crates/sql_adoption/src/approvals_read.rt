//! How many units of the office are approved, counted by SQLite.
ghost use Rattle.std.specs.Prelude.{◌≡◌, ◌<◌, false, IfOk, IfSome, sum_by};
ghost use Rattle.sqlite.specs.Held.{state};
ghost use Rattle.office_specification.specs.Approvals.{approvals_in};
ghost use Rattle.sql_schema.specs.Layouts.{by_domain, rows_named};
ghost use Rattle.sql_schema.specs.Whole.{IsIdleOver, IsLookUp};
ghost use Rattle.sql_meaning.specs.Domains.{office_of_rows};
ghost use Rattle.sql_meaning.specs.Values.{natural_at};
ghost use Rattle.sql_statements.specs.SummedVotes.{most_counted};
ghost use Rattle.sql_decoding.specs.DiskFailures.{FailsTruly};
ghost use Rattle.sql_adoption.specs.ApprovalsRead.{AreToldBy};

use crate::look_ups::look_up_approvals;
use office_specification::Approvals;
use sql_decoding::{Failure, natural_in, needed};
use sqlite::{Alter, Connection, Row};
use std::alloc::AllocError;

/// The most that SQL's `count(*)` tells.
const MOST_COUNTED: usize = 9_223_372_036_854_775_807;

/// The sum of the counts in a column. None where a row has none there.
fn sum_at(rows: &[Row], at: usize) -> Option<usize>
    ensures { IfSome result (λ sum. sum ≡ sum_by (natural_at at) rows.now) }
{
    let mut sum = 0_usize;
    for row in rows {
        let count = natural_in(row, at)?;
        sum = sum.checked_add(count)?;
    }
    Some(sum)
}

/// The same. None too where a count may be more than SQL tells.
fn count_at(rows: &[Row], at: usize) -> Option<usize>
    ensures sum { IfSome result (λ count. count ≡ sum_by (natural_at at) rows.now) }
    ensures few { IfSome result (λ count. count < most_counted) }
{
    let sum = sum_at(rows, at)?;
    if sum < MOST_COUNTED { Some(sum) } else { None }
}

/// What rows tell of each domain, taken together. None where one tells none, or the counts are more than SQL tells.
fn counts_told(rows: &[Row]) -> Option<Approvals>
    ensures { IfSome result (λ approvals. AreToldBy rows.now approvals) }
{
    let approved = count_at(rows, 0)?;
    let at_last_revision = count_at(rows, 1)?;
    Some(Approvals {
        approved,
        at_last_revision,
    })
}

/// The same, or a want of memory.
fn approvals_told(rows: &[Row]) -> Result<Approvals, Failure>
    ensures { IfOk result (λ approvals. AreToldBy rows.now approvals) }
{
    match counts_told(rows) {
        Some(approvals) => Ok(approvals),
        None => Err(Failure::from(AllocError)),
    }
}

/// How many units of an office of tables by domains are approved, and how many of these are at the last revision. No unit is read.
///
/// `Memory` where a growth was refused, or a count is past a machine word; `Disk` only where the disk failed; `Refused` where a statement was
/// refused.
pub fn count_approvals<S: Alter>(connection: &mut Connection<S>) -> Result<Approvals, Failure>
    requires autocommit { connection.old.in_transaction ≡ false }
    requires idle { IsIdleOver by_domain (state S.Store connection.old) }
    ensures found { IsLookUp (state S.Store connection.old) (state S.Store connection.new) result
        (λ db approvals. approvals ≡ approvals_in (office_of_rows (rows_named db))) }
    ensures disk { FailsTruly (state S.Store connection.old) (state S.Store connection.new) result }
{
    let rows = look_up_approvals(connection)?;
    needed(approvals_told(rows.as_slice()))
}
