//! The conversion of an office's tables without a column for a domain to tables by domains: one transaction.
ghost use Rattle.std.specs.Prelude.{◌≡◌, false, IsTrue};
ghost use Rattle.sqlite.specs.Held.{state};
ghost use Rattle.sqlite.specs.State.{HasCleanDisk};
ghost use Rattle.sql_schema.specs.Layouts.{IsForMain, by_domain};
ghost use Rattle.sql_schema.specs.Whole.{IsIdleOver, IsCommitOf};
ghost use Rattle.sql_adoption.specs.Adoption.{IsAdoptedAs};
ghost use Rattle.sql_layouts.specs.Tables.{form_told};
ghost use Rattle.sql_conversion.specs.Conversion.{Converts};
ghost use Rattle.sql_decoding.specs.DiskFailures.{FailsTruly};

use crate::writing::write_anew;
use sql_adoption::MainOffice;
use sql_commits::finish;
use sql_decoding::Failure;
use sqlite::{Alter, Connection};
use std::alloc::Global;

/// Writes an office that was adopted in tables without a column for a domain into tables by domains beside them, with the sum of the votes on
/// each suggestion and the tally of each language. What the file means stays, and sums and tallies are what counting its rows gives. The
/// tables that were there keep their rows, but for the policy's, which tells the form.
///
/// Where it fails, nothing is changed: `Memory` where a growth was refused, `Refused` where a statement was, `Disk` only where the
/// disk failed.
pub fn convert<S: Alter>(
    connection: &mut Connection<S>,
    alloc: Global,
    adopted: &MainOffice,
) -> Result<(), Failure>
    requires autocommit { connection.old.in_transaction ≡ false }
    requires form { IsForMain (form_told adopted.now.form) }
    requires idle { IsIdleOver (form_told adopted.now.form) (state S.Store connection.old) }
    requires adopted { HasCleanDisk (state S.Store connection.old) → IsTrue (state S.Store connection.old).is_open → IsAdoptedAs (state S.Store connection.old).now adopted.now }
    ensures converted { IsCommitOf by_domain (state S.Store connection.old) (state S.Store connection.new) result Converts }
    ensures disk { FailsTruly (state S.Store connection.old) (state S.Store connection.new) result }
{
    let mut tx = connection.transaction();
    let written = write_anew(&mut tx, alloc, &adopted.maps, adopted.langs.as_slice());
    finish(tx, written)
}
