//! How many units of the office are approved, as it is asked of the file.
ghost use Rattle.std.specs.Prelude.{◌≡◌, false};
ghost use Rattle.sqlite.specs.Held.{state};
ghost use Rattle.office_specification.specs.Approvals.{approvals_in};
ghost use Rattle.sql_schema.specs.Layouts.{rows_named};
ghost use Rattle.sql_schema.specs.Whole.{IsLookUp};
ghost use Rattle.sql_meaning.specs.Domains.{office_of_rows};
ghost use Rattle.store_sql.specs.TablesInFile.{KeepsOffice};
ghost use Rattle.sql_decoding.specs.DiskFailures.{FailsTruly};

use office_specification::Approvals;
use sql_adoption::count_approvals;
use sql_decoding::Failure;
use sqlite::{Alter, Connection};

/// How many units of the office are approved, and how many of these are at the last revision. No unit is read.
pub(crate) fn read_approvals<S: Alter>(connection: &mut Connection<S>) -> Result<Approvals, Failure>
    requires autocommit { connection.old.in_transaction ≡ false }
    requires keeps { KeepsOffice (state S.Store connection.old) }
    ensures found { IsLookUp (state S.Store connection.old) (state S.Store connection.new) result
        (λ db approvals. approvals ≡ approvals_in (office_of_rows (rows_named db))) }
    ensures disk { FailsTruly (state S.Store connection.old) (state S.Store connection.new) result }
{
    count_approvals(connection)
}
