//! A language's counts, as they are read: its tally keeps them.
ghost use Rattle.std.specs.Prelude.{◌≡◌, false};
ghost use Rattle.sqlite.specs.Held.{state};
ghost use Rattle.units.specs.Office.{project_in};
ghost use Rattle.office_specification.specs.Tally.{counts_of};
ghost use Rattle.sql_schema.specs.Layouts.{rows_named};
ghost use Rattle.sql_schema.specs.Whole.{IsLookUp};
ghost use Rattle.sql_meaning.specs.Domains.{office_of_rows};
ghost use Rattle.store_sql.specs.TablesInFile.{KeepsOffice};
ghost use Rattle.sql_decoding.specs.DiskFailures.{FailsTruly};

use crate::look_ups::look_up;
use crate::questions::TallyOf;
use office_specification::Tally;
use sql_decoding::{Failure, needed, tally_in};
use sqlite::{Alter, Connection};
use units::{Lang, Name};

/// How many units of a domain's language callers see in each state. None, where the domain or its language isn't there. No unit is read.
pub(crate) fn read_tally<S: Alter>(
    connection: &mut Connection<S>,
    domain: &Name,
    lang: &Lang,
) -> Result<Option<Tally>, Failure>
    requires autocommit { connection.old.in_transaction ≡ false }
    requires keeps { KeepsOffice (state S.Store connection.old) }
    ensures found { IsLookUp (state S.Store connection.old) (state S.Store connection.new) result
        (λ db counts. counts ≡ counts_of (project_in (office_of_rows (rows_named db)) domain.now) lang.now) }
    ensures disk { FailsTruly (state S.Store connection.old) (state S.Store connection.new) result }
{
    let found = look_up(
        connection,
        TallyOf {
            domain: domain.as_str(),
            lang: lang.as_str(),
        },
    )?;
    match found {
        Some(row) => {
            let tally = needed(tally_in(&row));
            drop(row);
            Ok(Some(tally?))
        }
        None => Ok(None),
    }
}
