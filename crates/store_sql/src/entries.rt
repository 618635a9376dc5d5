//! The entries of a domain's language, handed out as their rows come.
ghost use Rattle.std.specs.Prelude.{◌≡◌, ⊤, false};
ghost use Rattle.sqlite.specs.Held.{state};
ghost use Rattle.sqlite.specs.State.{HasCleanDisk};
ghost use Rattle.units.specs.Office.{project_in};
ghost use Rattle.tables.specs.Entries.{entries_of};
ghost use Rattle.sql_schema.specs.Layouts.{rows_named};
ghost use Rattle.sql_schema.specs.Whole.{IsLookUp};
ghost use Rattle.sql_meaning.specs.Domains.{office_of_rows};
ghost use Rattle.sql_exports.specs.Handing.{Gives, CutsTruly};
ghost use Rattle.store_sql.specs.TablesInFile.{KeepsOffice};

use crate::look_ups::look;
use sql_exports::export_entries;
use sqlite::{Alter, Connection};
use std::alloc::Global;
use tables::{EachFault, EntrySink};
use units::{Lang, Name};

/// Hands the entries of a domain's language to a sink. None, where the domain or its language isn't there.
pub(crate) fn hand_entries<S: Alter, K: EntrySink>(
    connection: &mut Connection<S>,
    alloc: Global,
    domain: &Name,
    lang: &Lang,
    sink: &mut K,
) -> Result<(), EachFault<K::Refusal>>
    requires autocommit { connection.old.in_transaction ≡ false }
    requires keeps { KeepsOffice (state S.Store connection.old) }
    ensures handed { HasCleanDisk (state S.Store connection.new) → Gives K.Took K.Refuses sink.old sink.new
        (entries_of (project_in (office_of_rows (rows_named (state S.Store connection.old).now)) domain.now) lang.now) result }
    ensures looked { IsLookUp (state S.Store connection.old) (state S.Store connection.new) result (λ _ _. ⊤) }
    ensures disk { CutsTruly (state S.Store connection.old) (state S.Store connection.new) result }
{
    match look(connection) {
        Ok(()) => export_entries(connection, alloc, domain.as_str(), lang, sink),
        Err(failure) => Err(EachFault::NoTables(failure.lost)),
    }
}
