//! Of which domain each row is that has a column for one.

ghost use Rattle.std.specs.Prelude.{◌≡◌, ⊤, false, IsTrue, IfErr};
ghost use Rattle.sqlite.specs.Held.{state};
ghost use Rattle.sqlite.specs.State.{HasCleanDisk};
ghost use Rattle.sql_schema.specs.Layouts.{by_domain};
ghost use Rattle.sql_schema.specs.Whole.{IsIdleOver, IsLookUp};
ghost use Rattle.sql_statements.specs.Owners as spec;
ghost use Rattle.sql_statements.specs.Owners.{owned_name, owned_place, ShowsOwners};
ghost use Rattle.sql_statements.specs.Unrefused.{RefusesNoWalk};
ghost use Rattle.sql_streams.specs.Walks.{HandsOut, FailsTruly};

use sql_streams::{RowSink, WalkFault, walk};
use sqlite::{Alter, Connection};

/// A table by domains whose rows have a column for their domain.
#[derive(Clone, Copy)]
pub enum Owned {
    Template,
    Languages,
    Units,
    Suggestions,
}

/// The text that asks for the domain of each row of a table, in the order of these names.
fn owners_text(table: Owned) -> &'static str
    ensures { result.now ≡ spec.owners_text table }
{
    match table {
        Owned::Template => "SELECT domain FROM d_template ORDER BY domain",
        Owned::Languages => "SELECT domain FROM d_language ORDER BY domain",
        Owned::Units => "SELECT domain FROM d_unit ORDER BY domain",
        Owned::Suggestions => "SELECT domain FROM d_suggestion ORDER BY domain",
    }
}

/// Hands the domain of each row of a table to a sink, in the order of these names, of a connection that is open.
pub fn walk_owners<S: Alter, K: RowSink>(
    connection: &mut Connection<S>,
    table: Owned,
    sink: &mut K,
) -> Result<(), WalkFault<K::Refusal>>
    requires autocommit { connection.old.in_transaction ≡ false }
    requires idle { IsIdleOver by_domain (state S.Store connection.old) }
    requires is_open { HasCleanDisk (state S.Store connection.old) → IsTrue (state S.Store connection.old).is_open }
    ensures handed { HasCleanDisk (state S.Store connection.new)
        → HandsOut K.Took K.Refuses (ShowsOwners (owned_name table) (owned_place table) (state S.Store connection.old).now) sink.old sink.new result }
    ensures looked { IsLookUp (state S.Store connection.old) (state S.Store connection.new) result (λ _ _. ⊤) }
    ensures disk { HasCleanDisk (state S.Store connection.new) → IfErr result (FailsTruly (state S.Store connection.old) (state S.Store connection.new)) }
    ensures errors { RefusesNoWalk (state S.Store connection.old) (state S.Store connection.new) result }
{
    walk(connection, owners_text(table), &[], sink)
}
