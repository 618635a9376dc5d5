//! Records, handed on one at a time: in the order in which the office took them, and by number with their contents.

ghost use Rattle.std.specs.Prelude.{◌≡◌, ⊤, false, Some, None, IsTrue, IfErr};
ghost use Rattle.sqlite.specs.Held.{state};
ghost use Rattle.sqlite.specs.State.{HasCleanDisk};
ghost use Rattle.sql_schema.specs.Layouts.{Form};
ghost use Rattle.sql_schema.specs.Whole.{IsIdleOver, IsLookUp};
ghost use Rattle.sql_statements.specs.RecordTable.{ShowsRecords};
ghost use Rattle.sql_statements.specs.RecordsInOrder.{ShowsBehind};
ghost use Rattle.sql_statements.specs.Unrefused.{RefusesNoWalk};
ghost use Rattle.sql_streams.specs.Walks.{HandsOut, FailsTruly};

use sql_streams::{RowSink, WalkFault, walk};
use sqlite::{Alter, Connection, params};

/// Hands all records in order to a sink, each with its number, its reply's status and its place, of a connection that is open.
pub fn walk_records<S: Alter, K: RowSink>(
    connection: &mut Connection<S>,
    sink: &mut K,
) -> Result<(), WalkFault<K::Refusal>>
    requires autocommit { connection.old.in_transaction ≡ false }
    requires idle { (form : Form) × IsIdleOver form (state S.Store connection.old) }
    requires is_open { HasCleanDisk (state S.Store connection.old) → IsTrue (state S.Store connection.old).is_open }
    ensures handed { HasCleanDisk (state S.Store connection.new)
        → HandsOut K.Took K.Refuses (ShowsBehind None (state S.Store connection.old).now) sink.old sink.new result }
    ensures looked { IsLookUp (state S.Store connection.old) (state S.Store connection.new) result (λ _ _. ⊤) }
    ensures disk { HasCleanDisk (state S.Store connection.new) → IfErr result (FailsTruly (state S.Store connection.old) (state S.Store connection.new)) }
    ensures errors { RefusesNoWalk (state S.Store connection.old) (state S.Store connection.new) result }
{
    walk(
        connection,
        "SELECT number, status, rowid FROM record ORDER BY rowid",
        &[],
        sink,
    )
}

/// Hands the records behind a place in order to a sink, each with its number, its reply's status and its place, of a connection that is
/// open.
pub fn walk_records_behind<S: Alter, K: RowSink>(
    connection: &mut Connection<S>,
    place: i64,
    sink: &mut K,
) -> Result<(), WalkFault<K::Refusal>>
    requires autocommit { connection.old.in_transaction ≡ false }
    requires idle { (form : Form) × IsIdleOver form (state S.Store connection.old) }
    requires is_open { HasCleanDisk (state S.Store connection.old) → IsTrue (state S.Store connection.old).is_open }
    ensures handed { HasCleanDisk (state S.Store connection.new)
        → HandsOut K.Took K.Refuses (ShowsBehind (Some place) (state S.Store connection.old).now) sink.old sink.new result }
    ensures looked { IsLookUp (state S.Store connection.old) (state S.Store connection.new) result (λ _ _. ⊤) }
    ensures disk { HasCleanDisk (state S.Store connection.new) → IfErr result (FailsTruly (state S.Store connection.old) (state S.Store connection.new)) }
    ensures errors { RefusesNoWalk (state S.Store connection.old) (state S.Store connection.new) result }
{
    walk(
        connection,
        "SELECT number, status, rowid FROM record WHERE rowid > ?1 ORDER BY rowid",
        params![place],
        sink,
    )
}

/// Hands all records by number to a sink, each with its content, its reply's status and body, and its number, of a connection that is
/// open.
pub fn walk_contents<S: Alter, K: RowSink>(
    connection: &mut Connection<S>,
    sink: &mut K,
) -> Result<(), WalkFault<K::Refusal>>
    requires autocommit { connection.old.in_transaction ≡ false }
    requires idle { (form : Form) × IsIdleOver form (state S.Store connection.old) }
    requires is_open { HasCleanDisk (state S.Store connection.old) → IsTrue (state S.Store connection.old).is_open }
    ensures handed { HasCleanDisk (state S.Store connection.new)
        → HandsOut K.Took K.Refuses (ShowsRecords (state S.Store connection.old).now) sink.old sink.new result }
    ensures looked { IsLookUp (state S.Store connection.old) (state S.Store connection.new) result (λ _ _. ⊤) }
    ensures disk { HasCleanDisk (state S.Store connection.new) → IfErr result (FailsTruly (state S.Store connection.old) (state S.Store connection.new)) }
    ensures errors { RefusesNoWalk (state S.Store connection.old) (state S.Store connection.new) result }
{
    walk(
        connection,
        "SELECT content, status, body, number FROM record ORDER BY number",
        &[],
        sink,
    )
}
