//! The records in the order in which the office took them, handed out as their rows come.
ghost use Rattle.std.specs.Prelude.{◌≡◌, ⊤, ℕ, List, false, Some, None, IsTrue};
ghost use Rattle.sqlite.specs.Held.{state};
ghost use Rattle.sqlite.specs.State.{HasCleanDisk};
ghost use Rattle.sql_schema.specs.Layouts.{by_domain};
ghost use Rattle.sql_schema.specs.Whole.{IsIdleOver, IsLookUp};
ghost use Rattle.sql_decoding.specs.DiskFailures.{FailsTruly};
ghost use Rattle.store_sql.specs.RecordsBehind.{HoldsHeads, IsPlaceOf, IsTold, HandsTruly, WereHanded};

use crate::look_ups::{look, look_up};
use crate::questions::PlaceOf;
use sql_columns::number_column;
use sql_decoding::{Failure, integer_in, needed};
use sql_statements::record_queries::{walk_records, walk_records_behind};
use sql_streams::{RowSink, WalkFault};
use sqlite::{Alter, Connection};
use std::alloc::Global;
use tables::Lost;
use uuid::Uuid;

/// Why not all records were handed on. The sink took those before.
#[derive(Drop)]
pub enum HandingFault<R: Drop> {
    /// No record has the number.
    NoRecord,
    /// The tables couldn't be read.
    NoTables(Lost),
    /// The sink refused a record, and says why.
    NoSink(R),
}

/// What a walk that was cut short comes to: the query's failure, or what the sink says.
fn walk_fault<R: Drop>(fault: WalkFault<R>) -> HandingFault<R>
    ensures { IsTold fault result }
{
    match fault {
        WalkFault::NoRows(error) => HandingFault::NoTables(Failure::from(error).lost),
        WalkFault::NoSink(refusal) => HandingFault::NoSink(refusal),
    }
}

/// The place of the record of a number, if there is one.
fn read_place<S: Alter>(
    connection: &mut Connection<S>,
    alloc: Global,
    number: Uuid,
) -> Result<Option<i64>, Failure>
    requires autocommit { connection.old.in_transaction ≡ false }
    requires idle { IsIdleOver by_domain (state S.Store connection.old) }
    ensures found { IsLookUp (state S.Store connection.old) (state S.Store connection.new) result (IsPlaceOf number) }
    ensures disk { FailsTruly (state S.Store connection.old) (state S.Store connection.new) result }
{
    let column = number_column(alloc, number)?;
    let found = look_up(
        connection,
        PlaceOf {
            number: column.as_str(),
        },
    );
    drop(column);
    match found? {
        Some(row) => {
            let place = needed(integer_in(&row, 0));
            drop(row);
            Ok(Some(place?))
        }
        None => Ok(None),
    }
}

/// Hands all records in order to a sink, of a connection that is open.
fn hand_every<S: Alter, K: RowSink>(
    connection: &mut Connection<S>,
    sink: &mut K,
) -> Result<(), HandingFault<K::Refusal>>
    requires autocommit { connection.old.in_transaction ≡ false }
    requires idle { IsIdleOver by_domain (state S.Store connection.old) }
    requires heads { HoldsHeads (state S.Store connection.old) }
    requires is_open { HasCleanDisk (state S.Store connection.old) → IsTrue (state S.Store connection.old).is_open }
    ensures handed { HasCleanDisk (state S.Store connection.new) → WereHanded K.Took K.Refuses None (state S.Store connection.old).now sink.old sink.new result }
    ensures looked { IsLookUp (state S.Store connection.old) (state S.Store connection.new) result (λ _ _. ⊤) }
    ensures disk { HandsTruly (state S.Store connection.old) (state S.Store connection.new) result }
{
    match walk_records(connection, sink) {
        Ok(()) => Ok(()),
        Err(fault) => Err(walk_fault(fault)),
    }
}

/// Hands all records in order to a sink.
fn hand_all<S: Alter, K: RowSink>(
    connection: &mut Connection<S>,
    sink: &mut K,
) -> Result<(), HandingFault<K::Refusal>>
    requires autocommit { connection.old.in_transaction ≡ false }
    requires idle { IsIdleOver by_domain (state S.Store connection.old) }
    requires heads { HoldsHeads (state S.Store connection.old) }
    ensures handed { HasCleanDisk (state S.Store connection.new) → WereHanded K.Took K.Refuses None (state S.Store connection.old).now sink.old sink.new result }
    ensures looked { IsLookUp (state S.Store connection.old) (state S.Store connection.new) result (λ _ _. ⊤) }
    ensures disk { HandsTruly (state S.Store connection.old) (state S.Store connection.new) result }
{
    match look(connection) {
        Ok(()) => hand_every(connection, sink),
        Err(failure) => Err(HandingFault::NoTables(failure.lost)),
    }
}

/// Hands the records behind the place of the record of a number in order to a sink, of a connection that is open.
fn hand_behind<S: Alter, K: RowSink>(
    connection: &mut Connection<S>,
    place: i64,
    sink: &mut K,
) -> Result<(), HandingFault<K::Refusal>>
    requires autocommit { connection.old.in_transaction ≡ false }
    requires idle { IsIdleOver by_domain (state S.Store connection.old) }
    requires heads { HoldsHeads (state S.Store connection.old) }
    requires is_open { HasCleanDisk (state S.Store connection.old) → IsTrue (state S.Store connection.old).is_open }
    ensures handed { (number : List ℕ) → IsPlaceOf number (state S.Store connection.old).now (Some place) → HasCleanDisk (state S.Store connection.new)
        → WereHanded K.Took K.Refuses (Some number) (state S.Store connection.old).now sink.old sink.new result }
    ensures looked { IsLookUp (state S.Store connection.old) (state S.Store connection.new) result (λ _ _. ⊤) }
    ensures disk { HandsTruly (state S.Store connection.old) (state S.Store connection.new) result }
{
    match walk_records_behind(connection, place, sink) {
        Ok(()) => Ok(()),
        Err(fault) => Err(walk_fault(fault)),
    }
}

/// Hands the records behind the record of a number in order to a sink.
fn hand_after<S: Alter, K: RowSink>(
    connection: &mut Connection<S>,
    alloc: Global,
    number: Uuid,
    sink: &mut K,
) -> Result<(), HandingFault<K::Refusal>>
    requires autocommit { connection.old.in_transaction ≡ false }
    requires idle { IsIdleOver by_domain (state S.Store connection.old) }
    requires heads { HoldsHeads (state S.Store connection.old) }
    ensures handed { HasCleanDisk (state S.Store connection.new) → WereHanded K.Took K.Refuses (Some number) (state S.Store connection.old).now sink.old sink.new result }
    ensures looked { IsLookUp (state S.Store connection.old) (state S.Store connection.new) result (λ _ _. ⊤) }
    ensures disk { HandsTruly (state S.Store connection.old) (state S.Store connection.new) result }
{
    match read_place(connection, alloc, number) {
        Ok(Some(place)) => hand_behind(connection, place, sink),
        Ok(None) => Err(HandingFault::NoRecord),
        Err(failure) => Err(HandingFault::NoTables(failure.lost)),
    }
}

/// Hands the records behind the record of a number in order to a sink; where no number is named, all of them. After a fault the sink has
/// taken the first of them, and none where no record has the number.
///
/// Rows are read one at a time, and no transaction is open meanwhile.
pub(crate) fn hand_records<S: Alter, K: RowSink>(
    connection: &mut Connection<S>,
    alloc: Global,
    after: Option<Uuid>,
    sink: &mut K,
) -> Result<(), HandingFault<K::Refusal>>
    requires autocommit { connection.old.in_transaction ≡ false }
    requires idle { IsIdleOver by_domain (state S.Store connection.old) }
    requires heads { HoldsHeads (state S.Store connection.old) }
    ensures handed { HasCleanDisk (state S.Store connection.new) → WereHanded K.Took K.Refuses after (state S.Store connection.old).now sink.old sink.new result }
    ensures looked { IsLookUp (state S.Store connection.old) (state S.Store connection.new) result (λ _ _. ⊤) }
    ensures disk { HandsTruly (state S.Store connection.old) (state S.Store connection.new) result }
{
    match after {
        Some(number) => hand_after(connection, alloc, number, sink),
        None => hand_all(connection, sink),
    }
}
