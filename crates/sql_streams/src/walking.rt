//! The walk.

ghost use Rattle.std.specs.Prelude.{◌≡◌, false, IfErr, OnOk, IsTrue};
ghost use Rattle.sqlite.specs.Order.{Row as RowValue};
ghost use Rattle.sqlite.specs.Given.{IsPlain};
ghost use Rattle.sqlite.specs.Held.{state};
ghost use Rattle.sqlite.specs.Listing.{understood};
ghost use Rattle.sqlite.specs.State.{HasCleanDisk, Survives};
ghost use Rattle.sqlite.specs.Values.{bound};
ghost use Rattle.sql_streams.specs.Walks.{TookAll, TookFront, StaysPut, FailsTruly, FailsAsQuery};

use crate::sink::RowSink;
use sqlite::types::ValueRef;
use sqlite::{Alter, Connection, Error, ErrorCode};

/// Why not all rows were taken. The sink took those before.
#[derive(Drop)]
pub enum WalkFault<R: Drop> {
    /// The query failed.
    NoRows(Error),
    /// The sink refused a row, and says why.
    NoSink(R),
}

/// Hands the rows of a query to a sink, each before the next is fetched. Where the query fails it fails as it may before its first row, or
/// memory was wanting.
pub fn walk<S: Alter, K: RowSink>(
    connection: &mut Connection<S>,
    sql: &str,
    params: &[ValueRef<'_>],
    sink: &mut K,
) -> Result<(), WalkFault<K::Refusal>>
    requires plain { HasCleanDisk (state S.Store connection.old) → IsPlain (understood connection.old.schema sql.now) }
    ensures all { HasCleanDisk (state S.Store connection.new) → OnOk result
        (TookAll K.Took sql.now (bound params.now) (state S.Store connection.old) sink.old sink.new) }
    ensures cut { HasCleanDisk (state S.Store connection.new) → IfErr result
        (TookFront K.Took K.Refuses sql.now (bound params.now) (state S.Store connection.old) sink.old sink.new) }
    ensures stays { HasCleanDisk (state S.Store connection.new) → IsTrue (state S.Store connection.new).is_open
        → StaysPut (state S.Store connection.old) (state S.Store connection.new) }
    ensures is_open { HasCleanDisk (state S.Store connection.new) → OnOk result (IsTrue (state S.Store connection.new).is_open) }
    ensures mode { connection.old.in_transaction ≡ false → connection.new.in_transaction ≡ false }
    ensures survives { Survives (state S.Store connection.old) (state S.Store connection.new) (λ _. ⊥) }
    ensures disk { HasCleanDisk (state S.Store connection.new) → IfErr result (FailsTruly (state S.Store connection.old) (state S.Store connection.new)) }
    ensures errors { HasCleanDisk (state S.Store connection.new) → IfErr result
        (FailsAsQuery sql.now (bound params.now) (state S.Store connection.old) (state S.Store connection.new)) }
{
    let mut rows = match connection.query(sql, params) {
        Ok(rows) => rows,
        Err(error) => return Err(WalkFault::NoRows(error)),
    };
    'rows: for _ in 0..u64::MAX {
        if let Err(error) = rows.advance() {
            return Err(WalkFault::NoRows(error));
        }
        let Some(row) = rows.get() else {
            return Ok(());
        };
        if let Err(refusal) = sink.take(row) {
            return Err(WalkFault::NoSink(refusal));
        }
    }
    Err(WalkFault::NoRows(Error::SqliteFailure(ErrorCode::OutOfMemory)))
}
