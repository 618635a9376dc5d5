//! An office's desk over a database, and its connection handed back.
ghost use Rattle.std.specs.Prelude.{◌≡◌, false, IfOk, IfErr};
ghost use Rattle.sqlite.specs.Held.{state};
ghost use Rattle.store_commands.specs.Opening.{IsOpened, IsUnopened, IsClosed};
ghost use Rattle.store_sql.specs.TablesInFile.{is_stopped};
ghost use Rattle.store_sql.specs.Tables.{held_by, connection_of};

use office::Desk;
use sqlite::{Alter, Connection};
use std::alloc::Global;
use store_sql::{OpenFault, SqliteTables};
use tables::Tables;

/// Work on the office in a database that is done: the exit status, whether a failure of the disk stopped the tables, and the connection,
/// handed back.
#[derive(Drop)]
pub struct Closed<S: Alter> {
    pub status: u8,
    pub stopped: bool,
    pub connection: Connection<S>,
}

/// An office in a database that can't be opened: why, and the connection, handed back.
#[derive(Drop)]
pub struct Unopened<S: Alter> {
    pub fault: OpenFault,
    pub connection: Connection<S>,
}

/// The desk of the office in a database, as its rows stand. Tables without a column for a domain are converted: those by domains are made
/// beside them, with the same office, in one transaction.
///
/// On a fault the connection is handed back with its rows as before: `Foreign` where they are no office's with its book, in a form
/// that is known, and why; `Memory` where a growth was refused, `Refused` where a statement was, `Disk` only where the disk failed.
pub fn open_desk<S: Alter + Drop>(
    alloc: Global,
    connection: Connection<S>,
) -> Result<Desk<SqliteTables<S>>, Unopened<S>>
    requires autocommit { connection.in_transaction ≡ false }
    ensures opened { IfOk result (λ desk. IsOpened S.Store connection (connection_of S.Store desk)) }
    ensures running { IfOk result (λ desk. is_stopped S.Store (held_by S.Store desk) ≡ false) }
    ensures refused { IfErr result (λ refusal. IsUnopened S.Store connection refusal.connection refusal.fault) }
{
    match SqliteTables::adopt(connection, alloc) {
        Ok(tables) => Ok(Desk::new(alloc, tables)),
        Err((fault, connection)) => Err(Unopened { fault, connection }),
    }
}

/// Closes a desk whose work ended with a status.
pub fn close_desk<S: Alter + Drop>(desk: Desk<SqliteTables<S>>, status: u8) -> Closed<S>
    ensures held { result.connection ≡ connection_of S.Store desk }
    ensures stopped { result.stopped ≡ is_stopped S.Store (held_by S.Store desk) }
    ensures status { result.status ≡ status }
    ensures between { result.connection.in_transaction ≡ false }
    ensures closed { IsClosed (state S.Store result.connection) }
{
    let tables = desk.into_tables();
    let stopped = tables.stopped();
    Closed {
        status,
        stopped,
        connection: tables.into_connection(),
    }
}
