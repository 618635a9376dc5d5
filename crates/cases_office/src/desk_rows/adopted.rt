//! Tables on SQLite that a statement has changed, taken over as they stand.
ghost use Rattle.std.specs.Prelude.{◌≡◌, false};

use sqlite::{Alter, Connection};
use std::alloc::Global;
use store_sql::{Mismatch, OpenFault, SqliteTables, Start};

fn fault_told(fault: OpenFault) -> &'static str {
    match fault {
        OpenFault::Memory => "out of memory",
        OpenFault::Disk => "the disk failed",
        OpenFault::Foreign(Mismatch::OtherTables) => "other tables",
        OpenFault::Foreign(Mismatch::OtherForm) => "another form",
        OpenFault::Foreign(Mismatch::UnreadRow) => "an unread row",
        OpenFault::Foreign(Mismatch::OtherFigures) => "other figures",
        OpenFault::Foreign(Mismatch::BrokenRules) => "broken rules",
        OpenFault::Exists => "an office",
        OpenFault::Refused => "a refusal",
    }
}

/// A connection on which the demo's tables are made.
fn demo<S: Alter + Drop>(alloc: Global, connection: Connection<S>) -> Option<Connection<S>>
    requires { connection.in_transaction ≡ false }
{
    match SqliteTables::create(connection, alloc, &Start::Demo) {
        Ok(tables) => Some(tables.into_connection()),
        Err((_, connection)) => {
            drop(connection);
            None
        }
    }
}

/// What comes of taking over a connection's tables.
fn taken<S: Alter + Drop>(alloc: Global, connection: Connection<S>) -> &'static str {
    if !connection.is_autocommit() {
        drop(connection);
        return "a transaction";
    }
    match SqliteTables::adopt(connection, alloc) {
        Ok(tables) => {
            drop(tables);
            "adopted"
        }
        Err((fault, connection)) => {
            drop(connection);
            fault_told(fault)
        }
    }
}

/// What comes of taking over the demo's tables, which are made on this connection, once a statement has changed them.
fn adopted_on<S: Alter + Drop>(
    alloc: Global,
    connection: Connection<S>,
    statement: &str,
) -> Option<&'static str>
    requires { connection.in_transaction ≡ false }
{
    let mut connection = demo(alloc, connection)?;
    if connection.execute(statement, &[]).is_ok() {
        return Some(taken(alloc, connection));
    }
    drop(connection);
    Some("a refused statement")
}

/// The same on SQLite in memory.
pub(crate) fn adopted(alloc: Global, statement: &str) -> Option<String> {
    match Connection::open_in_memory(alloc) {
        Ok(connection) => String::from_str(alloc, adopted_on(alloc, connection, statement)?).ok(),
        Err(_) => None,
    }
}
