//! `office init`: an office in a new database.
ghost use Rattle.std.specs.Prelude.{◌≡◌, ◌≤◌, false, MatchOption};
ghost use Rattle.sqlite.specs.Held.{Held};
ghost use Rattle.office.specs.Writers.{writer_at};
ghost use Rattle.store_commands.specs.Init.{Initialised, Said, ready_line};

use crate::faults::{send_line, tell_store_fault};
use crate::opening::Closed;
use byte_streams::ByteSink;
use commands::FAILED;
use sqlite::{Alter, Connection};
use std::alloc::Global;
use store_sql::{SqliteTables, Start};

/// Exit status of a run that did what it was asked for.
const DONE: u8 = 0;

/// Prints `ready`, for an office that was made and whose file is closed, and hands it on. Answers the exit status: 0, or 1 after a failed write.
pub fn say_ready<W: ByteSink>(w: &mut W) -> u8
    ensures said { Said (writer_at W.taken W.failed w.old) (writer_at W.taken W.failed w.new) result }
    // It isn't held back.
    ensures handed_on { result ≡ 0 → W.holds_back w.new ≡ false }
{
    match send_line(w, b"ready\n") {
        Ok(()) => DONE,
        Err(_) => FAILED,
    }
}

/// Makes the office of a start in a database that has nothing in it; or, where that fails, writes a line `store fault K` on the second
/// output, or `store: exists` where an office is there already. Then no table is made: the rows are as before.
///
/// Answers the exit status, 0, or 1 after a fault; and the connection, which the caller closes before it says that the office is ready.
pub fn init_store<S: Alter + Drop, E: ByteSink>(
    alloc: Global,
    connection: Connection<S>,
    start: &Start,
    e: &mut E,
) -> Closed<S>
    requires autocommit { connection.in_transaction ≡ false }
    ensures initialised { Initialised S.Store start.now connection result.connection
        (writer_at E.taken E.failed e.old) (writer_at E.taken E.failed e.new) result.status }
    // No tables ran that a failure of the disk could stop.
    ensures stopped { result.stopped ≡ false }
    ensures between { result.connection.in_transaction ≡ false }
{
    match SqliteTables::create(connection, alloc, start) {
        Ok(tables) => Closed {
            status: DONE,
            stopped: false,
            connection: tables.into_connection(),
        },
        Err((fault, connection)) => Closed {
            status: tell_store_fault(e, fault),
            stopped: false,
            connection,
        },
    }
}
