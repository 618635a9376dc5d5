//! `office records --store`: the records of an office in the order in which it took them.
ghost use Rattle.std.specs.Prelude.{◌≡◌, ◌≤◌, false, true, IfErr, OnOk, IsTrue};
ghost use Rattle.sqlite.specs.Held.{state};
ghost use Rattle.sqlite.specs.State.{HasCleanDisk};
ghost use Rattle.byte_streams.specs.Sending.{Sends};
ghost use Rattle.office.specs.Writers.{writer_at};
ghost use Rattle.tables.specs.RunsOn.{RunsOn};
ghost use Rattle.store_sql.specs.TablesInFile.{is_honest, is_whole, faults, is_stopped};
ghost use Rattle.store_sql.specs.Tables.{connection_of, held_by};
ghost use Rattle.store_commands.specs.declared.records.RecordsFault.TheVariants.{Disk};
ghost use Rattle.store_commands.specs.Faults.{TellsLine};
ghost use Rattle.store_commands.specs.Opening.{StoppedTruly};
ghost use Rattle.store_commands.specs.Records.{ArePrinted, Printed, records_fault_line};
ghost use Rattle.store_commands.specs.Runs.{Ran};

use crate::faults::{send_line, tell_store_fault};
use crate::opening::{Closed, Unopened, close_desk, open_desk};
use crate::record_lines::{RecordLines, handing_fault};
use byte_streams::{ByteSink, SinkFault, hand_on};
use commands::{DONE, FAILED};
use office::Desk;
use sqlite::{Alter, Connection};
use std::alloc::Global;
use store_sql::SqliteTables;
use uuid::Uuid;

/// Why not all lines were printed. After `NoRecord` the writer has taken nothing, and after the others a beginning of the lines.
#[derive(Clone, Copy, Debug, Drop, PartialEq, Eq)]
pub enum RecordsFault {
    /// No record has the number.
    NoRecord,
    /// A write of the writer failed.
    Device,
    /// A growth was refused.
    Memory,
    /// The disk failed under the tables.
    Disk,
    /// The file refused what was asked of it.
    Refused,
}

fn send_records_fault<E: ByteSink>(e: &mut E, fault: RecordsFault) -> Result<(), SinkFault>
    ensures { Sends E.taken E.failed e.old e.new (records_fault_line fault) result }
{
    match fault {
        RecordsFault::NoRecord => send_line(e, b"records fault 1\n"),
        RecordsFault::Device => send_line(e, b"records fault 2\n"),
        RecordsFault::Memory => send_line(e, b"records fault 3\n"),
        RecordsFault::Disk => send_line(e, b"records fault 4\n"),
        RecordsFault::Refused => send_line(e, b"records fault 5\n"),
    }
}

/// Tells why not all lines were printed: a line `records fault K`, K being the fault's number.
///
/// Answers the exit status, which is 1.
fn tell_records_fault<E: ByteSink>(e: &mut E, fault: RecordsFault) -> u8
    ensures told { TellsLine (writer_at E.taken E.failed e.old) (writer_at E.taken E.failed e.new) (records_fault_line fault) }
    ensures status { result ≡ 1 }
{
    let _ = send_records_fault(e, fault);
    FAILED
}

/// Prints the lines of the records behind the one of a number; where none is named, of all.
fn print_lines<S: Alter, W: ByteSink>(
    alloc: Global,
    tables: &mut SqliteTables<S>,
    after: Option<Uuid>,
    w: &mut W,
) -> Result<(), RecordsFault>
    ensures printed { HasCleanDisk (state S.Store (connection_of S.Store tables.new)) → ArePrinted after (state S.Store (connection_of S.Store tables.old)).now
        (writer_at W.taken W.failed w.old) (writer_at W.taken W.failed w.new) result }
    ensures disk { HasCleanDisk (state S.Store (connection_of S.Store tables.new)) → IfErr result (λ fault. fault ≡ Disk → is_stopped S.Store (held_by S.Store tables.new) ≡ true) }
    ensures same { HasCleanDisk (state S.Store (connection_of S.Store tables.new)) → IsTrue (state S.Store (connection_of S.Store tables.new)).is_open
        → (state S.Store (connection_of S.Store tables.new)).now ≡ (state S.Store (connection_of S.Store tables.old)).now }
    ensures runs_on { RunsOn (is_honest S.Store) (is_whole S.Store) (faults S.Store) (is_stopped S.Store) (held_by S.Store tables.old) (held_by S.Store tables.new) }
{
    let mut lines = RecordLines::new(alloc, w);
    match tables.each_record(after, &mut lines) {
        Ok(()) => Ok(()),
        Err(fault) => Err(handing_fault(fault)),
    }
}

/// Prints them, and hands on what the writer holds back.
fn print_whole<S: Alter, W: ByteSink>(
    alloc: Global,
    tables: &mut SqliteTables<S>,
    after: Option<Uuid>,
    w: &mut W,
) -> Result<(), RecordsFault>
    ensures printed { HasCleanDisk (state S.Store (connection_of S.Store tables.new)) → ArePrinted after (state S.Store (connection_of S.Store tables.old)).now
        (writer_at W.taken W.failed w.old) (writer_at W.taken W.failed w.new) result }
    ensures handed_on { OnOk result (W.holds_back w.new ≡ false) }
    ensures disk { HasCleanDisk (state S.Store (connection_of S.Store tables.new)) → IfErr result (λ fault. fault ≡ Disk → is_stopped S.Store (held_by S.Store tables.new) ≡ true) }
    ensures same { HasCleanDisk (state S.Store (connection_of S.Store tables.new)) → IsTrue (state S.Store (connection_of S.Store tables.new)).is_open
        → (state S.Store (connection_of S.Store tables.new)).now ≡ (state S.Store (connection_of S.Store tables.old)).now }
    ensures runs_on { RunsOn (is_honest S.Store) (is_whole S.Store) (faults S.Store) (is_stopped S.Store) (held_by S.Store tables.old) (held_by S.Store tables.new) }
{
    print_lines(alloc, tables, after, w)?;
    match hand_on(w) {
        Ok(()) => Ok(()),
        Err(_) => Err(RecordsFault::Device),
    }
}

/// The same; a fault is told on the second output.
fn print_records<S: Alter, W: ByteSink, E: ByteSink>(
    alloc: Global,
    tables: &mut SqliteTables<S>,
    after: Option<Uuid>,
    w: &mut W,
    e: &mut E,
) -> u8
    ensures printed { Printed (HasCleanDisk (state S.Store (connection_of S.Store tables.new))) (is_stopped S.Store (held_by S.Store tables.new) ≡ true) after (state S.Store (connection_of S.Store tables.old)).now
        (writer_at W.taken W.failed w.old) (writer_at W.taken W.failed w.new) (writer_at E.taken E.failed e.old) (writer_at E.taken E.failed e.new) result }
    ensures status { result ≤ 1 }
    ensures handed_on { result ≡ 0 → W.holds_back w.new ≡ false }
    ensures same { HasCleanDisk (state S.Store (connection_of S.Store tables.new)) → IsTrue (state S.Store (connection_of S.Store tables.new)).is_open
        → (state S.Store (connection_of S.Store tables.new)).now ≡ (state S.Store (connection_of S.Store tables.old)).now }
    ensures runs_on { RunsOn (is_honest S.Store) (is_whole S.Store) (faults S.Store) (is_stopped S.Store) (held_by S.Store tables.old) (held_by S.Store tables.new) }
{
    match print_whole(alloc, tables, after, w) {
        Ok(()) => DONE,
        Err(fault) => tell_records_fault(e, fault),
    }
}

/// Opens the office in a database, prints a line `{"number":"N","status":K}` for each record behind the one of a number, in the order in which the
/// office took them, hands on what the writer holds back, and closes the office; where no number is named, a line for each record. Where not all
/// lines were printed, a line `records fault K` is written on the second output, and where the office can't be opened a line `store fault K`.
///
/// Answers the exit status: 0, or 1 after a fault or where a stream failed; whether a failure of the disk stopped the tables; and the
/// connection.
pub fn records_store<S: Alter + Drop, W: ByteSink, E: ByteSink>(
    alloc: Global,
    connection: Connection<S>,
    after: Option<Uuid>,
    w: &mut W,
    e: &mut E,
) -> Closed<S>
    requires autocommit { connection.in_transaction ≡ false }
    // The lines are those of the office that was opened, whose rows are afterwards as they were. It is told that the disk failed where the
    // tables were stopped, and they are only where it failed since they were opened. Where the office can't be opened, none ran.
    ensures printed { Ran S.Store
        (λ opened. Printed (HasCleanDisk (state S.Store result.connection)) (result.stopped ≡ true) after (state S.Store opened).now
        (writer_at W.taken W.failed w.old) (writer_at W.taken W.failed w.new) (writer_at E.taken E.failed e.old) (writer_at E.taken E.failed e.new) result.status
        × (HasCleanDisk (state S.Store result.connection) → IsTrue (state S.Store result.connection).is_open → (state S.Store result.connection).now ≡ (state S.Store opened).now)
        × StoppedTruly (result.stopped ≡ true) (state S.Store opened) (state S.Store result.connection))
        ((result.stopped ≡ false) × (w.new ≡ w.old))
        connection result.connection (writer_at E.taken E.failed e.old) (writer_at E.taken E.failed e.new) result.status }
    ensures status { result.status ≤ 1 }
    // Nothing of the lines is held back.
    ensures handed_on { result.status ≡ 0 → W.holds_back w.new ≡ false }
    ensures between { result.connection.in_transaction ≡ false }
{
    match open_desk(alloc, connection) {
        Ok(desk) => {
            let mut tables = desk.into_tables();
            let status = print_records(alloc, &mut tables, after, w, e);
            close_desk(Desk::new(alloc, tables), status)
        }
        Err(Unopened { fault, connection }) => Closed {
            status: tell_store_fault(e, fault),
            stopped: false,
            connection,
        },
    }
}
