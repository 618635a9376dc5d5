//! `office deliver --store` and `office export --store`: work on the office in a database.
ghost use Rattle.std.specs.Prelude.{◌≡◌, ◌≤◌, false, true, List, ℕ, IsTrue, IfSome, option_map};
ghost use Rattle.sqlite.specs.Held.{Held, state};
ghost use Rattle.sqlite.specs.State.{HasCleanDisk};
ghost use Rattle.tables.specs.RunsOn.{RunsOn};
ghost use Rattle.store_commands.specs.Opening.{running_meaning, MayMean, StoppedTruly};
ghost use Rattle.office.specs.Writers.{writer_at};
ghost use Rattle.commands.specs.DeliverLines.{LeavesMeaning, Delivered};
ghost use Rattle.commands.specs.ExportLines.{Printed};
ghost use Rattle.commands.specs.Gathering.{Finished};
ghost use Rattle.store_commands.specs.Runs.{Ran};

use crate::faults::tell_store_fault;
use crate::opening::{Closed, Unopened, close_desk, open_desk};
use byte_streams::{ByteSink, hand_on};
use commands::{AtLost, FAILED, SourceBehind, deliver_lines, export_text};
use office::Desk;
use sqlite::{Alter, Connection};
use std::alloc::Global;
use tables::Tables;
use units::{Lang, Name};

/// Opens the office in a database, delivers each line of the source to it and writes the answers, as `deliver_lines` does, and closes it. Where
/// the office can't be opened, a line `store fault K` is written on `faults`, and nothing is read.
///
/// Answers the exit status: 0, or 1 after a fault, where a stream failed or where the list ended at a lost line; whether a failure of the disk
/// stopped the tables; and the connection.
pub fn deliver_store<S: Alter + Drop, R: SourceBehind<W>, W: ByteSink, E: ByteSink>(
    alloc: Global,
    connection: Connection<S>,
    source: &mut R,
    replies: &mut W,
    faults: &mut E,
    domain: &Name,
    lang: Option<&Lang>,
    at_lost: AtLost,
) -> Closed<S>
    requires autocommit { connection.in_transaction ≡ false }
    // What the connection's rows meant behind the lines is what these left, behind the office that was opened, and the export is of that. A stop
    // loses no request that a line's answer gave a reply to, also where a failed disk shut the connection behind it. A line is
    // told that the disk failed where the tables were stopped, and they are only where it failed since they were opened. Where the office can't
    // be opened, none ran.
    ensures delivered { Ran S.Store
        (λ opened. (text : List ℕ) × IfSome (R.left source.old) (λ all. text ≡ all)
        × (between : Held S) × LeavesMeaning (HasCleanDisk (state S.Store result.connection)) (IsTrue (state S.Store between).is_open) (IsTrue (state S.Store result.connection).is_open)
        (running_meaning (state S.Store between)) (running_meaning (state S.Store result.connection))
        × Delivered at_lost (W.holds_back replies.new ≡ false) (HasCleanDisk (state S.Store result.connection)) (IsTrue (state S.Store between).is_open) (IsTrue (state S.Store result.connection).is_open)
        (result.stopped ≡ true) (IsTrue (state S.Store opened).is_open) (MayMean (state S.Store opened)) (MayMean (state S.Store result.connection)) (running_meaning (state S.Store opened)) (running_meaning (state S.Store between)) (running_meaning (state S.Store result.connection)) domain.now
        (option_map (λ named. named.now) lang.entry) text (R.failed source.old) (R.failed source.new)
        (writer_at W.taken W.failed replies.old) (writer_at W.taken W.failed replies.new)
        (writer_at E.taken E.failed faults.old) (writer_at E.taken E.failed faults.new) result.status
        × StoppedTruly (result.stopped ≡ true) (state S.Store opened) (state S.Store result.connection))
        ((result.stopped ≡ false) × (source.new ≡ source.old) × (replies.new ≡ replies.old))
        connection result.connection (writer_at E.taken E.failed faults.old) (writer_at E.taken E.failed faults.new) result.status }
    ensures status { result.status ≤ 1 }
    // Nothing of the answers and of the text is held back.
    ensures handed_on { result.status ≡ 0 → W.holds_back replies.new ≡ false }
    ensures between { result.connection.in_transaction ≡ false }
{
    match open_desk(alloc, connection) {
        Ok(mut desk) => {
            let status = deliver_lines(
                alloc, &mut desk, source, replies, faults, domain, lang, at_lost,
            );
            close_desk(desk, status)
        }
        Err(Unopened { fault, connection }) => Closed {
            status: tell_store_fault(faults, fault),
            stopped: false,
            connection,
        },
    }
}

/// Prints the text of a domain's language and its receipt, and hands on what the writer holds back.
fn export_whole<T: Tables, W: ByteSink, E: ByteSink>(
    desk: &mut Desk<T>,
    domain: &Name,
    lang: &Lang,
    w: &mut W,
    e: &mut E,
) -> u8
    ensures printed { Finished (W.holds_back w.new ≡ false) (λ old new exit. Printed (T.is_honest desk.new) (T.is_stopped desk.new ≡ true) (T.means desk.old).office domain.now lang.now
        old new (writer_at E.taken E.failed e.old) (writer_at E.taken E.failed e.new) exit)
        (writer_at W.taken W.failed w.old) (writer_at W.taken W.failed w.new) result }
    ensures status { result ≤ 1 }
    ensures handed_on { result ≡ 0 → W.holds_back w.new ≡ false }
    ensures same { T.is_honest desk.new → T.is_whole desk.new → T.means desk.new ≡ T.means desk.old }
    ensures runs_on { RunsOn T.is_honest T.is_whole T.faults T.is_stopped desk.old desk.new }
{
    let status = export_text(desk, domain, lang, w, e);
    match hand_on(w) {
        Ok(()) => status,
        Err(_) => FAILED,
    }
}

/// Opens the office in a database, prints the text of a domain's language and, on the second output, its receipt, as `export_text` does, hands on
/// what the writer holds back, and closes the office. Where it can't be opened, a line `store fault K` is written on the second output.
///
/// Answers the exit status: 0, or 1 after a fault or where a stream failed; whether a failure of the disk stopped the tables; and the
/// connection.
pub fn export_store<S: Alter + Drop, W: ByteSink, E: ByteSink>(
    alloc: Global,
    connection: Connection<S>,
    domain: &Name,
    lang: &Lang,
    w: &mut W,
    e: &mut E,
) -> Closed<S>
    requires autocommit { connection.in_transaction ≡ false }
    // The rows mean afterwards what they meant when the office was opened, and the text is that office's. It is told that the disk failed
    // where the tables were stopped, and they are only where it failed since they were opened. Where the office can't be opened, none ran.
    ensures exported { Ran S.Store
        (λ opened. Finished (W.holds_back w.new ≡ false) (λ old new exit. Printed (HasCleanDisk (state S.Store result.connection)) (result.stopped ≡ true)
        (running_meaning (state S.Store opened)).office domain.now lang.now
        old new (writer_at E.taken E.failed e.old) (writer_at E.taken E.failed e.new) exit)
        (writer_at W.taken W.failed w.old) (writer_at W.taken W.failed w.new) result.status
        × (HasCleanDisk (state S.Store result.connection) → IsTrue (state S.Store result.connection).is_open
        → running_meaning (state S.Store result.connection) ≡ running_meaning (state S.Store opened))
        × StoppedTruly (result.stopped ≡ true) (state S.Store opened) (state S.Store result.connection))
        ((result.stopped ≡ false) × (w.new ≡ w.old))
        connection result.connection (writer_at E.taken E.failed e.old) (writer_at E.taken E.failed e.new) result.status }
    ensures status { result.status ≤ 1 }
    // Nothing of the text is held back.
    ensures handed_on { result.status ≡ 0 → W.holds_back w.new ≡ false }
    ensures between { result.connection.in_transaction ≡ false }
{
    match open_desk(alloc, connection) {
        Ok(mut desk) => {
            let status = export_whole(&mut desk, domain, lang, w, e);
            close_desk(desk, status)
        }
        Err(Unopened { fault, connection }) => Closed {
            status: tell_store_fault(e, fault),
            stopped: false,
            connection,
        },
    }
}
