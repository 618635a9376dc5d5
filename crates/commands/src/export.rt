//! The PO text of a language, and what is told of it on the second output.
ghost use Rattle.std.specs.Prelude.{◌≡◌, ◌≤◌, ◌⊎◌, option_map, true, false};
ghost use Rattle.byte_streams.specs.Sending.{Sends};
ghost use Rattle.office.specs.Writers.{writer_at, TakesAll, TakesPart};
ghost use Rattle.commands.specs.ExportLines.{export_fault_line, receipt_line, Printed, IsToldBehind};
ghost use Rattle.commands.specs.DeliverLines.{Exported};
ghost use Rattle.tables.specs.RunsOn.{RunsOn};
ghost use Rattle.tables.specs.Stops.{AddsOnly, Nothing};

use crate::numbers::send_number;
use byte_streams::{ByteSink, SinkFault, digest_digits, hand_on, send};
use office::{Desk, ExportFault, ExportReceipt};
use tables::Tables;
use units::{Lang, Name};

/// Exit status of a run that did what it was asked for.
pub const DONE: u8 = 0;

/// Exit status after a named fault, or after a stream that failed.
pub const FAILED: u8 = 1;

/// Writes the line of a fault.
fn send_export_fault<E: ByteSink>(e: &mut E, fault: ExportFault) -> Result<(), SinkFault>
    ensures { Sends E.taken E.failed e.old e.new (export_fault_line fault) result }
{
    send(e, b"export fault ")?;
    send_number(e, fault.number())?;
    send(e, b"\n")?;
    hand_on(e)
}

/// Tells a fault, and answers the exit status.
fn tell_fault<E: ByteSink>(e: &mut E, fault: ExportFault) -> u8
    ensures told { TakesAll (writer_at E.taken E.failed e.old) (writer_at E.taken E.failed e.new) (export_fault_line fault)
        ⊎ TakesPart (writer_at E.taken E.failed e.old) (writer_at E.taken E.failed e.new) (export_fault_line fault) }
    ensures status { result ≡ 1 }
{
    let _ = send_export_fault(e, fault);
    FAILED
}

/// Writes the text of the domain's language, if one is named; a fault is told on the second output.
pub(crate) fn export_named<T: Tables, W: ByteSink, E: ByteSink>(
    desk: &mut Desk<T>,
    w: &mut W,
    e: &mut E,
    domain: &Name,
    lang: Option<&Lang>,
) -> u8
    ensures exported { Exported (T.is_honest desk.new) (T.is_whole desk.new) (T.is_stopped desk.new ≡ true) (T.means desk.old).office domain.now (option_map (λ named. named.now) lang.entry)
        (writer_at W.taken W.failed w.old) (writer_at W.taken W.failed w.new) (writer_at E.taken E.failed e.old) (writer_at E.taken E.failed e.new) result }
    ensures honest { T.is_honest desk.new → T.is_honest desk.old }
    ensures whole { T.is_honest desk.new → T.is_whole desk.new → T.is_whole desk.old }
    ensures same { T.is_honest desk.new → T.is_whole desk.new → T.means desk.new ≡ T.means desk.old }
    // A stop leaves what it might have left before.
    ensures stops { T.is_honest desk.new → AddsOnly (T.may_leave desk.old) (T.may_leave desk.new) Nothing }
    ensures stopped { T.is_stopped desk.old ≡ true → T.is_stopped desk.new ≡ true }
    ensures runs_on { RunsOn T.is_honest T.is_whole T.faults T.is_stopped desk.old desk.new }
{
    match lang {
        None => DONE,
        Some(lang) => match desk.export(domain, lang, w) {
            Ok(_receipt) => DONE,
            Err(fault) => tell_fault(e, fault),
        },
    }
}

/// Writes the line of a receipt.
fn send_receipt<E: ByteSink>(e: &mut E, receipt: ExportReceipt) -> Result<(), SinkFault>
    ensures { Sends E.taken E.failed e.old e.new (receipt_line receipt) result }
{
    send(e, b"bytes ")?;
    send_number(e, receipt.bytes)?;
    send(e, b" sha256 ")?;
    send(e, &digest_digits(receipt.sha256))?;
    send(e, b"\n")
}

/// Hands on what the writer holds back of a text, and then writes the line of its receipt; or tells that the writer failed.
fn tell_written<W: ByteSink, E: ByteSink>(w: &mut W, e: &mut E, receipt: ExportReceipt) -> u8
    ensures told { IsToldBehind (writer_at W.taken W.failed w.old) (writer_at W.taken W.failed w.new)
        (writer_at E.taken E.failed e.old) (writer_at E.taken E.failed e.new) receipt result }
    ensures status { result ≤ 1 }
    ensures handed_on { result ≡ 0 → W.holds_back w.new ≡ false }
{
    match hand_on(w) {
        Ok(()) => match send_receipt(e, receipt) {
            Ok(()) => DONE,
            Err(_) => FAILED,
        },
        Err(_) => tell_fault(e, ExportFault::Device),
    }
}

/// Prints the PO text of a domain's language, hands on what the writer holds back, and then prints a line `bytes B sha256 H` on the second
/// output, the text's length and its SHA-256 digest in lower case; or, where the export failed or the writer did, a line `export fault K` there.
///
/// Answers the exit status: 0, or 1 where the export or a stream failed.
pub fn export_text<T: Tables, W: ByteSink, E: ByteSink>(
    desk: &mut Desk<T>,
    domain: &Name,
    lang: &Lang,
    w: &mut W,
    e: &mut E,
) -> u8
    ensures printed { Printed (T.is_honest desk.new) (T.is_stopped desk.new ≡ true) (T.means desk.old).office domain.now lang.now
        (writer_at W.taken W.failed w.old) (writer_at W.taken W.failed w.new) (writer_at E.taken E.failed e.old) (writer_at E.taken E.failed e.new) result }
    ensures status { result ≤ 1 }
    // Nothing of the text is held back.
    ensures handed_on { result ≡ 0 → W.holds_back w.new ≡ false }
    // The tables are as they were.
    ensures honest { T.is_honest desk.new → T.is_honest desk.old }
    ensures whole { T.is_honest desk.new → T.is_whole desk.new → T.is_whole desk.old }
    ensures same { T.is_honest desk.new → T.is_whole desk.new → T.means desk.new ≡ T.means desk.old }
    // A stop leaves what it might have left before.
    ensures stops { T.is_honest desk.new → AddsOnly (T.may_leave desk.old) (T.may_leave desk.new) Nothing }
    // They run on, and no failure shuts them, unless the disk fails.
    ensures runs_on { RunsOn T.is_honest T.is_whole T.faults T.is_stopped desk.old desk.new }
{
    match desk.export(domain, lang, w) {
        Ok(receipt) => tell_written(w, e, receipt),
        Err(fault) => tell_fault(e, fault),
    }
}
