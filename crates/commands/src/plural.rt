//! `office plural`: the number of the form that a rule gives at each n.

ghost use Rattle.std.specs.Prelude.{◌≡◌, IfOk};
ghost use Rattle.byte_streams.specs.Sending.{Sends};
ghost use Rattle.office.specs.Writers.{writer_at};
ghost use Rattle.commands.specs.PluralLines.{index_line, place, plural_fault_line, index_fault_line, lines_of, fault_of, printed, IsPrinted};

use crate::numbers::send_number;
use byte_streams::{ByteSink, SinkFault, send};
use plural_expr::{EvalFault, PluralFault, PluralForms};
use std::alloc::Global;

/// Writes the line of the form's number at n.
fn send_line<W: ByteSink>(w: &mut W, n: u32, form: u32) -> Result<(), SinkFault>
    ensures { Sends W.taken W.failed w.old w.new (index_line n form) result }
{
    send_number(w, n)?;
    send(w, b" ")?;
    send_number(w, form)?;
    send(w, b"\n")
}

/// Writes ` at `, n and the end of the line.
fn send_place<E: ByteSink>(e: &mut E, n: u32) -> Result<(), SinkFault>
    ensures { Sends E.taken E.failed e.old e.new (place n) result }
{
    send(e, b" at ")?;
    send_number(e, n)?;
    send(e, b"\n")
}

/// Writes the line of a text that is no rule.
fn send_plural_fault<E: ByteSink>(e: &mut E, fault: PluralFault) -> Result<(), SinkFault>
    ensures { Sends E.taken E.failed e.old e.new (plural_fault_line fault) result }
{
    send(e, b"plural fault ")?;
    send_number(e, u32::from(fault.number()))?;
    match fault.at() {
        Some(n) => send_place(e, n),
        None => send(e, b"\n"),
    }
}

/// Writes the line of an n at which there is no form's number.
fn send_index_fault<E: ByteSink>(e: &mut E, fault: EvalFault, n: u32) -> Result<(), SinkFault>
    ensures { Sends E.taken E.failed e.old e.new (index_fault_line fault n) result }
{
    send(e, b"index fault ")?;
    send_number(e, u32::from(fault.number()))?;
    send_place(e, n)
}

/// Writes a line for each n, up to the first at which there is no form's number: the fault there.
fn send_lines<W: ByteSink>(
    w: &mut W,
    forms: &PluralForms,
    ns: &[u32],
) -> Result<Option<(EvalFault, u32)>, SinkFault>
    ensures lines { Sends W.taken W.failed w.old w.new (lines_of forms.now ns.now) result }
    ensures end { IfOk result (λ end. end ≡ fault_of forms.now ns.now) }
{
    for n in ns {
        match forms.index(*n) {
            Ok(form) => send_line(w, *n, form)?,
            Err(fault) => return Ok(Some((fault, *n))),
        }
    }
    Ok(None)
}

/// Prints a line `N INDEX` for each n. A text that is no rule prints `plural fault K`, or
/// `plural fault K at n` where it is a fault at n, on the second output; an n at which there is
/// no form's number prints `index fault K at N` there and ends.
///
/// The answer is the exit status: 0, or 1 for a named fault or a failed stream. Where memory
/// runs out the fault is 6.
pub fn plural_lines<W: ByteSink, E: ByteSink>(
    alloc: Global,
    value: &str,
    ns: &[u32],
    w: &mut W,
    e: &mut E,
) -> u8
    // All is printed, with its status; else a write failed behind a beginning of it, or memory ran out.
    ensures { IsPrinted (printed value.now ns.now) (writer_at W.taken W.failed w.old) (writer_at W.taken W.failed w.new)
        (writer_at E.taken E.failed e.old) (writer_at E.taken E.failed e.new) result }
{
    let forms = match PluralForms::parse(alloc, value) {
        Ok(forms) => forms,
        Err(fault) => {
            let _ = send_plural_fault(e, fault);
            return 1;
        }
    };
    match send_lines(w, &forms, ns) {
        Ok(None) => 0,
        Ok(Some((fault, n))) => {
            let _ = send_index_fault(e, fault, n);
            1
        }
        Err(_) => 1,
    }
}
