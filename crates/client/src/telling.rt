//! What is told of a list that was sent, and of one that wasn't.

ghost use Rattle.std.specs.Prelude.{◌≡◌, length, cond, option_map};
ghost use Rattle.byte_streams.specs.Sending.{Sends, TookAll, TookPart};
ghost use Rattle.client.specs.SendLines.{reply_line, told_line, told_lines, malformed_line, fault_line, IsTold};

use crate::fault::SendFault;
use byte_streams::{ByteSink, SinkFault, send};
use itoa::{Buffer, Integer};
use request_book::Reply;
use sender::Sender;

/// The exit status where each request has a reply.
const DONE: u8 = 0;

/// The exit status after a fault, after a stream that failed, or where a request has no reply.
pub(crate) const FAILED: u8 = 1;

/// Writes a number in decimal digits.
fn send_number<W: ByteSink, N: Integer>(w: &mut W, number: N) -> Result<(), SinkFault>
    ensures { Sends W.taken W.failed w.old w.new (N.text number) result }
{
    let mut buffer = Buffer::new();
    let digits = buffer.format(number);
    send(w, digits.as_bytes())
}

/// Writes `STATUS BODY`.
fn send_reply<W: ByteSink>(w: &mut W, reply: &Reply) -> Result<(), SinkFault>
    ensures { Sends W.taken W.failed w.old w.new (reply_line reply.now) result }
{
    send_number(w, reply.status())?;
    send(w, b" ")?;
    send(w, reply.body().as_bytes())?;
    send(w, b"\n")
}

/// Writes what is held for a request.
fn send_told<W: ByteSink>(w: &mut W, reply: Option<&Reply>) -> Result<(), SinkFault>
    ensures { Sends W.taken W.failed w.old w.new (told_line (option_map (λ held. held.now) reply.entry)) result }
{
    match reply {
        Some(reply) => send_reply(w, reply),
        None => send(w, b"none\n"),
    }
}

/// Writes what is held for each request of a sender, which are so many.
fn send_all_told<W: ByteSink>(w: &mut W, sender: &Sender, count: usize) -> Result<(), SinkFault>
    requires all { count ≡ length sender.now }
    ensures { Sends W.taken W.failed w.old w.new (told_lines sender.now) result }
{
    for place in 0..count {
        send_told(w, sender.held(place))?;
    }
    Ok(())
}

/// Tells what is held for each request of a sender, which are so many, and answers the exit status.
pub(crate) fn tell_held<W: ByteSink>(w: &mut W, sender: &Sender, count: usize) -> u8
    requires all { count ≡ length sender.now }
    ensures { IsTold (TookAll (W.taken w.old) (W.taken w.new) (W.failed w.old) (W.failed w.new))
        (TookPart (W.taken w.old) (W.taken w.new) (W.failed w.old) (W.failed w.new)) sender.now result }
{
    match send_all_told(w, sender, count) {
        Ok(()) => exit_status(sender.finished()),
        Err(_) => FAILED,
    }
}

fn exit_status(is_finished: bool) -> u8
    ensures { result ≡ cond is_finished 0 1 }
{
    if is_finished { DONE } else { FAILED }
}

/// Tells why nothing was sent.
pub(crate) fn tell_fault<E: ByteSink>(e: &mut E, fault: SendFault) -> Result<(), SinkFault>
    ensures { Sends E.taken E.failed e.old e.new (fault_line fault) result }
{
    match fault {
        SendFault::Unread => Ok(()),
        SendFault::Malformed(number) => send_malformed(e, number),
        SendFault::Twice => send(e, b"sender fault 1\n"),
        SendFault::Memory => send(e, b"sender fault 2\n"),
    }
}

fn send_malformed<E: ByteSink>(e: &mut E, number: usize) -> Result<(), SinkFault>
    ensures { Sends E.taken E.failed e.old e.new (malformed_line number) result }
{
    send(e, b"line ")?;
    send_number(e, number)?;
    send(e, b" malformed\n")
}
