//! The requests of a text's lines over a link.

ghost use Rattle.std.specs.Prelude.{◌≡◌, ◌⊎◌, IfOk, OnOk, IfErr, OnErr};
ghost use Rattle.byte_streams.specs.Streams.{RoseOrStands};
ghost use Rattle.byte_streams.specs.Sending.{TookAll, TookPart};
ghost use Rattle.client.specs.Talks.{Talked, IsWithin};
ghost use Rattle.client.specs.SendLines.{IsFaultOf, WasSent, WasSentFrom, SentLines};
ghost use Rattle.client.specs.TalkSteps.{IsListFault};

use crate::fault::SendFault;
use crate::link::Link;
use crate::list::requests_in;
use crate::sending::send_all;
use crate::source::gather;
use crate::telling::{FAILED, tell_fault, tell_held};
use byte_streams::{ByteSink, ByteSource};
use request_book::Request;
use sender::Sender;
use std::alloc::Global;
use units::Memory;

/// Sends the requests of a source, a line of JSON each, over a link, as `send_all` does; then writes for each, in their order, the line
/// `STATUS BODY` of its reply, or `none` where no reply is held. A line ends at each LF; what stands behind the last one is a line
/// too, if it isn't empty.
///
/// Nothing is sent where a line isn't a request (the first such line is told on `faults`: `line L malformed`), where a number
/// stands twice (`sender fault 1`), where a growth was refused before the first message (`sender fault 2`), or where a read failed.
///
/// Answers the exit status: 0, or 1 where a request has no reply, after a fault, or where a stream failed. What the writers hold back
/// stays with them.
pub fn send_lines<R: ByteSource, L: Link, W: ByteSink, E: ByteSink>(
    alloc: Global,
    source: &mut R,
    link: &mut L,
    tries: u32,
    replies: &mut W,
    faults: &mut E,
) -> u8
    ensures sent { SentLines (R.left source.old) (RoseOrStands (R.failed source.old) (R.failed source.new))
        ((link.new ≡ link.old) × (replies.new ≡ replies.old)) (faults.new ≡ faults.old)
        (Talked (IsWithin tries) (L.said link.old) (L.said link.new))
        (TookAll (W.taken replies.old) (W.taken replies.new) (W.failed replies.old) (W.failed replies.new))
        (TookPart (W.taken replies.old) (W.taken replies.new) (W.failed replies.old) (W.failed replies.new))
        (λ text. TookAll (E.taken faults.old) (E.taken faults.new) (E.failed faults.old) (E.failed faults.new) text
        ⊎ TookPart (E.taken faults.old) (E.taken faults.new) (E.failed faults.old) (E.failed faults.new) text) result }
{
    match send_source(alloc, source, link, tries, replies) {
        Ok(status) => status,
        Err(fault) => {
            let _ = tell_fault(faults, fault);
            FAILED
        }
    }
}

/// Sends the requests of a source, and tells what is held for each.
fn send_source<R: ByteSource, L: Link, W: ByteSink>(
    alloc: Global,
    source: &mut R,
    link: &mut L,
    tries: u32,
    replies: &mut W,
) -> Result<u8, SendFault>
    ensures ok { IfOk result (WasSentFrom (R.left source.old) (Talked (IsWithin tries) (L.said link.old) (L.said link.new))
        (TookAll (W.taken replies.old) (W.taken replies.new) (W.failed replies.old) (W.failed replies.new))
        (TookPart (W.taken replies.old) (W.taken replies.new) (W.failed replies.old) (W.failed replies.new))) }
    ensures err { IfErr result (IsFaultOf (R.left source.old) (RoseOrStands (R.failed source.old) (R.failed source.new))) }
    ensures unsent { OnErr result ((link.new ≡ link.old) × (replies.new ≡ replies.old)) }
{
    let text = gather(alloc, source)?;
    let requests = requests_in(alloc, text.as_slice())?;
    drop(text);
    send_list(alloc, requests.as_slice(), link, tries, replies)
}

/// Sends requests, and tells what is held for each.
fn send_list<L: Link, W: ByteSink>(
    alloc: Global,
    requests: &[Request],
    link: &mut L,
    tries: u32,
    replies: &mut W,
) -> Result<u8, SendFault>
    ensures ok { IfOk result (WasSent (Talked (IsWithin tries) (L.said link.old) (L.said link.new))
        (TookAll (W.taken replies.old) (W.taken replies.new) (W.failed replies.old) (W.failed replies.new))
        (TookPart (W.taken replies.old) (W.taken replies.new) (W.failed replies.old) (W.failed replies.new)) requests.now) }
    ensures err { IfErr result (IsListFault requests.now) }
    ensures unsent { OnErr result ((link.new ≡ link.old) × (replies.new ≡ replies.old)) }
{
    let mut sender = Sender::new(alloc, requests)?;
    match send_all(alloc, &mut sender, requests, link, tries) {
        Ok(()) => Ok(tell_held(replies, &sender, requests.len())),
        Err(Memory) => Err(SendFault::Memory),
    }
}
