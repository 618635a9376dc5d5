//! All requests of a sender over a link.

ghost use Rattle.std.specs.Prelude.{◌≡◌, true, false, OnErr};
ghost use Rattle.sender.specs.Sending.{is_ready};
ghost use Rattle.client.specs.Talks.{Talked, IsWithin, requests_of};
ghost use Rattle.client.specs.TalkSteps.{Exchanged, Sent, Takes, IsPaid};

use crate::answer::reply_in;
use crate::link::Link;
use crate::messages::message;
use request_book::{Reply, Request};
use sender::Sender;
use std::alloc::Global;
use std::time::Duration;
use units::Memory;

/// How many milliseconds are waited behind a round in which no reply came; twice as many behind the next such round.
const FIRST_PAUSE: u64 = 100;

/// How many are waited at most.
const GREATEST_PAUSE: u64 = 2_000;

/// Sends a sender's requests over a link, each at most so many times, until all replies are held or nothing more may be sent: in rounds through
/// the list, in its order, each request that is ready when its turn comes. An answer that isn't a reply is lost, and so is a request for which
/// memory is wanting, or an answer. `requests` are those that the sender was made of.
///
/// Between a round in which no reply came and the next, the link pauses: 100 ms at first, twice as long each time, up to 2 s.
///
/// `Memory` where a growth was refused before the first message: nothing was sent then.
pub fn send_all<L: Link>(
    alloc: Global,
    sender: &mut Sender,
    requests: &[Request],
    link: &mut L,
    tries: u32,
) -> Result<(), Memory>
    // What was said are messages of ready requests, and the replies that are held besides are those that came back.
    // No request was sent more often than that.
    ensures talked { requests_of sender.old ≡ requests.now → Talked (IsWithin tries) (L.said link.old) (L.said link.new) sender.old sender.new }
    ensures memory { OnErr result ((link.new ≡ link.old) × (sender.new ≡ sender.old)) }
{
    let mut left = vec![in alloc; tries; requests.len()]?;
    send_rounds(alloc, sender, requests, link, left.as_mut_slice());
    Ok(())
}

/// Rounds, until nothing more may be sent, with a pause behind each in which no reply came.
fn send_rounds<L: Link>(
    alloc: Global,
    sender: &mut Sender,
    requests: &[Request],
    link: &mut L,
    left: &mut [u32],
)
    ensures { requests_of sender.old ≡ requests.now → Talked (IsPaid left.old left.new) (L.said link.old) (L.said link.new) sender.old sender.new }
{
    let mut pause = FIRST_PAUSE;
    for _round in 0..u64::MAX {
        let is_answered = send_round(alloc, sender, requests, link, left);
        if !has_try(sender, left) {
            return;
        }
        pause = rest(link, is_answered, pause);
    }
}

/// Pauses behind a round in which no reply came, so many milliseconds. Answers how many behind the next one.
fn rest<L: Link>(link: &mut L, is_answered: bool, pause: u64) -> u64
    ensures silent { L.said link.new ≡ L.said link.old }
{
    if is_answered {
        return FIRST_PAUSE;
    }
    link.pause(Duration::from_millis(pause));
    pause.saturating_mul(2).min(GREATEST_PAUSE)
}

/// Whether a request is ready and has a try left.
fn has_try(sender: &Sender, left: &[u32]) -> bool {
    for (place, tries) in left.iter().enumerate() {
        if *tries > 0 && sender.ready(place) {
            return true;
        }
    }
    false
}

/// Sends each request that is ready when its turn comes and has tries left. Tells whether a reply came.
fn send_round<L: Link>(
    alloc: Global,
    sender: &mut Sender,
    requests: &[Request],
    link: &mut L,
    left: &mut [u32],
) -> bool
    ensures { requests_of sender.old ≡ requests.now → Talked (IsPaid left.old left.new) (L.said link.old) (L.said link.new) sender.old sender.new }
{
    let mut is_answered = false;
    for (place, request) in requests.iter().enumerate() {
        if !takes_try(sender, left, place) {
            continue;
        }
        is_answered = send_one(alloc, sender, request, link) || is_answered;
    }
    is_answered
}

/// Whether the request at this place is ready and has a try left, which is taken.
fn takes_try(sender: &Sender, left: &mut [u32], place: usize) -> bool
    ensures ready { result ≡ true → is_ready sender.now place ≡ true }
    ensures taken { result ≡ true → Takes place left.old left.new }
    ensures none { result ≡ false → left.new ≡ left.old }
{
    if !sender.ready(place) || left.len() <= place || left[place] == 0 {
        return false;
    }
    left[place] -= 1;
    true
}

/// Sends a request once, and has the sender hear the reply, if one comes. Tells whether one did.
fn send_one<L: Link>(alloc: Global, sender: &mut Sender, request: &Request, link: &mut L) -> bool
    ensures { Sent request.now (L.said link.old) (L.said link.new) sender.old sender.new }
{
    let Ok(text) = message(alloc, request) else {
        return false;
    };
    let reply = exchanged(alloc, link, text.as_str().as_bytes());
    drop(text);
    match reply {
        Some(reply) => {
            sender.on_reply(request.number, reply);
            true
        }
        None => false,
    }
}

/// The reply that comes back for a message, if one does; none also where memory is wanting.
fn exchanged<L: Link>(alloc: Global, link: &mut L, message: &[u8]) -> Option<Reply>
    ensures { Exchanged (L.said link.old) (L.said link.new) message.now result }
{
    let mut answer = Vec::new(alloc);
    match link.exchange(message, &mut answer) {
        Ok(()) => reply_in(alloc, answer.as_slice()).unwrap_or(None),
        Err(_) => None,
    }
}
