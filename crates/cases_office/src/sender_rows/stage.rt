//! What the rows above set, and what a row makes of it.
use crate::desk_rows::unit_told;
use crate::named::{Named, keep_named, put_request};
use crate::sender_rows::scripted::link_to;
use crate::sender_rows::texts::lines_told;
use crate::words::{behind, word};
use client::send_all;
use office::Desk;
use po_text::Text;
use request_book::{Reply, Request};
use sender::Sender;
use std::alloc::Global;
use tables::PlainTables;

/// The requests of lists, and the desk of the last link.
#[derive(Drop)]
pub(crate) struct Stage {
    named: Vec<Named>,
    desks: Vec<Desk<PlainTables>>,
}

impl Stage {
    pub(crate) fn new(alloc: Global) -> Stage {
        Stage {
            named: Vec::new(alloc),
            desks: Vec::new(alloc),
        }
    }

    /// What a list's text comes to over a link to a new desk.
    fn lines(&mut self, alloc: Global, deed: &str) -> Option<String> {
        let mut link = link_to(alloc, &mut self.desks, deed)?;
        lines_told(alloc, self.named.as_slice(), &mut link, deed)
    }

    /// What a deed on a list comes to.
    fn on_list(&mut self, alloc: Global, deed: &str) -> Option<String> {
        let mut requests = Vec::new(alloc);
        let told = match put_requests(alloc, &mut requests, self.named.as_slice(), word(deed, 1)) {
            Some(()) => with_sender(alloc, &mut self.desks, requests.as_slice(), deed),
            None => None,
        };
        drop(requests);
        told
    }
}

/// What a deed with a new sender of these requests comes to.
fn with_sender(
    alloc: Global,
    desks: &mut Vec<Desk<PlainTables>>,
    requests: &[Request],
    deed: &str,
) -> Option<String> {
    match Sender::new(alloc, requests) {
        Ok(mut sender) => {
            let told = match word(deed, 0) {
                "ready" => ready_told(alloc, &mut sender, requests, word(deed, 2)),
                "link" => sent_told(alloc, desks, &mut sender, requests, deed),
                "pauses" => pauses_told(alloc, desks, &mut sender, requests, deed),
                _ => None,
            };
            drop(sender);
            told
        }
        Err(fault) => format!(in alloc; "fault {}", fault.number()).ok(),
    }
}

/// The replies that a sender holds once all is sent over a link to a new desk.
fn sent_told(
    alloc: Global,
    desks: &mut Vec<Desk<PlainTables>>,
    sender: &mut Sender,
    requests: &[Request],
    deed: &str,
) -> Option<String> {
    let tries = word(deed, 2).parse::<u32>().ok()?;
    let mut link = link_to(alloc, desks, deed)?;
    match send_all(alloc, sender, requests, &mut link, tries) {
        Ok(()) => held_told(alloc, sender, requests.len()),
        Err(_) => None,
    }
}

/// The pauses between the rounds in which all is sent over a link to a new desk, in milliseconds.
fn pauses_told(
    alloc: Global,
    desks: &mut Vec<Desk<PlainTables>>,
    sender: &mut Sender,
    requests: &[Request],
    deed: &str,
) -> Option<String> {
    let tries = word(deed, 2).parse::<u32>().ok()?;
    let mut link = link_to(alloc, desks, deed)?;
    send_all(alloc, sender, requests, &mut link, tries).ok()?;
    let mut text = String::new(alloc);
    let mut blank = "";
    for pause in link.pauses.as_slice() {
        write!(text, "{blank}{pause}").ok()?;
        blank = " ";
    }
    Some(text)
}

/// Adds the requests of a list.
fn put_requests(
    alloc: Global,
    requests: &mut Vec<Request>,
    named: &[Named],
    list: &str,
) -> Option<()> {
    for one in named {
        if one.name.as_str() == list {
            put_request(alloc, requests, one.line.as_str())?;
        }
    }
    Some(())
}

/// Adds a reply, if there is one.
fn put_reply(text: &mut String, reply: Option<&Reply>) -> Option<()> {
    match reply {
        Some(reply) => write!(text, "{} {}; ", reply.status(), reply.body()).ok(),
        None => text.push_str("none; ").ok(),
    }
}

/// The replies that a sender holds.
fn held_told(alloc: Global, sender: &Sender, count: usize) -> Option<String> {
    let mut text = String::new(alloc);
    for place in 0..count {
        put_reply(&mut text, sender.held(place))?;
    }
    let told = text.as_str();
    String::from_str(alloc, told.strip_suffix("; ").unwrap_or(told)).ok()
}

/// Has a sender hear a reply to the request at a place, counted from 1.
fn hear(alloc: Global, sender: &mut Sender, requests: &[Request], place: &str) -> Option<()> {
    let place = place.parse::<usize>().ok()?.checked_sub(1)?;
    let number = requests.get(place)?.number;
    let body = Text::from_text(alloc, "{}").ok()?;
    sender.on_reply(number, Reply::new(200, body));
    Some(())
}

/// Has a sender hear a reply to each of these places.
fn hear_all(alloc: Global, sender: &mut Sender, requests: &[Request], places: &str) -> Option<()> {
    for place in places.split(',') {
        if place != "-" {
            hear(alloc, sender, requests, place)?;
        }
    }
    Some(())
}

/// Adds which places are ready.
fn put_ready(text: &mut String, sender: &Sender, count: usize) -> Option<()> {
    let mut comma = "";
    for place in 0..count {
        if sender.ready(place) {
            let number = place.checked_add(1)?;
            write!(text, "{comma}{number}").ok()?;
            comma = ",";
        }
    }
    Some(())
}

/// Which places are ready, where replies to these are held.
fn ready_told(
    alloc: Global,
    sender: &mut Sender,
    requests: &[Request],
    places: &str,
) -> Option<String> {
    hear_all(alloc, sender, requests, places)?;
    let mut text = String::new(alloc);
    put_ready(&mut text, sender, requests.len())?;
    Some(text)
}

/// What a deed comes to. None where it can't be read.
pub(crate) fn deed_told(alloc: Global, stage: &mut Stage, deed: &str) -> Option<String> {
    match word(deed, 0) {
        "lines" => stage.lines(alloc, deed),
        "unit" => unit_told(alloc, stage.desks.last_mut()?, behind(deed)),
        _ if word(deed, 1) == "is" => keep_named(alloc, &mut stage.named, deed),
        _ => stage.on_list(alloc, deed),
    }
}
