//! Two offices with the requests that they got so far.
use crate::desk_rows::asked::Asked;
use crate::desk_rows::exports::put_exports;
use crate::desk_rows::offices::{Offices, reply};
use crate::places::Place;
use std::alloc::Global;

/// A request's line, and the first reply to it, if it wasn't lost on its way.
#[derive(Drop)]
pub(crate) struct Sent {
    pub(crate) line: String,
    pub(crate) lost: bool,
    pub(crate) reply: String,
}

/// How the offices were opened, the offices, and what was sent to them.
#[derive(Drop)]
pub(crate) struct Course<O: Offices> {
    pub(crate) opening: String,
    pub(crate) offices: O,
    pub(crate) sent: Vec<Sent>,
}

fn course_of<O: Offices>(alloc: Global, opening: String, offices: O) -> Course<O> {
    Course {
        opening,
        offices,
        sent: Vec::new(alloc),
    }
}

pub(crate) fn opened<O: Offices>(alloc: Global, who: &str) -> Option<Course<O>> {
    let opening = String::from_str(alloc, who).ok()?;
    match O::open(alloc, who) {
        Some(offices) => Some(course_of(alloc, opening, offices)),
        None => None,
    }
}

/// What stands in a request that names a domain, or is about the whole office.
const NOT_IN_MAIN: [&str; 4] = [
    "\"domain\":",
    "\"act\":\"domain\"",
    "\"act\":\"team\"",
    "\"act\":\"policy\"",
];

/// Whether a request may name a domain and names none.
fn may_name_main(line: &str) -> bool {
    for part in NOT_IN_MAIN {
        if line.split_once(part).is_some() {
            return false;
        }
    }
    true
}

/// The same request with the domain `main`, where it may name a domain and names none.
fn in_main(alloc: Global, line: &str) -> Option<Option<String>> {
    if !may_name_main(line) {
        return Some(None);
    }
    let mut text = String::new(alloc);
    text.push_str("{\"domain\":\"main\",").ok()?;
    text.push_str(line.strip_prefix('{')?).ok()?;
    Some(Some(text))
}

/// What is told of a line that gets another reply than this one.
fn other_than<O: Offices>(
    alloc: Global,
    offices: &mut O,
    line: &str,
    wanted: &str,
) -> Option<Option<String>> {
    let reply = reply(alloc, offices, line)?;
    if reply.as_str() == wanted {
        return Some(None);
    }
    Some(Some(format!(in alloc; "{line} gets {reply}").ok()?))
}

/// What is told of a request whose reply is another than before, or that has another with the domain `main`.
fn changed<O: Offices>(alloc: Global, offices: &mut O, one: &Sent) -> Option<Option<String>> {
    let told = other_than(alloc, offices, one.line.as_str(), one.reply.as_str())?;
    if told.is_some() {
        return Some(told);
    }
    match in_main(alloc, one.line.as_str())? {
        Some(line) => other_than(alloc, offices, line.as_str(), one.reply.as_str()),
        None => Some(None),
    }
}

/// Sends the lines once more: how many there are, or the first whose reply is another than before.
fn repeated<O: Offices>(alloc: Global, offices: &mut O, sent: &[Sent]) -> Option<String> {
    let mut count = 0u64;
    for one in sent {
        if !one.lost {
            if let Some(told) = changed(alloc, offices, one)? {
                return Some(told);
            }
            count = count.saturating_add(1);
        }
    }
    format!(in alloc; "{count} as before").ok()
}

impl<O: Offices> Course<O> {
    pub(crate) fn deliver(&mut self, alloc: Global, line: &str) -> Option<String> {
        let reply = reply(alloc, &mut self.offices, line)?;
        self.keep(alloc, line, false, reply.as_str())?;
        Some(reply)
    }

    fn keep(&mut self, alloc: Global, line: &str, lost: bool, reply: &str) -> Option<()> {
        let line = String::from_str(alloc, line).ok()?;
        let reply = String::from_str(alloc, reply).ok()?;
        self.sent.push(Sent { line, lost, reply }).ok()
    }

    pub(crate) fn lose(&mut self, alloc: Global, line: &str) -> Option<String> {
        self.keep(alloc, line, true, "")?;
        Some(String::new(alloc))
    }

    fn exports(&mut self, alloc: Global) -> Option<String> {
        let mut text = String::new(alloc);
        put_exports(alloc, &mut text, &mut self.offices, self.sent.as_slice())?;
        Some(text)
    }

    pub(crate) fn export(&mut self, alloc: Global, place: Place<'_>, room: &str) -> Option<String> {
        let room = if room == "" {
            usize::MAX
        } else {
            room.parse::<usize>().ok()?
        };
        self.offices.told(alloc, Asked::Export(place, room))
    }

    pub(crate) fn again(&mut self, alloc: Global) -> Option<String> {
        let before = self.exports(alloc)?;
        let told = reply(alloc, &mut self.offices, self.sent.last()?.line.as_str())?;
        self.unchanged(alloc, before.as_str(), told)
    }

    pub(crate) fn over(&mut self, alloc: Global) -> Option<String> {
        let before = self.exports(alloc)?;
        let told = repeated(alloc, &mut self.offices, self.sent.as_slice())?;
        self.unchanged(alloc, before.as_str(), told)
    }

    /// What is told, if the exports are those before.
    fn unchanged(&mut self, alloc: Global, before: &str, told: String) -> Option<String> {
        let after = self.exports(alloc)?;
        if after.as_str() == before {
            return Some(told);
        }
        format!(in alloc; "{told}, other exports: {after}").ok()
    }

    /// Closes the offices, and tells how many rows the tables on SQLite have.
    pub(crate) fn close(self, alloc: Global) -> Option<String> {
        let Course {
            opening,
            offices,
            sent,
        } = self;
        drop(opening);
        drop(sent);
        offices.close(alloc)
    }
}
