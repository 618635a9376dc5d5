//! What a desk is asked, and what it answers.
use crate::desk_rows::exports::exported;
use crate::places::Place;
use office::{Desk, QueryFault};
use po_text::PoString;
use request_book::{Reply, Request};
use std::alloc::Global;
use tables::{Lost, Tables};
use units::Key;

/// What desks are asked alike.
#[derive(Clone, Copy)]
pub(crate) enum Asked<'a> {
    /// The reply to a request.
    Reply(&'a Request),
    /// What a run over all requests at once answers.
    Run(&'a [Request]),
    /// The export of a language into so much room.
    Export(Place<'a>, usize),
    /// A unit as callers see it, by its language's place and its key.
    Unit(&'a str),
    /// A language's counts.
    Stats(Place<'a>),
}

/// What a desk answers.
pub(crate) fn answer<T: Tables>(
    alloc: Global,
    desk: &mut Desk<T>,
    asked: Asked<'_>,
) -> Option<String> {
    match asked {
        Asked::Reply(request) => reply_told(alloc, desk, request),
        Asked::Run(requests) => run_told(alloc, desk, requests),
        Asked::Export(place, most) => exported(alloc, desk, place, most),
        Asked::Unit(words) => unit_told(alloc, desk, words),
        Asked::Stats(place) => stats_told(alloc, desk, place),
    }
}

/// A reply, or why there is none.
fn outcome_told(alloc: Global, outcome: &Result<Reply, Lost>) -> Option<String> {
    match outcome {
        Ok(reply) => format!(in alloc; "{} {}", reply.status(), reply.body()).ok(),
        Err(lost) => format!(in alloc; "lost: {lost}").ok(),
    }
}

fn reply_told<T: Tables>(alloc: Global, desk: &mut Desk<T>, request: &Request) -> Option<String> {
    let outcome = desk.deliver(request);
    let told = outcome_told(alloc, &outcome);
    drop(outcome);
    told
}

fn put_outcomes(alloc: Global, text: &mut String, outcomes: &[Result<Reply, Lost>]) -> Option<()> {
    for outcome in outcomes {
        let told = outcome_told(alloc, outcome)?;
        write!(text, "{told}; ").ok()?;
    }
    Some(())
}

fn run_told<T: Tables>(alloc: Global, desk: &mut Desk<T>, requests: &[Request]) -> Option<String> {
    let outcomes = desk.run(requests).ok()?;
    let mut text = String::new(alloc);
    put_outcomes(alloc, &mut text, outcomes.as_slice())?;
    Some(text)
}

fn answer_told(alloc: Global, answer: Result<String, QueryFault>) -> Option<String> {
    match answer {
        Ok(text) => Some(text),
        Err(fault) => format!(in alloc; "fault {}", fault.number()).ok(),
    }
}

/// A context, where there is one.
fn context_of(alloc: Global, text: Option<&str>) -> Option<Option<PoString>> {
    match text {
        Some(text) => Some(Some(PoString::try_new(alloc, text).ok()??)),
        None => Some(None),
    }
}

/// The key of a msgid, and of a context behind a bar.
fn key_of(alloc: Global, text: &str) -> Option<Key> {
    let mut parts = text.split('|');
    let id = parts.next()?;
    let ctx = context_of(alloc, parts.next())?;
    let id = PoString::try_new(alloc, id).ok()??;
    Some(Key { ctx, id })
}

/// A unit as callers see it, by its language's place and its key.
pub(crate) fn unit_told<T: Tables>(
    alloc: Global,
    desk: &mut Desk<T>,
    words: &str,
) -> Option<String> {
    let (place, key) = words.split_once('|')?;
    let key = key_of(alloc, key)?;
    match Place::of(place).named() {
        Some((domain, lang)) => answer_told(alloc, desk.unit(&domain, &lang, &key)),
        None => None,
    }
}

fn stats_told<T: Tables>(alloc: Global, desk: &mut Desk<T>, place: Place<'_>) -> Option<String> {
    match place.named() {
        Some((domain, lang)) => answer_told(alloc, desk.stats(&domain, &lang)),
        None => None,
    }
}
