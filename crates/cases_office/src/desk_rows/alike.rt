//! Runs over a list beside single deliveries.
use crate::desk_rows::asked::Asked;
use crate::desk_rows::course::{Course, Sent};
use crate::desk_rows::exports::put_exports;
use crate::desk_rows::offices::Offices;
use crate::named::put_request;
use request_book::Request;
use std::alloc::Global;

/// Adds the requests that weren't lost on their way.
fn put_requests(alloc: Global, requests: &mut Vec<Request>, sent: &[Sent]) -> Option<()> {
    for one in sent {
        if !one.lost {
            put_request(alloc, requests, one.line.as_str())?;
        }
    }
    Some(())
}

/// What a run over these requests at once answers.
fn replies<O: Offices>(alloc: Global, offices: &mut O, sent: &[Sent]) -> Option<String> {
    let mut requests = Vec::new(alloc);
    let told = match put_requests(alloc, &mut requests, sent) {
        Some(()) => offices.told(alloc, Asked::Run(requests.as_slice())),
        None => None,
    };
    drop(requests);
    told
}

/// What such a run answers, and the exports that it leaves.
fn run_text<O: Offices>(alloc: Global, offices: &mut O, sent: &[Sent]) -> Option<String> {
    let mut text = replies(alloc, offices, sent)?;
    put_exports(alloc, &mut text, offices, sent)?;
    Some(text)
}

/// The same of offices that were opened so.
fn new_run_text<O: Offices>(alloc: Global, course: &Course<O>) -> Option<String> {
    let mut offices = O::open(alloc, course.opening.as_str())?;
    let text = run_text(alloc, &mut offices, course.sent.as_slice());
    drop(offices);
    text
}

/// Adds what the offices answered, and counts the requests.
fn put_replies(text: &mut String, sent: &[Sent]) -> Option<u64> {
    let mut count = 0u64;
    for one in sent {
        if !one.lost {
            write!(text, "{}; ", one.reply).ok()?;
            count = count.saturating_add(1);
        }
    }
    Some(count)
}

/// How many requests have the same replies and leave the same exports in a run; or what is other.
pub(crate) fn alike<O: Offices>(alloc: Global, course: &mut Course<O>) -> Option<String> {
    let mut wanted = String::new(alloc);
    let count = put_replies(&mut wanted, course.sent.as_slice())?;
    put_exports(
        alloc,
        &mut wanted,
        &mut course.offices,
        course.sent.as_slice(),
    )?;
    let told = new_run_text(alloc, course)?;
    if told.as_str() == wanted.as_str() {
        return format!(in alloc; "{count} alike").ok();
    }
    format!(in alloc; "run: {told}").ok()
}
