//! Requests as JSON texts, and their canonical texts.
use crate::words::word;
use po_text::Duplicate;
use request_book::{Act, Request, RequestFault, canon};
use std::alloc::Global;

fn tell_canon(alloc: Global, told: &mut String, request: &Request) -> Option<()> {
    match canon(alloc, request) {
        Ok(text) => told.push_str(text.as_str()).ok(),
        Err(_) => None,
    }
}

fn tell_no_request(told: &mut String, fault: RequestFault) -> Option<()> {
    match fault {
        RequestFault::Malformed => told.push_str("malformed").ok(),
        RequestFault::Memory => None,
    }
}

/// Tells what a text comes to as a request.
pub(crate) fn tell_read(alloc: Global, told: &mut String, text: &str) -> Option<()> {
    match Request::from_json(alloc, text) {
        Ok(request) => {
            let done = tell_canon(alloc, told, &request);
            drop(request);
            done
        }
        Err(fault) => tell_no_request(told, fault),
    }
}

fn tell_json(alloc: Global, told: &mut String, act: &Act) -> Option<()> {
    match act.to_json(alloc) {
        Ok(text) => told.push_str(text.as_str()).ok(),
        Err(_) => None,
    }
}

/// Tells what a text comes to as an act alone.
pub(crate) fn tell_act(alloc: Global, told: &mut String, text: &str) -> Option<()> {
    match Act::from_json(alloc, text) {
        Ok(act) => {
            let done = tell_json(alloc, told, &act);
            drop(act);
            done
        }
        Err(fault) => tell_no_request(told, fault),
    }
}

/// Puts a copy of the request's act on a unit in its place. None where it is no such act.
fn put_copy(request: &mut Request) -> Option<()> {
    match &mut request.act {
        Act::OnUnit(_, _, _, act) => {
            *act = act.duplicate().ok()?;
            Some(())
        }
        _ => None,
    }
}

/// Tells what a text comes to as a request, with a copy of its act on a unit.
pub(crate) fn tell_copy(alloc: Global, told: &mut String, text: &str) -> Option<()> {
    match Request::from_json(alloc, text) {
        Ok(mut request) => {
            let done = match put_copy(&mut request) {
                Some(()) => tell_canon(alloc, told, &request),
                None => None,
            };
            drop(request);
            done
        }
        Err(fault) => tell_no_request(told, fault),
    }
}

/// Tells what the text comes to with another one in the place of one of its own, where it has that one.
pub(crate) fn tell_but(alloc: Global, told: &mut String, text: &str, change: &str) -> Option<()> {
    let (old, new) = change.split_once('|')?;
    if !text.contains(old) {
        return None;
    }
    let changed = text.replace(alloc, old, new).ok()?;
    tell_read(alloc, told, changed.as_str())
}

/// Tells what the text's first bytes come to.
pub(crate) fn tell_cut(alloc: Global, told: &mut String, text: &str, words: &str) -> Option<()> {
    let count = word(words, 1).parse::<usize>().ok()?;
    tell_read(alloc, told, text.get(..count)?)
}
