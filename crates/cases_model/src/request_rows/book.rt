//! What is kept of requests, and faults.
use crate::request_rows::stage::Stage;
use crate::words::word;
use byte_streams::{SinkFault, SourceFault};
use po_text::{Duplicate, Text};
use request_book::{Class, Record, Reply, Request, RequestFault, canon, classify};
use std::alloc::Global;

/// The record of a request that got this reply.
fn record(alloc: Global, request: &Request, reply: Reply) -> Option<Record> {
    match canon(alloc, request) {
        Ok(content) => Some(Record {
            number: request.number,
            content,
            reply,
        }),
        Err(_) => {
            drop(reply);
            None
        }
    }
}

/// The record of a request in JSON.
fn record_of(alloc: Global, json: &str, reply: Reply) -> Option<Record> {
    match Request::from_json(alloc, json) {
        Ok(request) => {
            let record = record(alloc, &request, reply);
            drop(request);
            record
        }
        Err(_) => {
            drop(reply);
            None
        }
    }
}

/// Keeps a copy of the last record.
fn keep_copy(stage: &mut Stage) -> Option<()> {
    match stage.records.last()?.duplicate() {
        Ok(copy) => stage.keep(copy),
        Err(_) => None,
    }
}

/// Keeps a copy of the record of a request, and tells its canonical text.
pub(crate) fn keep(
    alloc: Global,
    told: &mut String,
    stage: &mut Stage,
    words: &str,
    texts: &str,
) -> Option<()> {
    let (json, body) = texts.split_once('|')?;
    let status = word(words, 1).parse::<u16>().ok()?;
    let reply = Reply::new(status, Text::from_text(alloc, body).ok()?);
    stage.keep(record_of(alloc, json, reply)?)?;
    keep_copy(stage)?;
    told.push_str(stage.records.last()?.content.as_str()).ok()
}

/// Tells how a request with this canonical text stands to the record that is known.
pub(crate) fn tell_class(told: &mut String, known: Option<&Record>, content: &str) -> Option<()> {
    match classify(content, known) {
        Class::First => told.push_str("first").ok(),
        Class::Repeat(reply) => write!(told, "repeat {} {}", reply.status(), reply.body()).ok(),
        Class::NumberUsed => told.push_str("number used").ok(),
    }
}

fn tell_request_fault(told: &mut String, fault: RequestFault) -> Option<()> {
    write!(told, "{} {fault}", fault.number()).ok()
}

/// Tells a fault's number and text.
pub(crate) fn tell_fault(told: &mut String, name: &str) -> Option<()> {
    match name {
        "malformed" => tell_request_fault(told, RequestFault::Malformed),
        "memory" => tell_request_fault(told, RequestFault::Memory),
        "sink" => write!(told, "{} {SinkFault}", SinkFault.number()).ok(),
        "source" => write!(told, "{} {SourceFault}", SourceFault.number()).ok(),
        _ => None,
    }
}
