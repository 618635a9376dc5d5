//! Exports of a desk, and of both offices.
use crate::desk_rows::asked::Asked;
use crate::desk_rows::course::Sent;
use crate::desk_rows::offices::Offices;
use crate::desks::sink;
use crate::places::Place;
use crate::words::replaced;
use byte_streams::VecSink;
use office::{Desk, ExportFault, ExportReceipt};
use std::alloc::Global;
use tables::Tables;
use units::{Lang, Name};

/// What stands in a request behind this, up to the next quote.
fn text_behind<'a>(line: &'a str, front: &str) -> Option<&'a str> {
    let (_, rest) = line.split_once(front)?;
    let (text, _) = rest.split_once('"')?;
    Some(text)
}

/// The language that a request names.
fn place_in(line: &str) -> Option<Place<'_>> {
    let code = text_behind(line, "\"lang\":\"")?;
    let domain = text_behind(line, "\"domain\":\"").unwrap_or("main");
    Some(Place { domain, code })
}

fn put_place<'a>(places: &mut Vec<Place<'a>>, line: &'a str) -> Option<()> {
    match place_in(line) {
        Some(place) if !place.is_among(places.as_slice()) => places.push(place).ok(),
        _ => Some(()),
    }
}

/// The demo office's language and those that the requests name.
fn places<'a>(alloc: Global, sent: &'a [Sent]) -> Option<Vec<Place<'a>>> {
    let mut places = Vec::new(alloc);
    places.push(Place::of("de")).ok()?;
    for one in sent {
        put_place(&mut places, one.line.as_str())?;
    }
    Some(places)
}

/// The length and the digest.
fn receipt_told(alloc: Global, receipt: &ExportReceipt) -> Option<String> {
    match hex::encode(alloc, receipt.sha256) {
        Ok(digest) => format!(in alloc; "{} bytes {digest}", receipt.bytes).ok(),
        Err(_) => None,
    }
}

/// The length and the digest, or the fault's number.
fn outcome_told(
    alloc: Global,
    outcome: Result<ExportReceipt, ExportFault>,
    taken: usize,
) -> Option<String> {
    match outcome {
        Ok(receipt) => receipt_told(alloc, &receipt),
        Err(fault) => format!(in alloc; "fault {} after {taken} bytes", fault.number()).ok(),
    }
}

/// What the export of a language into a sink is told as.
fn exported_into<T: Tables>(
    alloc: Global,
    desk: &mut Desk<T>,
    domain: &Name,
    lang: &Lang,
    sink: &mut VecSink,
) -> Option<String> {
    let outcome = desk.export(domain, lang, sink);
    let outcome = outcome_told(alloc, outcome, sink.bytes.len())?;
    let text = replaced(alloc, sink.bytes.as_slice(), "\n", "¶")?;
    format!(in alloc; "{outcome}|{text}").ok()
}

/// What the export of a language into so much room is told as.
pub(crate) fn exported<T: Tables>(
    alloc: Global,
    desk: &mut Desk<T>,
    place: Place<'_>,
    most: usize,
) -> Option<String> {
    match place.named() {
        Some((domain, lang)) => exported_into(alloc, desk, &domain, &lang, &mut sink(alloc, most)),
        None => None,
    }
}

/// Adds the export of a language.
fn put_export<O: Offices>(
    alloc: Global,
    text: &mut String,
    offices: &mut O,
    place: Place<'_>,
) -> Option<()> {
    match offices.told(alloc, Asked::Export(place, usize::MAX)) {
        Some(told) => write!(text, "{}/{} {told}; ", place.domain, place.code).ok(),
        None => None,
    }
}

/// Adds the exports of each language.
pub(crate) fn put_exports<O: Offices>(
    alloc: Global,
    text: &mut String,
    offices: &mut O,
    sent: &[Sent],
) -> Option<()> {
    let places = places(alloc, sent)?;
    for place in places.as_slice() {
        put_export(alloc, text, offices, *place)?;
    }
    Some(())
}
