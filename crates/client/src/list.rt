//! A text as a list of requests, one in each line.

ghost use Rattle.std.specs.Prelude.{◌≡◌, ◌<◌, ◌∷◌, [], length, Err, IfOk, IfErr, OnOk, MatchOption};
ghost use Rattle.request_book.specs.declared.act.Request.{Request as RequestValue};
ghost use Rattle.request_book.specs.declared.fault.RequestFault.TheVariants.{Malformed as NoRequest};
ghost use Rattle.client.specs.Lists.{lines_of, IsRequestLine, AreRequests};
ghost use Rattle.client.specs.TalkSteps.{Pushed, IsLineFault, IsLinesFault};

use crate::fault::SendFault;
use memchr::memchr;
use request_book::{Request, RequestFault};
use std::alloc::Global;

/// The requests of a text's lines, in their order.
pub(crate) fn requests_in(alloc: Global, text: &[u8]) -> Result<Vec<Request>, SendFault>
    ensures ok { IfOk result (λ requests. AreRequests (lines_of text.now) requests.items) }
    ensures err { IfErr result (IsLinesFault (lines_of text.now)) }
{
    let mut requests = Vec::new(alloc);
    let mut rest = text;
    while let Some((line, behind)) = first_line(rest) {
        push_line(alloc, line, &mut requests)?;
        rest = behind;
    }
    Ok(requests)
}

/// The first line, and what stands behind its end; none where no line is left.
fn first_line(text: &[u8]) -> Option<(&[u8], &[u8])>
    ensures { MatchOption result (lines_of text.now ≡ [])
        (λ parts. (lines_of text.now ≡ parts.0.now ∷ lines_of parts.1.now) × (length parts.1.now < length text.now)) }
{
    if text.is_empty() {
        return None;
    }
    match memchr(b'\n', text) {
        Some(end) => Some((&text[..end], &text[end + 1..])),
        None => Some((text, &text[text.len()..])),
    }
}

/// Puts the request of a line at the end.
fn push_line(alloc: Global, line: &[u8], requests: &mut Vec<Request>) -> Result<(), SendFault>
    ensures ok { OnOk result (Pushed line.now requests.old.items requests.new.items) }
    ensures err { IfErr result (IsLineFault line.now requests.old.items) }
{
    match request_of(alloc, line) {
        Ok(request) => requests.push(request).or(Err(SendFault::Memory)),
        Err(RequestFault::Malformed) => Err(SendFault::Malformed(requests.len() + 1)),
        Err(RequestFault::Memory) => Err(SendFault::Memory),
    }
}

/// The request of a line.
fn request_of(alloc: Global, line: &[u8]) -> Result<Request, RequestFault>
    ensures ok { IfOk result (IsRequestLine line.now) }
    ensures malformed { result ≡ Err NoRequest → (request : RequestValue) → ¬ IsRequestLine line.now request }
{
    match str::from_utf8(line) {
        Ok(text) => Request::from_json(alloc, text),
        Err(_) => Err(RequestFault::Malformed),
    }
}
