//! Requests as JSON texts.
ghost use Rattle.std.specs.Prelude.{◌≡◌, Err, IfOk, IsUtf8};
ghost use Rattle.uuid.specs.Parts.{zero_bytes};
ghost use Rattle.request_book.specs.Acts.{IsRequest, IsRequestText, IsContentText, content_text, IsAct, IsActText, act_text};
ghost use Rattle.request_book.specs.declared.act.Act.{Act as ActValue};
ghost use Rattle.request_book.specs.Fields.{to_request, to_content, to_act};
ghost use Rattle.request_book.specs.declared.fault.RequestFault.TheVariants.{Malformed};

use crate::act::{Act, Request};
use crate::fault::RequestFault;
use crate::fields::bytes_fit;
use crate::parts::{Parts, parts_from_text};
use crate::written::{act_bytes, content_bytes};
use po_text::Text;
use std::alloc::Global;
use units::Memory;
use uuid::Uuid;

impl Request {
    /// The request that a text stands for: one JSON object (RFC 8259) with exactly the request's members, each
    /// within its limits. Of a key that stands twice the last value counts, as `serde_json` reads it.
    ///
    /// `Malformed` where no request has this text; `Memory` where a growth was refused.
    pub fn from_json(alloc: Global, text: &str) -> Result<Request, RequestFault>
        ensures ok { IfOk result (IsRequestText text.now) }
        ensures one { IfOk result
            (λ r. (other : Request) → IsRequestText text.now other → other ≡ r) }
        ensures malformed { result ≡ Err Malformed
            → (request : Request) → ¬ IsRequestText text.now request }
    {
        let parts = parts_from_text(alloc, text)?;
        match signed(parts) {
            Some(request) => Ok(request),
            None => Err(RequestFault::Malformed),
        }
    }

    /// The request, under number zero, whose caller and act a text stands for: one JSON object (RFC 8259) with exactly the members of a
    /// request but for its number, each within its limits. Of a key that stands twice the last value counts, as `serde_json` reads it.
    ///
    /// `Malformed` where no caller and act have this text; `Memory` where a growth was refused.
    pub fn from_content(alloc: Global, text: &str) -> Result<Request, RequestFault>
        ensures ok { IfOk result (IsContentText text.now) }
        ensures number { IfOk result (λ r. r.number ≡ zero_bytes) }
        ensures one { IfOk result
            (λ r. (other : Request) → IsContentText text.now other → (other.caller ≡ r.caller) × (other.act ≡ r.act)) }
        ensures malformed { result ≡ Err Malformed
            → (request : Request) → ¬ IsContentText text.now request }
    {
        let parts = parts_from_text(alloc, text)?;
        match unnumbered(parts) {
            Some(content) => Ok(content),
            None => Err(RequestFault::Malformed),
        }
    }
}

fn signed(parts: Parts) -> Option<Request>
    ensures { result ≡ to_request parts.caller parts.number parts.act }
{
    let Parts {
        caller,
        number,
        act,
    } = parts;
    match (caller, number) {
        (Some(caller), Some(number)) => Some(Request {
            number,
            caller,
            act,
        }),
        (caller, _) => {
            drop(caller);
            drop(act);
            None
        }
    }
}

/// The request, under number zero, of parts that have a caller and no number.
fn unnumbered(parts: Parts) -> Option<Request>
    ensures { result ≡ to_content parts.caller parts.number parts.act }
{
    let Parts {
        caller,
        number,
        act,
    } = parts;
    match (caller, number) {
        (Some(caller), None) => Some(Request {
            number: Uuid::nil(),
            caller,
            act,
        }),
        (caller, _) => {
            drop(caller);
            drop(act);
            None
        }
    }
}

/// The act of parts that have no caller and no number.
fn bare(parts: Parts) -> Option<Act>
    ensures { result ≡ to_act parts.caller parts.number parts.act }
{
    if parts.caller.is_none() && parts.number.is_none() {
        Some(parts.act)
    } else {
        drop(parts);
        None
    }
}

/// The canonical text of a request's content: its caller and act as compact JSON, keys in byte order. Requests
/// with one canonical text have one caller and one act.
#[tactic(auto, using(crate::proofs::CanonLemmas::one_content), unfolding(crate::specs::Acts::content_text))]
pub fn canon(alloc: Global, request: &Request) -> Result<Text, Memory>
    ensures value { IfOk result (λ s. s ≡ content_text request.now) }
    ensures alone { IfOk result
        (λ s. (other : Request) → IsRequest other → content_text other ≡ s
        → (other.caller ≡ request.now.caller) × (other.act ≡ request.now.act)) }
    ensures limits { IfOk result (λ _. IsRequest request.now) }
{
    bytes_fit(request.number.as_bytes());
    let bytes = content_bytes(alloc, request)?;
    Ok(text_of(bytes))
}

impl Act {
    /// The act that a text stands for: one JSON object (RFC 8259) with exactly the act's members, each within its limits, and without a
    /// request's number and caller. Of a key that stands twice the last value counts, as `serde_json` reads it.
    ///
    /// `Malformed` where no act has this text; `Memory` where a growth was refused.
    pub fn from_json(alloc: Global, text: &str) -> Result<Act, RequestFault>
        ensures ok { IfOk result (IsActText text.now) }
        ensures one { IfOk result (λ a. (other : ActValue) → IsActText text.now other → other ≡ a) }
        ensures malformed { result ≡ Err Malformed → (act : ActValue) → ¬ IsActText text.now act }
    {
        let parts = parts_from_text(alloc, text)?;
        match bare(parts) {
            Some(act) => Ok(act),
            None => Err(RequestFault::Malformed),
        }
    }

    /// The act's text: its object in compact JSON, keys in byte order, without the number and the caller of a request. No other act
    /// has this text.
    pub fn to_json(&self, alloc: Global) -> Result<Text, Memory>
        ensures value { IfOk result (λ s. s ≡ act_text self.now) }
        ensures is { IfOk result (λ s. IsActText s self.now) }
        ensures alone { IfOk result (λ s. (other : ActValue) → IsAct other → act_text other ≡ s → other ≡ self.now) }
    {
        let bytes = act_bytes(alloc, self)?;
        Ok(text_of(bytes))
    }
}

// The text that these bytes are.
fn text_of(bytes: Vec<u8>) -> Text
    requires { IsUtf8 bytes.items }
    ensures { result ≡ bytes.items }
{
    match String::from_utf8(bytes) {
        Ok(text) => Text::from_string(text),
        Err(_) => unreachable!(),
    }
}
