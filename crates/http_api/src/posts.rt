//! The request that a message brings.
ghost use Rattle.std.specs.Prelude.{◌≡◌, ◌≢◌, ℕ, List, Err, Some, None, IfOk, IfSome, IfNone, IsUtf8, if◌then◌else◌};
ghost use Rattle.uuid.specs.Text.{parsed};
ghost use Rattle.po_text.specs.Texts.{Text};
ghost use Rattle.units.specs.Limits.{is_name};
ghost use Rattle.request_book.specs.Acts.{IsNumber, IsActText};
ghost use Rattle.request_book.specs.Words.{number_text};
ghost use Rattle.request_book.specs.declared.act.Act.{Act as ActValue};
ghost use Rattle.request_book.specs.declared.act.Request.{Request as RequestValue};
ghost use Rattle.request_book.specs.declared.fault.RequestFault.TheVariants.{Malformed};
ghost use Rattle.http_messages.specs.Values.{AreValues};
ghost use Rattle.http_messages.specs.Queries.{only_one};
ghost use Rattle.http_api.specs.Posts.{IsPosted};

use http_messages::{RequestParts, Values};
use request_book::{Act, Request, RequestFault, bytes_fit};
use std::alloc::Global;
use units::Name;
use uuid::Uuid;

/// The number that bytes write in one of the forms of UUIDs.
fn parsed_number(bytes: &[u8]) -> Option<Uuid>
    ensures { result ≡ parsed bytes.now }
{
    match Uuid::try_parse_ascii(bytes) {
        Ok(number) => Some(number),
        Err(_) => None,
    }
}

/// The number that a part of a path writes, hyphenated and in lower case.
fn number_in(part: &[u8]) -> Option<Uuid>
    ensures some { IfSome result (λ number. (part.now ≡ number_text number) × IsNumber number) }
    ensures none { IfNone result ((number : Text) → IsNumber number → part.now ≢ number_text number) }
{
    let Some(number) = parsed_number(part) else {
        return None;
    };
    bytes_fit(number.as_bytes());
    let mut buffer = Uuid::encode_buffer();
    let written: &str = number.hyphenated().encode_lower(&mut buffer);
    if written.as_bytes() == part {
        Some(number)
    } else {
        None
    }
}

/// The caller whose name a value is.
#[tactic(auto, using(crate::proofs::NameLemmas::no_name))]
fn name_in(value: &[u8]) -> Option<Name>
    ensures { result ≡ (if is_name value.now then Some value.now else None) }
{
    match str::from_utf8(value) {
        Ok(text) => Name::try_new(text),
        Err(_) => None,
    }
}

/// The caller in the one header.
fn caller_in(callers: Values<'_>) -> Option<Name>
    ensures { (values : List (List ℕ)) → AreValues callers.entry values → result ≡ only_one is_name values }
{
    match callers {
        Values::One(value) => name_in(value),
        _ => None,
    }
}

/// The act that a body is.
fn act_in(alloc: Global, body: &[u8]) -> Result<Act, RequestFault>
    ensures ok { IfOk result (λ act. IsUtf8 body.now × IsActText body.now act) }
    ensures one { IfOk result (λ act. (other : ActValue) → IsActText body.now other → other ≡ act) }
    ensures malformed { result ≡ Err Malformed → (act : ActValue) → IsUtf8 body.now → ¬ IsActText body.now act }
{
    match str::from_utf8(body) {
        Ok(text) => Act::from_json(alloc, text),
        Err(_) => Err(RequestFault::Malformed),
    }
}

/// The request that a message brings: its number in the path, its caller in the one header, its act in the body.
///
/// `Malformed` where it brings none; `Memory` where a growth was refused.
pub(crate) fn request_of(alloc: Global, parts: RequestParts<'_>) -> Result<Request, RequestFault>
    ensures ok { IfOk result (λ request. (callers : List (List ℕ)) → AreValues parts.entry.callers callers
        → IsPosted parts.entry.number.now callers parts.entry.body.now request) }
    ensures malformed { result ≡ Err Malformed → (callers : List (List ℕ)) → AreValues parts.entry.callers callers
        → (request : RequestValue) → ¬ IsPosted parts.entry.number.now callers parts.entry.body.now request }
{
    let Some(number) = number_in(parts.number) else {
        return Err(RequestFault::Malformed);
    };
    let Some(caller) = caller_in(parts.callers) else {
        return Err(RequestFault::Malformed);
    };
    let act = act_in(alloc, parts.body)?;
    Ok(Request {
        number,
        caller,
        act,
    })
}
