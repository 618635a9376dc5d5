//! A request as a message of HTTP.

ghost use Rattle.std.specs.Prelude.{◌≡◌, IfOk, string_bytes};
ghost use Rattle.client.specs.Messages.{message as message_text, message_of as text_of};

use http_messages::{CALLER_FIELD, REQUESTS_PATH};
use po_text::Text;
use request_book::Request;
use std::alloc::{AllocError, Global};
use units::Memory;
use uuid::Uuid;

/// The message that brings a request to an office over HTTP/1.1 (RFC 9112): `POST /v1/requests/NUMBER`, the caller in
/// `X-Office-Caller`, the act's JSON as the body. The connection is to be closed behind the answer.
pub(crate) fn message(alloc: Global, request: &Request) -> Result<Text, Memory>
    ensures { IfOk result (λ text. text ≡ message_text request.now) }
{
    let body = request.act.to_json(alloc)?;
    let mut buffer = Uuid::encode_buffer();
    let number: &str = request.number.hyphenated().encode_lower(&mut buffer);
    let text = message_of(alloc, number, request.caller.as_str(), body.as_str());
    drop(body);
    Ok(Text::from_string(text?))
}

fn message_of(alloc: Global, number: &str, caller: &str, body: &str) -> Result<String, AllocError>
    ensures { IfOk result (λ text. string_bytes text ≡ text_of number.now caller.now body.now) }
{
    let length = body.len();
    format!(in alloc;
        "POST {REQUESTS_PATH}{number} HTTP/1.1\r\nHost: 127.0.0.1\r\nConnection: close\r\n{CALLER_FIELD}: {caller}\r\nContent-Type: application/json\r\nContent-Length: {length}\r\n\r\n{body}"
    )
}
