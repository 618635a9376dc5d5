//! What an answer of HTTP says.

ghost use Rattle.std.specs.Prelude.{◌≡◌, Ok, None, length, map, drop, All, IfOk, IfSome, IfNone};
ghost use Rattle.httparse.specs.Grammar.{ResponseHead};
ghost use Rattle.httparse.specs.Spans.{IsHeaderWithin, IsResponseWithin, IsResponseAt, header_bytes};
ghost use Rattle.request_book.specs.Replies.{Reply as ReplyValue};
ghost use Rattle.client.specs.Answers.{IsReplyIn, IsReplyBehind, same_letters, is_other as gives_other, says_length as length_said, is_reply_status as is_status, is_unseen, has_unseen};

use httparse::Status;
use httparse::spans::{EMPTY_HEADER_SPAN, HeaderSpan, ResponseSpans, parse_response};
use itoa::Buffer;
use po_text::Text;
use request_book::Reply;
use std::alloc::Global;
use units::Memory;

/// The reply that an answer is; none where it isn't one whole response of HTTP with a reply's status, 200, 403, 404, 409 or 422, or where its
/// body has what a terminal takes for more than a letter, which no reply has.
pub(crate) fn reply_in(alloc: Global, answer: &[u8]) -> Result<Option<Reply>, Memory>
    ensures reply { IfOk result (λ found. IfSome found (λ reply. IsReplyIn answer.now reply)) }
    ensures none { result ≡ Ok None → (reply : ReplyValue) → ¬ IsReplyIn answer.now reply }
{
    match whole_reply(answer) {
        Some((status, body)) => {
            let body = Text::from_text(alloc, body)?;
            Ok(Some(Reply::new(status, body)))
        }
        None => Ok(None),
    }
}

/// The status and the body of the reply that an answer is.
fn whole_reply(answer: &[u8]) -> Option<(u16, &str)>
    ensures some { IfSome result (λ found. IsReplyIn answer.now (record { status = found.0; body = found.1.now })) }
    ensures none { IfNone result ((reply : ReplyValue) → ¬ IsReplyIn answer.now reply) }
{
    let mut headers = [EMPTY_HEADER_SPAN; 32];
    match parse_response(answer, &mut headers) {
        Ok(Status::Complete(head)) => reply_behind(answer, &headers, head),
        _ => None,
    }
}

/// The status and the body of the reply whose head was read.
fn reply_behind<'a>(
    answer: &'a [u8],
    headers: &[HeaderSpan],
    head: ResponseSpans,
) -> Option<(u16, &'a str)>
    requires within { IsResponseWithin answer.now headers.now head }
    ensures some { IfSome result (λ found. (h : ResponseHead) → IsResponseAt answer.now headers.now head h
        → IsReplyBehind h (record { status = found.0; body = found.1.now }) × (found.1.now ≡ drop head.len answer.now)) }
    ensures none { IfNone result ((h : ResponseHead) → IsResponseAt answer.now headers.now head h
        → (reply : ReplyValue) → reply.body ≡ drop head.len answer.now → ¬ IsReplyBehind h reply) }
{
    let body = &answer[head.len..];
    if !is_reply_status(head.code) || !says_length(answer, &headers[..head.headers], body.len()) {
        return None;
    }
    match str::from_utf8(body) {
        Ok(text) if has_unseen(text) => None,
        Ok(text) => Some((head.code, text)),
        Err(_) => None,
    }
}

/// Whether a text has a character that a terminal takes for more than a letter.
fn has_unseen(text: &str) -> bool
    ensures { result ≡ has_unseen text.now }
{
    for c in text.chars() {
        if is_unseen(c) {
            return true;
        }
    }
    false
}

/// Whether a terminal takes a character for more than a letter: a control character, a mark that turns the direction of writing, or a line
/// end of Unicode.
fn is_unseen(c: char) -> bool
    ensures { result ≡ is_unseen c }
{
    c.is_control()
        || matches!(
            c,
            '\u{61c}' | '\u{200e}'..='\u{200f}' | '\u{2028}'..='\u{202e}' | '\u{2066}'..='\u{2069}'
        )
}

/// Whether an office answers a request with this status.
fn is_reply_status(status: u16) -> bool
    ensures { result ≡ is_status status }
{
    matches!(status, 200 | 403 | 404 | 409 | 422)
}

/// Whether the header lines say that the body has so many bytes: one gives this length, and none gives another.
fn says_length(answer: &[u8], headers: &[HeaderSpan], count: usize) -> bool
    requires { All (IsHeaderWithin (length answer.now)) headers.now }
    ensures { result ≡ length_said count (map (header_bytes answer.now) headers.now) }
{
    let mut buffer = Buffer::new();
    let digits = buffer.format(count).as_bytes();
    let mut is_given = false;
    for header in headers {
        let name = header.name.of(answer);
        let value = header.value.of(answer);
        if is_other(name, value, digits) {
            return false;
        }
        is_given = is_given || is_named(name, b"content-length");
    }
    is_given
}

/// Whether a header line gives another length, or says that the body is coded.
fn is_other(name: &[u8], value: &[u8], digits: &[u8]) -> bool
    ensures { result ≡ gives_other digits.now (name.now, value.now) }
{
    is_named(name, b"transfer-encoding") || is_named(name, b"content-length") && value != digits
}

/// Whether a header line has this name, in any case of letters.
fn is_named(name: &[u8], wanted: &[u8]) -> bool
    ensures { result ≡ same_letters name.now wanted.now }
{
    name.eq_ignore_ascii_case(wanted)
}
