//! One whole head of a request.
ghost use Rattle.std.specs.Prelude.{◌≡◌, ◌≤◌, length, map, take, option_map, IfSome, IfNone};
ghost use Rattle.httparse.specs.Grammar.{RequestHead};
ghost use Rattle.http_messages.specs.Grammar.{IsHead};
ghost use Rattle.httparse.specs.Spans.{IsRequestAt, IsRequestWithin};
ghost use Rattle.http_messages.specs.Heads.{head_of};

use crate::lines::{Values, has_value, length_from, values_in};
use http::Method;
use httparse::Status;
use httparse::spans::{EMPTY_HEADER_SPAN, HeaderSpan, RequestSpans, parse_request};
use std::marker::Model;

/// How many field lines a head has at most.
const FIELD_LIMIT: usize = 32;

/// How long the body behind a head is, as its field lines say.
#[derive(Clone, Copy, Drop)]
pub(crate) enum BodyLength {
    /// No length is given.
    Absent,
    /// It is given twice, or isn't 1 to 9 digits, or there is a `Transfer-Encoding`.
    Bad,
    /// This many bytes.
    Given(u32),
}

/// The head of a request, in the bytes that it was read from.
#[derive(Drop)]
pub(crate) struct Head<'b> {
    bytes: &'b [u8],
    spans: RequestSpans,
    lines: [HeaderSpan; FIELD_LIMIT],
}

impl<'b> Model for Head<'b> {
    ghost use Rattle.http_messages.specs.Heads.{Head as HeadValue};
    ghost use Rattle.http_messages.specs.Read.{head_at, IsHeadAt};

    ghost Value = { HeadValue };

    ghost view = { λ h. head_at h.bytes.now h.spans h.lines };

    ghost invariant = { λ h. IsHeadAt h.bytes.now h.spans h.lines };
}

/// Where the parts of a head are that is all of these bytes.
fn whole_head(bytes: &[u8], lines: &mut [HeaderSpan; FIELD_LIMIT]) -> Option<RequestSpans>
    ensures some { IfSome result (λ spans. (h : RequestHead) × IsHead bytes.now h × IsRequestAt bytes.now lines.new spans h) }
    ensures within { IfSome result (IsRequestWithin bytes.now lines.new) }
    ensures none { IfNone result ((h : RequestHead) → ¬ IsHead bytes.now h) }
{
    match parse_request(bytes, lines) {
        Ok(Status::Complete(spans)) if spans.len == bytes.len() => Some(spans),
        _ => None,
    }
}

impl<'b> Head<'b> {
    ghost use Rattle.http_messages.specs.Values.{AreValues};
    ghost use Rattle.http_messages.specs.Framing.{values_of, body_length, closes};

    /// The head that all of these bytes are. `None` where they are no head of HTTP/1.0 or HTTP/1.1, or one of more than 32 field
    /// lines.
    #[tactic(auto, using(crate::proofs::ReadLemmas::head_read, crate::proofs::HeadLemmas::head_of_none))]
    pub(crate) fn read(bytes: &'b [u8]) -> Option<Head<'b>>
        ensures { result ≡ head_of bytes.now }
    {
        let mut lines = [EMPTY_HEADER_SPAN; FIELD_LIMIT];
        let spans = whole_head(bytes, &mut lines)?;
        Some(Head {
            bytes,
            spans,
            lines,
        })
    }

    /// The method, a token.
    pub(crate) fn method(&self) -> &'b [u8]
        ensures { result.now ≡ self.now.method }
    {
        self.spans.method.of(self.bytes)
    }

    /// The target, undecoded.
    pub(crate) fn target(&self) -> &'b str
        ensures { result.now ≡ self.now.target }
    {
        match str::from_utf8(self.spans.path.of(self.bytes)) {
            Ok(target) => target,
            Err(_) => unreachable!(),
        }
    }

    /// The values of the field lines of this name, in any case of letters, without white space around them.
    pub(crate) fn values(&self, name: &[u8]) -> Values<'b>
        ensures { AreValues result (values_of name.now self.now.fields) }
    {
        values_in(self.bytes, &self.lines[..self.spans.headers], name)
    }

    /// How long the body is.
    pub(crate) fn body_length(&self) -> BodyLength
        ensures { result ≡ body_length self.now }
    {
        match self.values(b"Transfer-Encoding") {
            Values::None => {}
            _ => return BodyLength::Bad,
        }
        match self.values(b"Content-Length") {
            Values::None => BodyLength::Absent,
            Values::One(value) => match length_from(value) {
                Some(length) => BodyLength::Given(length),
                None => BodyLength::Bad,
            },
            Values::More => BodyLength::Bad,
        }
    }

    /// Whether the connection ends after this request: that of HTTP/1.0, one by HEAD, whose answer's body nobody takes, and one that says so.
    pub(crate) fn closes(&self) -> bool
        ensures { result ≡ closes self.now }
    {
        self.spans.version == 0
            || self.method() == Method::HEAD.as_str().as_bytes()
            || has_value(
                self.bytes,
                &self.lines[..self.spans.headers],
                b"Connection",
                b"close",
            )
    }
}
