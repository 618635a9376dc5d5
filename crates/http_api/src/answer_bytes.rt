//! The bytes of an answer.
ghost use Rattle.std.specs.Prelude.{◌≡◌, ◌++◌, flat_map};
ghost use Rattle.byte_streams.specs.Sending.{Sends};
ghost use Rattle.http_api.specs.Answers.{line_end, media_type, digest_line, close_line, head_text, answer_text};
ghost use Rattle.http_api.specs.declared.answer_bytes.Content.TheVariants.{Json};

use crate::refusals::phrase;
use byte_streams::{ByteSink, SinkFault, digest_digits, send};
use http::StatusCode;
use itoa::Buffer;

/// What a body is.
#[derive(Clone, Copy, Drop)]
pub(crate) enum Content {
    /// A value in JSON.
    Json,
    /// The PO text of a language, with its SHA-256 digest.
    PoText([u8; 32]),
}

/// What the head of an answer says.
#[derive(Clone, Copy, Drop)]
pub(crate) struct AnswerHead {
    pub status: StatusCode,
    pub content: Content,
    /// How many bytes the body has.
    pub length: u64,
    /// Whether nothing more is read from the connection.
    pub last: bool,
}

/// Writes texts one behind another.
fn send_all<W: ByteSink>(w: &mut W, texts: &[&str]) -> Result<(), SinkFault>
    ensures { Sends W.taken W.failed w.old w.new (flat_map (λ text. text.now) texts.now) result }
{
    for text in texts {
        send(w, text.as_bytes())?;
    }
    Ok(())
}

/// The media type of a body.
fn media_type(content: Content) -> &'static str
    ensures { result.now ≡ media_type content }
{
    match content {
        Content::Json => "application/json",
        Content::PoText(_) => "text/plain; charset=utf-8",
    }
}

/// Writes the line of a digest, where a body has one.
fn send_digest<W: ByteSink>(w: &mut W, content: Content) -> Result<(), SinkFault>
    ensures { Sends W.taken W.failed w.old w.new (digest_line content) result }
{
    let Content::PoText(sha256) = content else {
        return Ok(());
    };
    send(w, b"X-Office-SHA256: ")?;
    send(w, &digest_digits(sha256))?;
    send(w, b"\r\n")
}

/// The end of a head.
fn head_end(last: bool) -> &'static [u8]
    ensures { result.now ≡ close_line last ++ line_end }
{
    if last {
        b"Connection: close\r\n\r\n"
    } else {
        b"\r\n"
    }
}

/// Writes the head of an answer, up to where its body begins.
pub(crate) fn write_head<W: ByteSink>(w: &mut W, head: AnswerHead) -> Result<(), SinkFault>
    ensures { Sends W.taken W.failed w.old w.new (head_text head) result }
{
    let mut length = Buffer::new();
    let texts = [
        "HTTP/1.1 ",
        head.status.as_str(),
        " ",
        phrase(head.status),
        "\r\nContent-Type: ",
        media_type(head.content),
        "\r\nContent-Length: ",
        length.format(head.length),
        "\r\n",
    ];
    send_all(w, &texts)?;
    send_digest(w, head.content)?;
    send(w, head_end(head.last))
}

/// Writes an answer with a body in JSON.
pub(crate) fn write_json<W: ByteSink>(
    w: &mut W,
    status: StatusCode,
    body: &str,
    last: bool,
) -> Result<(), SinkFault>
    ensures { Sends W.taken W.failed w.old w.new (answer_text status Json body.now last) result }
{
    let head = AnswerHead {
        status,
        content: Content::Json,
        length: body.len() as u64,
        last,
    };
    write_head(w, head)?;
    send(w, body.as_bytes())
}
