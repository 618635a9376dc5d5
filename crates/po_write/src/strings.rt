//! Strings behind their keywords, escaped, in one piece or more.

ghost use Rattle.std.specs.Prelude.{◌≡◌, ◌≢◌, ◌+◌, ◌-◌, ◌<◌, ◌≤◌, ◌++◌, ℕ, length, drop, slice_index, is_some, false, flat_map, codes};
ghost use Rattle.po_lex.specs.Escapes.{letter_of, escaped_byte, escaped, quoted};
ghost use Rattle.po_lex.specs.Lines.{keyword_text};
ghost use Rattle.po_text.specs.Entries.{optional, keyed_forms, numbered, previous_strings, entry_strings};
ghost use Rattle.po_text.specs.Strings.{form_limit};
ghost use Rattle.po_write.specs.Keywords.{HasDigit};
ghost use Rattle.byte_streams.specs.Sending.{Sends};
ghost use Rattle.po_write.specs.Text.{ended, front_of, pieces_of, piece_lines, string_lines, string_pieces};

use byte_streams::{ByteSink, SinkFault, send};
use memchr::memchr;
use po_lex::{Keyword, bare_len};
use po_text::{Entry, PoString, Previous};

/// The letter that stands for a byte behind a backslash.
fn letter_of(byte: u8) -> Option<u8>
    ensures { result ≡ letter_of byte }
{
    match byte {
        b'\n' => Some(b'n'),
        b'\t' => Some(b't'),
        b'\r' => Some(b'r'),
        0x07 => Some(b'a'),
        0x08 => Some(b'b'),
        0x0c => Some(b'f'),
        0x0b => Some(b'v'),
        b'"' => Some(b'"'),
        b'\\' => Some(b'\\'),
        _ => None,
    }
}

/// How many bytes at the front stand as they are.
fn plain_len(bytes: &[u8]) -> usize
    ensures plain { (k : ℕ) → k < result → is_some (letter_of (slice_index bytes.now k)) ≡ false }
    ensures within { result ≤ length bytes.now }
{
    bare_len(bytes)
}

/// The length of the first piece: up to and with the first LF, or all.
fn piece_len(text: &[u8]) -> usize
    ensures some { 0 < length text.now → 0 < result }
    ensures before { (k : ℕ) → k + 1 < result → slice_index text.now k ≢ 10 }
    ensures last { result < length text.now → slice_index text.now (result - 1) ≡ 10 }
    ensures within { result ≤ length text.now }
{
    match memchr(b'\n', text) {
        Some(before) => before + 1,
        None => text.len(),
    }
}

fn write_byte<W: ByteSink>(w: &mut W, byte: u8) -> Result<(), SinkFault>
    ensures { Sends W.taken W.failed w.old w.new (escaped_byte (letter_of byte) byte) result }
{
    match letter_of(byte) {
        Some(letter) => send(w, &[b'\\', letter]),
        None => send(w, &[byte]),
    }
}

/// Writes runs of bytes that stand as they are, and each other byte by its escape.
fn write_escaped<W: ByteSink>(w: &mut W, string: &[u8]) -> Result<(), SinkFault>
    ensures { Sends W.taken W.failed w.old w.new (escaped string.now) result }
{
    let mut rest = string;
    loop {
        let (plain, behind) = rest.split_at(plain_len(rest));
        send(w, plain)?;
        let Some((first, others)) = behind.split_first() else {
            return Ok(());
        };
        write_byte(w, *first)?;
        rest = others;
    }
}

/// Writes a piece to the end of its line.
fn write_piece<W: ByteSink>(w: &mut W, piece: &[u8]) -> Result<(), SinkFault>
    ensures { Sends W.taken W.failed w.old w.new (ended (quoted piece.now)) result }
{
    send(w, b"\"")?;
    write_escaped(w, piece)?;
    send(w, b"\"\n")
}

/// Writes the pieces of a string, each on a line of its own.
fn write_piece_lines<W: ByteSink>(w: &mut W, mark: &[u8], string: &[u8]) -> Result<(), SinkFault>
    ensures { Sends W.taken W.failed w.old w.new (piece_lines mark.now (pieces_of string.now)) result }
{
    let mut rest = string;
    while !rest.is_empty() {
        let (piece, behind) = rest.split_at(piece_len(rest));
        send(w, mark)?;
        write_piece(w, piece)?;
        rest = behind;
    }
    Ok(())
}

/// Writes a string in one piece, or behind an empty one in a piece for each of its lines; all but the first quote.
fn write_pieces<W: ByteSink>(w: &mut W, mark: &[u8], string: &[u8]) -> Result<(), SinkFault>
    ensures { Sends W.taken W.failed w.old w.new (drop 1 (string_pieces mark.now string.now)) result }
{
    if piece_len(string) < string.len() {
        send(w, b"\"\n")?;
        write_piece_lines(w, mark, string)
    } else {
        write_escaped(w, string)?;
        send(w, b"\"\n")
    }
}

/// Writes a keyword, a space and a quote.
fn write_keyword<W: ByteSink>(w: &mut W, keyword: Keyword) -> Result<(), SinkFault>
    requires { HasDigit keyword }
    ensures { Sends W.taken W.failed w.old w.new (keyword_text keyword ++ codes " \"") result }
{
    match keyword {
        Keyword::Msgctxt => send(w, b"msgctxt \""),
        Keyword::Msgid => send(w, b"msgid \""),
        Keyword::MsgidPlural => send(w, b"msgid_plural \""),
        Keyword::Msgstr => send(w, b"msgstr \""),
        Keyword::MsgstrAt(number) => {
            let digit = b'0' + number;
            send(
                w,
                &[
                    b'm', b's', b'g', b's', b't', b'r', b'[', digit, b']', b' ', b'"',
                ],
            )
        }
    }
}

/// Writes a mark, a keyword, a space and the first quote.
fn write_front<W: ByteSink>(w: &mut W, mark: &[u8], keyword: Keyword) -> Result<(), SinkFault>
    requires { HasDigit keyword }
    ensures { Sends W.taken W.failed w.old w.new (front_of mark.now keyword ++ codes "\"") result }
{
    send(w, mark)?;
    write_keyword(w, keyword)
}

/// Writes a string under its keyword.
fn write_string<W: ByteSink>(
    w: &mut W,
    mark: &[u8],
    keyword: Keyword,
    string: &PoString,
) -> Result<(), SinkFault>
    requires { HasDigit keyword }
    ensures { Sends W.taken W.failed w.old w.new (string_lines mark.now (keyword, string.now)) result }
{
    write_front(w, mark, keyword)?;
    write_pieces(w, mark, string.as_str().as_bytes())
}

fn write_optional<W: ByteSink>(
    w: &mut W,
    mark: &[u8],
    keyword: Keyword,
    string: &Option<PoString>,
) -> Result<(), SinkFault>
    requires { HasDigit keyword }
    ensures { Sends W.taken W.failed w.old w.new (flat_map (string_lines mark.now) (optional keyword string.now)) result }
{
    match string {
        None => Ok(()),
        Some(string) => write_string(w, mark, keyword, string),
    }
}

/// Writes the forms of an entry without a msgid_plural.
fn write_single<W: ByteSink>(w: &mut W, mark: &[u8], forms: &[PoString]) -> Result<(), SinkFault>
    ensures { Sends W.taken W.failed w.old w.new (flat_map (string_lines mark.now) (keyed_forms None forms.now)) result }
{
    for form in forms {
        write_string(w, mark, Keyword::Msgstr, form)?;
    }
    Ok(())
}

/// Writes the forms of an entry with a msgid_plural, numbered from 0.
fn write_numbered<W: ByteSink>(w: &mut W, mark: &[u8], forms: &[PoString]) -> Result<(), SinkFault>
    requires { length forms.now ≤ form_limit }
    ensures { Sends W.taken W.failed w.old w.new (flat_map (string_lines mark.now) (numbered 0 forms.now)) result }
{
    let mut number = 0;
    for form in forms {
        write_string(w, mark, Keyword::MsgstrAt(number), form)?;
        number += 1;
    }
    Ok(())
}

/// Writes what the key and the msgid_plural were before.
pub(crate) fn write_previous<W: ByteSink>(
    w: &mut W,
    mark: &[u8],
    previous: &Previous,
) -> Result<(), SinkFault>
    ensures { Sends W.taken W.failed w.old w.new (flat_map (string_lines mark.now) (previous_strings previous.now)) result }
{
    write_optional(w, mark, Keyword::Msgctxt, &previous.ctx)?;
    write_optional(w, mark, Keyword::Msgid, &previous.id)?;
    write_optional(w, mark, Keyword::MsgidPlural, &previous.plural)
}

/// Writes an entry's message lines.
pub(crate) fn write_messages<W: ByteSink>(
    w: &mut W,
    mark: &[u8],
    entry: &Entry,
) -> Result<(), SinkFault>
    ensures { Sends W.taken W.failed w.old w.new (flat_map (string_lines mark.now) (entry_strings entry.now)) result }
{
    write_optional(w, mark, Keyword::Msgctxt, &entry.ctx)?;
    write_string(w, mark, Keyword::Msgid, &entry.id)?;
    write_optional(w, mark, Keyword::MsgidPlural, &entry.plural)?;
    match &entry.plural {
        None => write_single(w, mark, entry.forms.as_slice()),
        Some(_) => write_numbered(w, mark, entry.forms.as_slice()),
    }
}
