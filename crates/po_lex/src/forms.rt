//! The form of a line.

ghost use Rattle.std.specs.Prelude.{◌≡◌, ◌∷◌, ◌<◌, ◌==◌, not, true, false, length, drop, map, option_map, IfOk, IfErr, IfSome, MatchOption};
ghost use Rattle.std.specs.List.{find, list_all, slice_split};
ghost use Rattle.std.specs.Str.{bytes_eq};
ghost use Rattle.po_lex.specs.Reading.{is_all_white, skip_white};
ghost use Rattle.po_lex.specs.Escapes.{unescaped};
ghost use Rattle.po_lex.specs.Lines.{begins_with, word_of, keyword_of, is_form, piece_at, part_at, is_comment_text, comment_of, skip_space, flags_of, previous_at, message_at, spaced, obsolete_at, comment_at, line_of};
ghost use Rattle.po_lex.specs.PlainTokens.{read_part, read_line, plain_line, spelled, IsSliceOf, SlicesPart, SlicesLine};

use crate::fault::FaultKind;
use crate::line::{Keyword, Line, Part};
use crate::pieces::{is_all_white, is_white, raw_len};
use crate::scan::bare_len;

/// The keywords as they are written.
const KEYWORDS: [(&str, Keyword); 12] = [
    ("msgctxt", Keyword::Msgctxt),
    ("msgid", Keyword::Msgid),
    ("msgid_plural", Keyword::MsgidPlural),
    ("msgstr", Keyword::Msgstr),
    ("msgstr[0]", Keyword::MsgstrAt(0)),
    ("msgstr[1]", Keyword::MsgstrAt(1)),
    ("msgstr[2]", Keyword::MsgstrAt(2)),
    ("msgstr[3]", Keyword::MsgstrAt(3)),
    ("msgstr[4]", Keyword::MsgstrAt(4)),
    ("msgstr[5]", Keyword::MsgstrAt(5)),
    ("msgstr[6]", Keyword::MsgstrAt(6)),
    ("msgstr[7]", Keyword::MsgstrAt(7)),
];

fn begins_with(text: &str, mark: char) -> bool
    requires ascii { mark < 128 }
    requires some { 0 < mark }
    ensures { result ≡ begins_with mark text.now }
{
    text.starts_with(mark)
}

/// The text behind this ASCII character, if it begins the text.
fn behind(text: &str, mark: char) -> Option<&str>
    requires { mark < 128 }
    ensures { MatchOption result (begins_with mark text.now ≡ false) (λ rest. text.now ≡ mark ∷ rest.now) }
{
    text.strip_prefix(mark)
}

#[tactic(auto, using(crate::proofs::SliceLemmas::all_slice, crate::proofs::SliceLemmas::slice_behind, crate::proofs::SliceLemmas::slice_within, crate::proofs::SliceLemmas::front_slice))]
fn behind_white(text: &str) -> Option<&str>
    ensures rest { MatchOption result (skip_white text.now ≡ text.now) (λ rest. skip_white text.now ≡ skip_white rest.now) }
    ensures slice { IfSome result (λ rest. IsSliceOf text.now rest.now) }
    ensures shorter { IfSome result (λ rest. length rest.now < length text.now) }
{
    match behind(text, ' ') {
        Some(rest) => Some(rest),
        None => behind(text, '\t'),
    }
}

#[tactic(auto, using(crate::proofs::SliceLemmas::all_slice, crate::proofs::SliceLemmas::slice_behind, crate::proofs::SliceLemmas::slice_within, crate::proofs::SliceLemmas::front_slice))]
pub(crate) fn skip_white(text: &str) -> &str
    ensures value { result.now ≡ skip_white text.now }
    ensures slice { IsSliceOf text.now result.now }
{
    let mut rest = text;
    while let Some(next) = behind_white(rest) {
        rest = next;
    }
    rest
}

#[tactic(auto, using(crate::proofs::SliceLemmas::all_slice, crate::proofs::SliceLemmas::slice_behind, crate::proofs::SliceLemmas::slice_within, crate::proofs::SliceLemmas::front_slice))]
fn skip_space(text: &str) -> &str
    ensures value { result.now ≡ skip_space text.now }
    ensures slice { IsSliceOf text.now result.now }
{
    match behind(text, ' ') {
        Some(rest) => rest,
        None => text,
    }
}

/// How many bytes stand in front of the first white, or of the end.
fn word_len(bytes: &[u8]) -> usize
    ensures { result ≡ length (word_of bytes.now) }
{
    for (i, b) in bytes.iter().enumerate() {
        if is_white(*b) {
            return i;
        }
    }
    bytes.len()
}

/// What stands in front of the first white, or of the end, and the rest.
fn split_word(text: &str) -> (&str, &str)
    ensures word { result.0.now ≡ word_of text.now }
    ensures rest { result.1.now ≡ drop (length (word_of text.now)) text.now }
    ensures slice { IsSliceOf text.now result.1.now }
{
    text.split_at(word_len(text.as_bytes()))
}

/// The keyword of the table that is written as this word.
fn written_as(table: &[(&str, Keyword)], word: &str) -> Option<Keyword>
    ensures { result ≡ option_map (λ w. w.1) (find (λ w. bytes_eq w.0 word.now) (map spelled table.now)) }
{
    for (text, keyword) in table {
        if *text == word {
            return Some(*keyword);
        }
    }
    None
}

fn keyword_of(word: &str) -> Option<Keyword>
    ensures { result ≡ keyword_of word.now }
{
    written_as(&KEYWORDS, word)
}

/// What stands between the quotes of a piece.
fn piece_at(text: &str) -> Result<&str, FaultKind>
    ensures ok { IfOk result (λ raw. piece_at text.now ≡ Ok (unescaped raw.now)) }
    ensures slice { IfOk result (λ raw. IsSliceOf text.now raw.now) }
    ensures err { IfErr result (λ e. piece_at text.now ≡ Err e) }
{
    let Some(rest) = behind(text, '"') else {
        return Err(FaultKind::Quote);
    };
    let n = raw_len(rest.as_bytes())?;
    Ok(&rest[..n])
}

/// A message line's keyword and piece, or a piece.
#[tactic(auto, unfolding(crate::specs::Lines::part_at))]
fn part_at(text: &str) -> Result<Part<'_>, FaultKind>
    ensures value { read_part result ≡ part_at text.now }
    ensures slices { IfOk result (λ part. SlicesPart text.now part) }
{
    if begins_with(text, '"') {
        return Ok(Part::Continues(piece_at(text)?));
    }
    let (word, rest) = split_word(text);
    let Some(keyword) = keyword_of(word) else {
        return Err(FaultKind::Line);
    };
    Ok(Part::Begins(keyword, piece_at(skip_white(rest))?))
}

/// Whether the text has no control character but tabs.
pub fn is_comment_text(text: &str) -> bool
    ensures { result ≡ is_comment_text text.now }
{
    let bytes = text.as_bytes();
    let mut i = bare_len(bytes);
    while i < bytes.len() {
        if bytes[i] < 32 && bytes[i] != b'\t' {
            return false;
        }
        let behind = i + 1;
        i = behind + bare_len(&bytes[behind..]);
    }
    true
}

/// The line of a comment with this text.
fn comment_of<'a>(text: &str, line: Line<'a>) -> Result<Line<'a>, FaultKind>
    ensures value { read_line result ≡ comment_of (λ _. plain_line line.entry) text.now }
    ensures same { IfOk result (λ told. told ≡ line.entry) }
{
    if is_comment_text(text) {
        Ok(line)
    } else {
        Err(FaultKind::Line)
    }
}

#[tactic(auto, using(crate::proofs::SliceLemmas::all_slice, crate::proofs::SliceLemmas::items_there))]
fn flags_of(text: &str) -> Result<Line<'_>, FaultKind>
    ensures value { read_line result ≡ flags_of text.now }
    ensures slices { IfOk result (λ line. SlicesLine text.now line) }
{
    if is_comment_text(text) && has_items(text.as_bytes()) {
        Ok(Line::Flags(text))
    } else {
        Err(FaultKind::Line)
    }
}

/// Whether each item between commas has something that is not white.
fn has_items(bytes: &[u8]) -> bool
    ensures { result ≡ list_all (λ item. not (is_all_white item)) (slice_split (λ b. b == 44) bytes.now) }
{
    bytes.split(|b| *b == b',').all(|item| !is_all_white(item))
}

fn message_at(obsolete: bool, text: &str) -> Result<Line<'_>, FaultKind>
    ensures value { read_line result ≡ message_at obsolete text.now }
    ensures slices { IfOk result (λ line. SlicesLine text.now line) }
{
    let part = part_at(text)?;
    Ok(Line::Message { obsolete, part })
}

fn is_form(keyword: Option<Keyword>) -> bool
    ensures { result ≡ is_form keyword }
{
    matches!(keyword, Some(Keyword::Msgstr | Keyword::MsgstrAt(_)))
}

/// A previous string's line, behind its mark and a space.
fn previous_at(obsolete: bool, text: &str) -> Result<Line<'_>, FaultKind>
    ensures value { read_line result ≡ spaced (previous_at obsolete) text.now }
    ensures slices { IfOk result (λ line. SlicesLine text.now line) }
{
    let Some(rest) = behind(text, ' ') else {
        return Err(FaultKind::Line);
    };
    let (word, _) = split_word(rest);
    if is_form(keyword_of(word)) {
        return Err(FaultKind::Line);
    }
    let part = part_at(rest)?;
    Ok(Line::Previous { obsolete, part })
}

/// A line behind `#~`.
fn obsolete_at(text: &str) -> Result<Line<'_>, FaultKind>
    ensures value { read_line result ≡ obsolete_at text.now }
    ensures slices { IfOk result (λ line. SlicesLine text.now line) }
{
    if let Some(rest) = behind(text, ' ') {
        message_at(true, rest)
    } else if let Some(rest) = behind(text, '|') {
        previous_at(true, rest)
    } else {
        Err(FaultKind::Line)
    }
}

/// A line behind `#`.
fn comment_at(text: &str) -> Result<Line<'_>, FaultKind>
    ensures value { read_line result ≡ comment_at text.now }
    ensures slices { IfOk result (λ line. SlicesLine text.now line) }
{
    if let Some(rest) = behind(text, '.') {
        let rest = skip_space(rest);
        comment_of(rest, Line::Extracted(rest))
    } else if let Some(rest) = behind(text, ':') {
        let rest = skip_space(rest);
        comment_of(rest, Line::Reference(rest))
    } else if let Some(rest) = behind(text, ',') {
        flags_of(rest)
    } else if let Some(rest) = behind(text, '|') {
        previous_at(false, rest)
    } else if let Some(rest) = behind(text, '~') {
        obsolete_at(rest)
    } else if begins_with(text, '=') {
        Err(FaultKind::Line)
    } else {
        let text = skip_space(text);
        comment_of(text, Line::Translator(text))
    }
}

/// What a line is, or the kind of its fault.
#[tactic(auto, unfolding(crate::specs::Lines::line_of))]
pub(crate) fn line_of(line: &str) -> Result<Line<'_>, FaultKind>
    ensures value { read_line result ≡ line_of line.now }
    ensures slices { IfOk result (λ found. SlicesLine line.now found) }
{
    if is_all_white(line.as_bytes()) {
        return Ok(Line::Blank);
    }
    match behind(line, '#') {
        Some(rest) => comment_at(rest),
        None => message_at(false, line),
    }
}
