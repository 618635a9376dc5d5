//! The strings that pieces stand for.

ghost use Rattle.std.specs.Prelude.{◌≡◌, ◌++◌, ◌∷◌, ◌+◌, ◌<◌, ◌≤◌, length, string_bytes, MatchOption, IfSome, OnOk};
ghost use Rattle.po_lex.specs.Escapes.{meaning_of, unescaped, unescaped_behind};

use memchr::memchr;
use std::alloc::AllocError;

/// The character that a letter stands for behind a backslash.
fn meaning(letter: u8) -> Option<char>
    ensures value { result ≡ meaning_of letter }
    ensures ascii { IfSome result (λ character. character < 128) }
    ensures letter { IfSome result (λ _. letter < 128) }
{
    match letter {
        b'n' => Some('\n'),
        b't' => Some('\t'),
        b'r' => Some('\r'),
        b'a' => Some('\u{7}'),
        b'b' => Some('\u{8}'),
        b'f' => Some('\u{c}'),
        b'v' => Some('\u{b}'),
        b'"' => Some('"'),
        b'\\' => Some('\\'),
        _ => None,
    }
}

/// The character that the text's first letter stands for behind a backslash, and what follows the letter.
fn split_letter(text: &str) -> Option<(char, &str)>
    ensures value { MatchOption result (unescaped_behind text.now ≡ unescaped text.now) (λ cut. unescaped_behind text.now ≡ cut.0 ∷ unescaped cut.1.now) }
    ensures ascii { IfSome result (λ cut. cut.0 < 128) }
    ensures shorter { IfSome result (λ cut. length cut.1.now < length text.now) }
{
    let letter = *text.as_bytes().first()?;
    let character = meaning(letter)?;
    Some((character, &text[1..]))
}

/// What stands in front of the first backslash and what stands behind it. A piece without one is its string.
fn split_backslash(raw: &str) -> Option<(&str, &str)>
    ensures cut { MatchOption result (unescaped raw.now ≡ raw.now) (λ cut. unescaped raw.now ≡ cut.0.now ++ unescaped_behind cut.1.now) }
    ensures lengths { IfSome result (λ cut. length cut.0.now + length cut.1.now + 1 ≡ length raw.now) }
{
    let len = memchr(b'\\', raw.as_bytes())?;
    Some((&raw[..len], &raw[len + 1..]))
}

/// How many bytes the string of a piece has.
pub fn unescaped_len(raw: &str) -> usize
    ensures value { result ≡ length (unescaped raw.now) }
    ensures within { result ≤ length raw.now }
{
    let mut len = 0;
    let mut rest = raw;
    while let Some((front, behind)) = split_backslash(rest) {
        len += front.len();
        rest = match split_letter(behind) {
            Some((_, more)) => {
                len += 1;
                more
            }
            None => behind,
        };
    }
    len + rest.len()
}

/// Adds the string of a piece at the text's end.
pub(crate) fn push_unescaped(text: &mut String, raw: &str) -> Result<(), AllocError>
    ensures { OnOk result (string_bytes text.new ≡ string_bytes text.old ++ unescaped raw.now) }
{
    let mut rest = raw;
    while let Some((front, behind)) = split_backslash(rest) {
        text.push_str(front)?;
        rest = match split_letter(behind) {
            Some((character, more)) => {
                text.push(character)?;
                more
            }
            None => behind,
        };
    }
    text.push_str(rest)
}
