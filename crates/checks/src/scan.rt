//! The placeholders of a whole text.

ghost use Rattle.std.specs.Prelude.{◌≡◌, ◌<◌, ◌++◌, IfOk, length, map, string_bytes};
ghost use Rattle.std.specs.Str.{IsAscii};
ghost use Rattle.checks.specs.Directives.{directives};
ghost use Rattle.checks.specs.BracePlaceholders.{brace_placeholders};
ghost use Rattle.checks.specs.Formats.{placeholders_of};

use crate::format::Format;
use po_text::Text;
use std::alloc::Global;
use std::str;
use units::Memory;

/// These bytes, which are a text, as one.
fn ascii_text(alloc: Global, bytes: &[u8]) -> Result<Text, Memory>
    requires { IsAscii bytes.now }
    ensures { IfOk result (λ text. text ≡ bytes.now) }
{
    match str::from_utf8(bytes) {
        Ok(text) => Ok(Text::from_text(alloc, text)?),
        Err(_) => unreachable!(),
    }
}

/// Takes what stands at the front of the text: a pair, a placeholder, or one byte. What is left gives the placeholders that
/// are still to be found.
fn take_front<'a>(
    alloc: Global,
    format: Format,
    found: &mut Vec<Text>,
    text: &'a [u8],
) -> Result<&'a [u8], Memory>
    requires { 0 < length text.now }
    ensures left { IfOk result (λ rest. found.new.items ++ placeholders_of format rest.now ≡ found.old.items ++ placeholders_of format text.now) }
    ensures shorter { IfOk result (λ rest. length rest.now < length text.now) }
{
    if format.begins_with_pair(text) {
        return Ok(&text[2..]);
    }
    match format.placeholder_len(text) {
        Some(len) => {
            found.push(ascii_text(alloc, &text[..len])?)?;
            Ok(&text[len..])
        }
        None => Ok(&text[1..]),
    }
}

/// The placeholders of a text, left to right.
pub(crate) fn placeholder_texts(
    alloc: Global,
    format: Format,
    text: &str,
) -> Result<Vec<Text>, Memory>
    ensures { IfOk result (λ found. found.items ≡ placeholders_of format text.now) }
{
    let mut found = Vec::new(alloc);
    let mut rest = text.as_bytes();
    while !rest.is_empty() {
        rest = take_front(alloc, format, &mut found, rest)?;
    }
    Ok(found)
}

fn placeholder_strings(alloc: Global, format: Format, text: &str) -> Result<Vec<String>, Memory>
    ensures { IfOk result (λ found. map string_bytes found.items ≡ placeholders_of format text.now) }
{
    let mut found = Vec::new(alloc);
    for placeholder in placeholder_texts(alloc, format, text)? {
        found.push(placeholder.into_string())?;
    }
    Ok(found)
}

/// The directives of a `c-format` text, left to right: what `printf` would replace. `%%`, which it prints as `%`, is none.
///
/// `Memory` where a growth was refused.
pub fn directives(alloc: Global, text: &str) -> Result<Vec<String>, Memory>
    ensures { IfOk result (λ found. map string_bytes found.items ≡ directives text.now) }
{
    placeholder_strings(alloc, Format::C, text)
}

/// The placeholders of a `python-brace-format` text, left to right, each as often as it stands there. One is `{`, a name or a
/// number, and `}`. A name is an ASCII letter or `_`, then letters, digits and `_`; a number is `0`, or digits not beginning
/// with 0. `{{` and `}}` are skipped whole, and any other character is skipped alone. So `{name} of {0}` has `{name}` and `{0}`,
/// `{{{a}}}` has `{a}`, and `{{name}}` and `{01} { b} {}` have none.
///
/// The flag is that of the GNU gettext manual, "The Format of PO Files"; which texts count is this project's own rule.
///
/// `Memory` where a growth was refused.
pub fn brace_names(alloc: Global, text: &str) -> Result<Vec<String>, Memory>
    ensures { IfOk result (λ found. map string_bytes found.items ≡ brace_placeholders text.now) }
{
    placeholder_strings(alloc, Format::Brace, text)
}
