//! One directive at the front of a text. Each function takes one part of it, as much as there is.

ghost use Rattle.std.specs.Prelude.{◌≡◌};
ghost use Rattle.std.specs.Option.{option_copied};
ghost use Rattle.std.specs.Char.{is_ascii_digit};
ghost use Rattle.checks.specs.Directives.{after_all, after_part, has_number, after_number, is_flag, after_flags, after_width, after_precision, after_length, is_conversion, after_conversion, after_percent, after_directive};

fn is_digit(byte: u8) -> bool
    ensures { result ≡ is_ascii_digit byte }
{
    byte.is_ascii_digit()
}

fn is_flag(byte: u8) -> bool
    ensures { result ≡ is_flag byte }
{
    b"-+ #0".contains(&byte)
}

fn is_conversion(byte: u8) -> bool
    ensures { result ≡ is_conversion byte }
{
    b"diouxXcspfFeEgGaA".contains(&byte)
}

/// What stands after the digits at the front.
fn after_digits(text: &[u8]) -> &[u8]
    ensures { result.now ≡ after_all is_ascii_digit text.now }
{
    let mut rest = text;
    while let [first, others @ ..] = rest {
        if !is_digit(*first) {
            break;
        }
        rest = others;
    }
    rest
}

fn after_flags(text: &[u8]) -> &[u8]
    ensures { result.now ≡ after_flags text.now }
{
    let mut rest = text;
    while let [first, others @ ..] = rest {
        if !is_flag(*first) {
            break;
        }
        rest = others;
    }
    rest
}

/// What stands after a part that may be there.
fn after_part<'a>(text: &'a [u8], part: &[u8]) -> &'a [u8]
    ensures { result.now ≡ after_part part.now text.now }
{
    if text.starts_with(part) {
        &text[part.len()..]
    } else {
        text
    }
}

/// Whether the text begins with a number not beginning with 0, and `$`.
pub(crate) fn has_number(text: &[u8]) -> bool
    ensures { result ≡ has_number text.now }
{
    matches!(text, [b'1'..=b'9', ..]) && after_digits(text).starts_with(b"$")
}

fn after_number(text: &[u8]) -> &[u8]
    ensures { result.now ≡ after_number text.now }
{
    if has_number(text) {
        after_part(after_digits(text), b"$")
    } else {
        text
    }
}

fn after_width(text: &[u8]) -> &[u8]
    ensures { result.now ≡ after_width text.now }
{
    if text.starts_with(b"*") {
        &text[1..]
    } else {
        after_digits(text)
    }
}

fn after_precision(text: &[u8]) -> &[u8]
    ensures { result.now ≡ after_precision text.now }
{
    if text.starts_with(b".") {
        after_width(&text[1..])
    } else {
        text
    }
}

fn after_length(text: &[u8]) -> &[u8]
    ensures { result.now ≡ after_length text.now }
{
    if text.starts_with(b"hh") || text.starts_with(b"ll") {
        return &text[2..];
    }
    match text {
        [b'h' | b'l' | b'L' | b'j' | b'z' | b't', rest @ ..] => rest,
        _ => text,
    }
}

fn after_conversion(text: &[u8]) -> Option<&[u8]>
    ensures { option_copied result ≡ after_conversion text.now }
{
    match text {
        [first, rest @ ..] if is_conversion(*first) => Some(rest),
        _ => None,
    }
}

/// What stands after a directive whose `%` stands just before the text.
fn after_percent(text: &[u8]) -> Option<&[u8]>
    ensures { option_copied result ≡ after_percent text.now }
{
    let rest = after_width(after_flags(after_number(text)));
    after_conversion(after_length(after_precision(rest)))
}

pub(crate) fn after_directive(text: &[u8]) -> Option<&[u8]>
    ensures { option_copied result ≡ after_directive text.now }
{
    match text {
        [b'%', rest @ ..] => after_percent(rest),
        _ => None,
    }
}
