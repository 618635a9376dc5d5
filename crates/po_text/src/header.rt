//! The fields of a header's string.

ghost use Rattle.std.specs.Prelude.{◌≡◌, codes};
ghost use Rattle.std.specs.Option.{option_copied};
ghost use Rattle.po_text.specs.Header.{value_in, field_value, all_of, after_word, up_to_semicolon, is_charset, has_charset};
ghost use Rattle.po_lex.specs.Reading.{trim};

use po_lex::{first_line, trim};

/// The value of the header's first field with the name, without spaces and tabs at its ends. It takes no memory.
pub fn field_value<'a>(header: &'a str, name: &str) -> Option<&'a str>
    ensures { option_copied result ≡ field_value name.now header.now }
{
    let mut rest = header;
    while let Some((line, more)) = first_line(rest) {
        if let Some(value) = value_in(line, name) {
            return Some(value);
        }
        rest = more;
    }
    None
}

/// The value of the field that the line is, if it has the name.
fn value_in<'a>(line: &'a str, name: &str) -> Option<&'a str>
    ensures { option_copied result ≡ value_in name.now line.now }
{
    match line.split_once(':') {
        Some((found, value)) => {
            if found == name {
                Some(trim(value))
            } else {
                None
            }
        }
        None => None,
    }
}

/// Whether the charset of a header's `Content-Type`, if it names one, is UTF-8 or still to be filled in.
pub fn has_charset(header: &str) -> bool
    ensures { result ≡ has_charset header.now }
{
    match field_value(header, "Content-Type") {
        Some(value) => names_charset(value),
        None => true,
    }
}

/// Whether the charset that a `Content-Type` names, if it does, is UTF-8 or still to be filled in.
fn names_charset(value: &str) -> bool
    ensures { result ≡ all_of (λ rest. is_charset (trim (up_to_semicolon rest))) (after_word (codes "charset=") value.now) }
{
    match value.split_once("charset=") {
        Some((_, rest)) => is_charset(trim(up_to_semicolon(rest))),
        None => true,
    }
}

fn up_to_semicolon(text: &str) -> &str
    ensures { result.now ≡ up_to_semicolon text.now }
{
    match text.split_once(';') {
        Some((front, _)) => front,
        None => text,
    }
}

fn is_charset(name: &str) -> bool
    ensures { result ≡ is_charset name.now }
{
    name.eq_ignore_ascii_case("UTF-8") || name == "CHARSET"
}
