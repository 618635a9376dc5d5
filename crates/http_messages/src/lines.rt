//! Field lines, found by their names.
ghost use Rattle.std.specs.Prelude.{◌≡◌, ◌<◌, ◌≤◌, length, map, All, Some, None, if◌then◌else◌};
ghost use Rattle.std.specs.List.{list_any};
ghost use Rattle.std.specs.Str.{str_eq_ignore_ascii_case};
ghost use Rattle.std.specs.Str.Parse.{digits_value};
ghost use Rattle.httparse.specs.Spans.{IsHeaderWithin, header_bytes};
ghost use Rattle.http_messages.specs.Values.{AreValues};
ghost use Rattle.http_messages.specs.Framing.{values_of, is_length};

use httparse::spans::HeaderSpan;

/// The values that the field lines of one name have.
#[derive(Clone, Copy)]
pub enum Values<'b> {
    /// No field line has the name.
    None,
    /// One has it.
    One(&'b [u8]),
    /// Two or more have it.
    More,
}

/// Whether two texts are the same but for the case of ASCII letters.
pub(crate) fn is_alike(a: &[u8], b: &[u8]) -> bool
    ensures { result ≡ str_eq_ignore_ascii_case a.now b.now }
{
    a.eq_ignore_ascii_case(b)
}

/// The values of the field lines of a name.
pub(crate) fn values_in<'b>(bytes: &'b [u8], lines: &[HeaderSpan], name: &[u8]) -> Values<'b>
    requires { All (IsHeaderWithin (length bytes.now)) lines.now }
    ensures { AreValues result (values_of name.now (map (header_bytes bytes.now) lines.now)) }
{
    let mut found = Values::None;
    for line in lines {
        if is_alike(line.name.of(bytes), name) {
            match found {
                Values::None => found = Values::One(line.value.of(bytes)),
                _ => found = Values::More,
            }
        }
    }
    found
}

/// Whether a field line of this name has this value, in any case of letters.
pub(crate) fn has_value(bytes: &[u8], lines: &[HeaderSpan], name: &[u8], value: &[u8]) -> bool
    requires { All (IsHeaderWithin (length bytes.now)) lines.now }
    ensures { result ≡ list_any (λ v. str_eq_ignore_ascii_case v value.now) (values_of name.now (map (header_bytes bytes.now) lines.now)) }
{
    for line in lines {
        if is_alike(line.name.of(bytes), name) && is_alike(line.value.of(bytes), value) {
            return true;
        }
    }
    false
}

/// The number that 1 to 9 digits write.
pub(crate) fn length_from(digits: &[u8]) -> Option<u32>
    ensures { result ≡ (if is_length digits.now then Some (digits_value 10 digits.now) else None) }
{
    if digits.is_empty() || digits.len() > 9 {
        return None;
    }
    let mut number = 0;
    for digit in digits {
        if !digit.is_ascii_digit() {
            return None;
        }
        number = number * 10 + u32::from(*digit - b'0');
    }
    Some(number)
}
