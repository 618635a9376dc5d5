//! One brace placeholder at the front of a text.

ghost use Rattle.std.specs.Prelude.{◌≡◌, ◌≤◌, length};
ghost use Rattle.std.specs.Option.{option_copied};
ghost use Rattle.std.specs.List.{list_all, prefix_len};
ghost use Rattle.std.specs.Char.{is_ascii_digit};
ghost use Rattle.checks.specs.BracePlaceholders.{begins_name, is_name_byte, is_name, is_number, after_close, after_open, after_brace};

fn begins_name(byte: u8) -> bool
    ensures { result ≡ begins_name byte }
{
    byte.is_ascii_alphabetic() || byte == b'_'
}

fn is_name_byte(byte: u8) -> bool
    ensures { result ≡ is_name_byte byte }
{
    byte.is_ascii_alphanumeric() || byte == b'_'
}

/// How many letters, digits and `_` stand at the front.
fn key_len(text: &[u8]) -> usize
    ensures value { result ≡ prefix_len is_name_byte text.now }
    ensures within { result ≤ length text.now }
{
    text.iter().take_while(|byte| is_name_byte(**byte)).count()
}

fn are_name_bytes(text: &[u8]) -> bool
    ensures { result ≡ list_all is_name_byte text.now }
{
    text.iter().all(|byte| is_name_byte(*byte))
}

fn are_digits(text: &[u8]) -> bool
    ensures { result ≡ list_all is_ascii_digit text.now }
{
    text.iter().all(|byte| byte.is_ascii_digit())
}

fn is_name(text: &[u8]) -> bool
    ensures { result ≡ is_name text.now }
{
    match text {
        [first, rest @ ..] => begins_name(*first) && are_name_bytes(rest),
        [] => false,
    }
}

fn is_number(text: &[u8]) -> bool
    ensures { result ≡ is_number text.now }
{
    match text {
        [b'0'] => true,
        [b'1'..=b'9', rest @ ..] => are_digits(rest),
        _ => false,
    }
}

fn after_close(text: &[u8]) -> Option<&[u8]>
    ensures { option_copied result ≡ after_close text.now }
{
    match text {
        [b'}', rest @ ..] => Some(rest),
        _ => None,
    }
}

/// What stands after a placeholder whose `{` stands just before the text.
fn after_open(text: &[u8]) -> Option<&[u8]>
    ensures { option_copied result ≡ after_open text.now }
{
    let (key, rest) = text.split_at(key_len(text));
    if is_name(key) || is_number(key) {
        after_close(rest)
    } else {
        None
    }
}

pub(crate) fn after_brace(text: &[u8]) -> Option<&[u8]>
    ensures { option_copied result ≡ after_brace text.now }
{
    match text {
        [b'{', rest @ ..] => after_open(rest),
        _ => None,
    }
}
