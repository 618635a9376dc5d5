//! Quoted pieces.

ghost use Rattle.std.specs.Prelude.{◌≡◌, ℕ, ◌+◌, ◌<◌, length, take, slice_index, is_some, IfOk, IfErr, IsTrue, Ok, Err};
ghost use Rattle.po_lex.specs.Reading.{is_white, is_all_white};
ghost use Rattle.po_lex.specs.Escapes.{raw_at, meaning_of};

use crate::fault::FaultKind;
use crate::scan::bare_len;

pub(crate) fn is_white(b: u8) -> bool
    ensures { result ≡ is_white b }
{
    b == b' ' || b == b'\t'
}

pub(crate) fn is_all_white(bytes: &[u8]) -> bool
    ensures { result ≡ is_all_white bytes.now }
{
    bytes.iter().all(|b| is_white(*b))
}

fn is_letter(b: u8) -> bool
    ensures { result ≡ is_some (meaning_of b) }
{
    matches!(
        b,
        b'n' | b't' | b'r' | b'a' | b'b' | b'f' | b'v' | b'"' | b'\\'
    )
}

/// How many bytes stand before the last quote of a piece, whose first quote is just before these bytes.
pub(crate) fn raw_len(bytes: &[u8]) -> Result<usize, FaultKind>
    ensures ok { IfOk result (λ n. raw_at bytes.now ≡ Ok (take n bytes.now)) }
    ensures within { IfOk result (λ n. n < length bytes.now) }
    ensures quote { IfOk result (λ n. slice_index bytes.now n ≡ 34) }
    ensures err { IfErr result (λ e. raw_at bytes.now ≡ Err e) }
{
    let mut i = bare_len(bytes);
    while i < bytes.len() {
        let c = bytes[i];
        if c == b'"' {
            return if is_all_white(&bytes[i + 1..]) {
                Ok(i)
            } else {
                Err(FaultKind::Quote)
            };
        }
        if c != b'\\' {
            return Err(FaultKind::Quote);
        }
        if i + 1 == bytes.len() || !is_letter(bytes[i + 1]) {
            return Err(FaultKind::Escape);
        }
        let behind = i + 2;
        i = behind + bare_len(&bytes[behind..]);
    }
    Err(FaultKind::Quote)
}
