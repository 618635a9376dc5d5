//! Bytes that stand as they are between quotes, sixteen at a time.

ghost use Rattle.std.specs.Prelude.{◌≡◌, ◌+◌, ◌<◌, ◌≤◌, length, map};
ghost use Rattle.std.specs.List.{prefix_len};
ghost use Rattle.std.specs.Simd.Lanes.{mask_l};
ghost use Rattle.po_lex.specs.Escapes.{is_bare, is_stop};

use std::simd::prelude::*;

/// The bits of the bytes that don't stand as they are, the lowest that of the first.
#[inline(always)]
fn stops(bytes: u8x16) -> u64
    ensures { result ≡ mask_l (map is_stop bytes) }
{
    (bytes.simd_lt(u8x16::splat(32))
        | bytes.simd_eq(u8x16::splat(b'"'))
        | bytes.simd_eq(u8x16::splat(b'\\'))).to_bitmask()
}

/// `bare_len`, byte by byte.
fn bare_len_slowly(bytes: &[u8]) -> usize
    ensures { result ≡ prefix_len is_bare bytes.now }
{
    let mut i = 0;
    while i < bytes.len() && bytes[i] >= 32 && bytes[i] != b'"' && bytes[i] != b'\\' {
        i += 1;
    }
    i
}

/// How many bytes at the front stand as they are between quotes: those before the first control character, quote or
/// backslash, or all.
pub fn bare_len(bytes: &[u8]) -> usize
    ensures value { result ≡ prefix_len is_bare bytes.now }
    ensures within { result ≤ length bytes.now }
{
    let len = bytes.len();
    if len < 16 {
        return bare_len_slowly(bytes);
    }
    let mut i = 0;
    while 16 <= len - i {
        let found = stops(u8x16::from_slice(&bytes[i..]));
        if found != 0 {
            return i + found.trailing_zeros() as usize;
        }
        i += 16;
    }
    // The last sixteen, of which those before i stand as they are.
    let found = stops(u8x16::from_slice(&bytes[len - 16..]));
    if found != 0 {
        len - 16 + found.trailing_zeros() as usize
    } else {
        len
    }
}
