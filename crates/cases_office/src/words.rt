//! The words of a row, and the texts of bytes.
use std::alloc::Global;

/// A row's deed, and what it is to come to.
pub(crate) fn both_sides(row: &str) -> (&str, &str) {
    row.split_once(" -> ").unwrap_or((row, ""))
}

pub(crate) fn word(words: &str, place: usize) -> &str {
    words.split(' ').nth(place).unwrap_or("")
}

/// What stands behind the first word.
pub(crate) fn behind(words: &str) -> &str {
    match words.split_once(' ') {
        Some((_, rest)) => rest,
        None => "",
    }
}

/// The text of these bytes, with another part in place of each such one. None where they are no text.
pub(crate) fn replaced(alloc: Global, bytes: &[u8], part: &str, other: &str) -> Option<String> {
    match str::from_utf8(bytes) {
        Ok(text) => text.replace(alloc, part, other).ok(),
        Err(_) => None,
    }
}
