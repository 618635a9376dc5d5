//! The words of a row.

/// A row's deed, and what it is to come to.
pub(crate) fn both_sides(row: &str) -> (&str, &str) {
    row.split_once(" -> ").unwrap_or((row, ""))
}

/// The first word, and what stands behind it.
pub(crate) fn first_word(words: &str) -> (&str, &str) {
    words.split_once(' ').unwrap_or((words, ""))
}
