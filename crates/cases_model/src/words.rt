//! The words of a row.
use po_text::{Items, Text};
use std::alloc::Global;
use units::{AcceptAt, CommentLines, Policy};

/// A row's deed, and what it is to come to, behind the first arrow.
pub(crate) fn both_sides(row: &str) -> (&str, &str) {
    row.split_once(" -> ").unwrap_or((row, ""))
}

/// The word at a place; nothing where there are fewer.
pub(crate) fn word(words: &str, place: usize) -> &str {
    words.split(' ').nth(place).unwrap_or("")
}

pub(crate) fn has(words: &str, mark: &str) -> bool {
    for word in words.split(' ') {
        if word == mark {
            return true;
        }
    }
    false
}

/// A deed's words, and the texts behind them, if there are any.
pub(crate) fn words_and_texts(deed: &str) -> (&str, Option<&str>) {
    match deed.split_once('|') {
        Some((words, texts)) => (words, Some(texts)),
        None => (deed, None),
    }
}

pub(crate) fn yes_or_no(holds: bool) -> &'static str {
    if holds { "yes" } else { "no" }
}

/// The policy of such marks, under which so many votes accept.
pub(crate) fn policy(marks: &str, sum: &str) -> Option<Policy> {
    Some(Policy {
        reviews: has(marks, "reviews"),
        guests_suggest: has(marks, "guests"),
        voting: has(marks, "voting"),
        accept_at: AcceptAt::try_new(sum.parse::<u8>().ok()?)?,
        placeholders: has(marks, "placeholders"),
        line_ends: has(marks, "line-ends"),
    })
}

fn put_lines(alloc: Global, lines: &mut Items<Text>, texts: &str) -> Option<()> {
    for text in texts.split('|') {
        lines.push(Text::from_text(alloc, text).ok()?).ok()?;
    }
    Some(())
}

/// The comment of these lines, which stand between the strokes of a text. The inner None where they are too many or too long.
pub(crate) fn comment(alloc: Global, texts: Option<&str>) -> Option<Option<CommentLines>> {
    let mut lines = Items::new(alloc);
    if let Some(texts) = texts {
        put_lines(alloc, &mut lines, texts)?;
    }
    Some(CommentLines::try_new(lines))
}
