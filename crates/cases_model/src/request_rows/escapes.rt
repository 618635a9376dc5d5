//! Marks for what a line can't hold.
use std::alloc::Global;

/// Puts what a mark stands for.
fn put_mark(text: &mut String, mark: &str) -> Option<()> {
    if let Some(digits) = mark.strip_prefix("U+") {
        let number = u32::from_str_radix(digits, 16).ok()?;
        return text.push(char::from_u32(number)?).ok();
    }
    let (times, repeated) = mark.split_once('*')?;
    for _ in 0..times.parse::<u32>().ok()? {
        text.push_str(repeated).ok()?;
    }
    Some(())
}

/// Puts what a mark stands for, and the text behind it.
fn put_marked(text: &mut String, piece: &str) -> Option<()> {
    let (mark, rest) = piece.split_once('>')?;
    put_mark(text, mark)?;
    text.push_str(rest).ok()
}

/// Puts the text that a row writes with marks.
pub(crate) fn put_text(text: &mut String, row: &str) -> Option<()> {
    let mut pieces = row.split('<');
    text.push_str(pieces.next()?).ok()?;
    for piece in pieces {
        put_marked(text, piece)?;
    }
    Some(())
}

/// Whether what a row wants stands for this text.
pub(crate) fn means(alloc: Global, wanted: &str, text: &str) -> bool {
    let mut meant = String::new(alloc);
    put_text(&mut meant, wanted).is_some() && meant.as_str() == text
}
