//! A list as a text, whose lines are sent.
use crate::named::Named;
use crate::sender_rows::scripted::Scripted;
use crate::stream_rows::{Streams, told};
use crate::words::word;
use std::alloc::Global;

/// Adds the lines of a list, joined by LF.
fn put_lines(text: &mut String, named: &[Named], list: &str) -> Option<()> {
    let mut end = "";
    for one in named {
        if one.name.as_str() == list {
            text.push_str(end).ok()?;
            text.push_str(one.line.as_str()).ok()?;
            end = "\n";
        }
    }
    Some(())
}

/// Sends a text over a link, with streams as a deed has them, and tells what comes of it.
fn sent_told(alloc: Global, text: &str, link: &mut Scripted<'_>, deed: &str) -> Option<String> {
    let tries = word(deed, 2).parse::<u32>().ok()?;
    let mut streams = Streams::new(alloc, deed, text.as_bytes(), usize::MAX);
    let status = streams.send(alloc, link, tries);
    told(alloc, status, &streams, false)
}

/// Sends a list's text over a link, and tells what comes of it.
pub(crate) fn lines_told(
    alloc: Global,
    named: &[Named],
    link: &mut Scripted<'_>,
    deed: &str,
) -> Option<String> {
    let mut text = String::new(alloc);
    let told = match put_lines(&mut text, named, word(deed, 1)) {
        Some(()) => sent_told(alloc, text.as_str(), link, deed),
        None => None,
    };
    drop(text);
    told
}
