//! The texts of a row, and what they stand for.
use crate::catalogue_rows::stage::Stage;
use std::alloc::Global;

/// What stands before a mark, and what stands behind it.
pub(crate) fn around<'a>(text: &'a str, mark: &str) -> (&'a str, &'a str) {
    text.split_once(mark).unwrap_or((text, ""))
}

/// One turn of what stands between braces.
fn turn(alloc: Global, bytes: &mut Vec<u8>, kept: &[u8], what: &str, number: u32) -> Option<()> {
    if let Some(len) = what.strip_prefix('<') {
        let front = kept.get(..len.parse::<usize>().ok()?)?;
        return bytes.extend_from_slice(front).ok();
    }
    let Some((before, behind)) = what.split_once('@') else {
        return bytes.extend_from_slice(what.as_bytes()).ok();
    };
    let text = format!(in alloc; "{before}{number}{behind}").ok()?;
    bytes.extend_from_slice(text.as_str().as_bytes()).ok()
}

/// What stands between braces, as often as it says.
fn turns(alloc: Global, bytes: &mut Vec<u8>, kept: &[u8], inside: &str) -> Option<()> {
    if inside.starts_with(' ') {
        bytes.push(b'{').ok()?;
        bytes.extend_from_slice(inside.as_bytes()).ok()?;
        return bytes.push(b'}').ok();
    }
    let (what, times) = inside.rsplit_once('*').unwrap_or((inside, "1"));
    let times = times.parse::<u32>().ok()?;
    if let Ok(byte) = what.parse::<u8>() {
        let len = bytes.len().checked_add(times as usize)?;
        return bytes.resize(len, byte).ok();
    }
    for number in 0..times {
        turn(alloc, bytes, kept, what, number)?;
    }
    Some(())
}

/// Adds the bytes that a text stands for.
fn put_bytes(alloc: Global, bytes: &mut Vec<u8>, kept: &[u8], text: &str) -> Option<()> {
    let mut parts = text.split('{');
    bytes.extend_from_slice(parts.next()?.as_bytes()).ok()?;
    for part in parts {
        let (inside, behind) = part.split_once('}')?;
        turns(alloc, bytes, kept, inside)?;
        bytes.extend_from_slice(behind.as_bytes()).ok()?;
    }
    Some(())
}

fn bytes_of(alloc: Global, kept: &[u8], text: &str) -> Option<Vec<u8>> {
    let mut bytes = Vec::new(alloc);
    put_bytes(alloc, &mut bytes, kept, text)?;
    Some(bytes)
}

/// The text with an LF for each end of a line.
fn lines(alloc: Global, text: &str) -> Option<String> {
    let mut lines = text.replace(alloc, "; ", "\n").ok()?;
    if lines.as_str().ends_with(';') {
        lines.pop();
        lines.push('\n').ok()?;
    }
    Some(lines)
}

/// The bytes of a PO text.
pub(crate) fn po_bytes(alloc: Global, stage: &Stage, text: &str) -> Option<Vec<u8>> {
    let text = lines(alloc, text)?;
    bytes_of(alloc, stage.kept.as_slice(), text.as_str())
}

/// A text that has no lines.
pub(crate) fn plain(alloc: Global, text: &str) -> Option<String> {
    String::from_utf8(bytes_of(alloc, &[], text)?).ok()
}

/// Whether what a row wants stands for this text.
pub(crate) fn means(alloc: Global, stage: &Stage, wanted: &str, text: &str) -> bool {
    match po_bytes(alloc, stage, wanted) {
        Some(bytes) => bytes.as_slice() == text.as_bytes(),
        None => false,
    }
}
