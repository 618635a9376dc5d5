//! Texts of rows, in which a `^` begins what no line shows.
use std::alloc::{AllocError, Global};

/// How a text is written: as it stands, or with `|` for CR LF.
#[derive(Clone, Copy, PartialEq)]
pub(crate) enum Notation {
    Plain,
    Lines,
}

/// The bytes of a text. None where it can't be read.
pub(crate) fn bytes_of(alloc: Global, text: &str) -> Option<Vec<u8>> {
    let mut bytes = Vec::new(alloc);
    add_text(&mut bytes, text, Notation::Plain)?;
    Some(bytes)
}

/// Adds the bytes of a text.
pub(crate) fn add_text(bytes: &mut Vec<u8>, text: &str, notation: Notation) -> Option<()> {
    let mut pieces = text.split('^');
    add_letters(bytes, pieces.next()?, notation)?;
    for piece in pieces {
        add_piece(bytes, piece, notation)?;
    }
    Some(())
}

/// Adds what stands behind a `^`, up to the next.
fn add_piece(bytes: &mut Vec<u8>, piece: &str, notation: Notation) -> Option<()> {
    if let Some(digits) = piece.strip_prefix('x') {
        bytes
            .push(u8::from_str_radix(digits.get(..2)?, 16).ok()?)
            .ok()?;
        return add_letters(bytes, digits.get(2..)?, notation);
    }
    let (count, letters) = count_of(piece)?;
    let (text, rest) = repeated(letters)?;
    add_times(bytes, count, text, notation)?;
    add_letters(bytes, rest, notation)
}

/// Adds letters in which no `^` stands, so many times. (A letter alone comes up to 22 million times.)
fn add_times(bytes: &mut Vec<u8>, count: u32, letters: &str, notation: Notation) -> Option<()> {
    match letters.as_bytes() {
        [letter] if *letter != b'|' => {
            let len = bytes.len().checked_add(count as usize)?;
            bytes.resize(len, *letter).ok()
        }
        _ => add_all_times(bytes, count, letters, notation),
    }
}

fn add_all_times(bytes: &mut Vec<u8>, count: u32, letters: &str, notation: Notation) -> Option<()> {
    for _ in 0..count {
        add_letters(bytes, letters, notation)?;
    }
    Some(())
}

/// Adds letters in which no `^` stands.
fn add_letters(bytes: &mut Vec<u8>, letters: &str, notation: Notation) -> Option<()> {
    if notation == Notation::Plain {
        return bytes.extend_from_slice(letters.as_bytes()).ok();
    }
    let mut lines = letters.split('|');
    bytes.extend_from_slice(lines.next()?.as_bytes()).ok()?;
    for line in lines {
        bytes.extend_from_slice(b"\r\n").ok()?;
        bytes.extend_from_slice(line.as_bytes()).ok()?;
    }
    Some(())
}

/// How many times the text of these letters comes.
fn count_of(piece: &str) -> Option<(u32, &str)> {
    let place = piece.find(|c: char| !c.is_ascii_digit())?;
    if place == 0 {
        return Some((1, piece));
    }
    Some((
        piece.get(..place)?.parse::<u32>().ok()?,
        piece.get(place..)?,
    ))
}

/// The text that comes so many times, and what stands behind it.
fn repeated(letters: &str) -> Option<(&str, &str)> {
    if let Some(rest) = letters.strip_prefix('n') {
        Some(("\n", rest))
    } else if let Some(rest) = letters.strip_prefix('r') {
        Some(("\r", rest))
    } else if let Some(rest) = letters.strip_prefix('t') {
        Some(("\t", rest))
    } else {
        letters.strip_prefix('(')?.split_once(')')
    }
}

/// Adds a text of these bytes, as rows show it.
pub(crate) fn show(text: &mut String, bytes: &[u8]) -> Result<(), AllocError> {
    match str::from_utf8(bytes) {
        Ok(plain) => show_text(text, plain),
        Err(_) => show_bytes(text, bytes),
    }
}

fn show_text(text: &mut String, plain: &str) -> Result<(), AllocError> {
    for letter in plain.chars() {
        match letter {
            '\n' => text.push_str("^n"),
            '\r' => text.push_str("^r"),
            '\t' => text.push_str("^t"),
            _ => text.push(letter),
        }?;
    }
    Ok(())
}

fn show_bytes(text: &mut String, bytes: &[u8]) -> Result<(), AllocError> {
    for byte in bytes {
        write!(text, "^x{byte:02X}")?;
    }
    Ok(())
}
