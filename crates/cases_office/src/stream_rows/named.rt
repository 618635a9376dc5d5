//! Texts with names, and texts that name them.
use crate::stream_rows::texts::{Notation, add_text};
use std::alloc::Global;

/// The bytes of a text under its name.
#[derive(Drop)]
struct Named {
    name: String,
    bytes: Vec<u8>,
}

/// The texts with names.
#[derive(Drop)]
pub(crate) struct NamedTexts {
    alloc: Global,
    named: Vec<Named>,
}

impl NamedTexts {
    pub(crate) fn new(alloc: Global) -> NamedTexts {
        NamedTexts {
            alloc,
            named: Vec::new(alloc),
        }
    }

    pub(crate) fn name(&mut self, name: &str, text: &str) -> Option<()> {
        let bytes = self.bytes_of(text)?;
        let name = String::from_str(self.alloc, name).ok()?;
        self.named.push(Named { name, bytes }).ok()
    }

    fn named(&self, name: &str) -> Option<&[u8]> {
        for named in self.named.iter() {
            if named.name.as_str() == name {
                return Some(named.bytes.as_slice());
            }
        }
        None
    }

    /// The bytes of a text, or so many of its first as it says. None where it can't be read.
    pub(crate) fn bytes_of(&self, text: &str) -> Option<Vec<u8>> {
        let (most, text) = front(text);
        let mut bytes = Vec::new(self.alloc);
        let mut pieces = text.split('<');
        add_text(&mut bytes, pieces.next()?, Notation::Lines)?;
        for piece in pieces {
            let (name, rest) = piece.split_once('>')?;
            bytes.extend_from_slice(self.named(name)?).ok()?;
            add_text(&mut bytes, rest, Notation::Lines)?;
        }
        bytes.truncate(most);
        Some(bytes)
    }

    /// Bytes as rows have them, so that equal bytes are shown alike.
    pub(crate) fn shown(&self, bytes: &[u8]) -> Option<String> {
        let lines = str::from_utf8(bytes)
            .ok()?
            .replace(self.alloc, "\r\n", "|")
            .ok()?;
        let line = lines.as_str().replace(self.alloc, "\r", "^r").ok()?;
        line.as_str().replace(self.alloc, "\n", "^n").ok()
    }
}

/// How many bytes a text is to have at most, and the text.
fn front(text: &str) -> (usize, &str) {
    match text.split_once(" of ") {
        Some((count, rest)) => match count.parse::<usize>() {
            Ok(most) => (most, rest),
            Err(_) => (usize::MAX, text),
        },
        None => (usize::MAX, text),
    }
}
