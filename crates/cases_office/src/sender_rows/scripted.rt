//! A link in memory to a desk's office, which does with each message what a script says.
ghost use Rattle.std.specs.Prelude.{None};

use crate::desks::open_demo;
use crate::stream_rows::{Streams, connection_served};
use crate::words::{replaced, word};
use client::{Link, LinkFault};
use office::Desk;
use std::alloc::Global;
use std::time::Duration;
use tables::PlainTables;

/// A desk behind a network that follows a script.
#[derive(Drop)]
pub(crate) struct Scripted<'a> {
    alloc: Global,
    desk: &'a mut Desk<PlainTables>,
    script: &'a [u8],
    /// How many milliseconds each pause has.
    pub(crate) pauses: Vec<u128>,
}

/// A link to a new desk with the demo office, by a deed's script.
pub(crate) fn link_to<'a>(
    alloc: Global,
    desks: &'a mut Vec<Desk<PlainTables>>,
    deed: &'a str,
) -> Option<Scripted<'a>> {
    open_demo(alloc, desks)?;
    let desk = desks.last_mut()?;
    let script = word(deed, 3).as_bytes();
    Some(Scripted {
        alloc,
        desk,
        script,
        pauses: Vec::new(alloc),
    })
}

/// What a letter of a script changes in an answer: this part, to that one.
fn change_by(letter: u8) -> (&'static str, &'static str) {
    match letter {
        b'c' => ("\"}", "\""),
        b'm' => ("\"}", "\"} "),
        b's' => ("HTTP/1.1 200", "HTTP/1.1 503"),
        b'x' => ("Content-Type", "Content-Length: 1\r\nContent-Type"),
        b't' => ("Content-Type", "Transfer-Encoding: chunked\r\nContent-Type"),
        b'd' => ("Content-Type", "Content-Length: 35\r\nContent-Type"),
        b'l' => ("Content-Length", "content-length"),
        b'n' => ("Content-Length", "Length"),
        b'b' => ("HTTP/1.1 ", ""),
        b'r' => ("revision", "revisio\r"),
        b'p' => ("revision", "revisi\u{9b}"),
        b'o' => ("revision", "revisi\u{202e}"),
        b'u' => ("revision", "revisi\u{2028}"),
        _ => ("HTTP", "HTTP"),
    }
}

/// An answer with the message as the body of a reply, `|` for each CR LF.
fn echo(alloc: Global, message: &str) -> Option<String> {
    let body = message.replace(alloc, "\r\n", "|").ok()?;
    let length = body.len();
    format!(in alloc; "HTTP/1.1 200 OK\r\nContent-Length: {length}\r\n\r\n{body}").ok()
}

impl<'a> Scripted<'a> {
    /// The next letter of the script.
    fn next_letter(&mut self) -> Option<u8> {
        let (letter, rest) = self.script.split_first()?;
        self.script = rest;
        Some(*letter)
    }

    /// What the office answers to a message, changed as a letter says.
    fn answered(&mut self, letter: u8, message: &[u8]) -> Option<String> {
        let mut streams = Streams::new(self.alloc, "", message, usize::MAX);
        match connection_served(self.alloc, self.desk, &mut streams) {
            Ok(_) => {
                let (part, other) = change_by(letter);
                replaced(self.alloc, streams.output.bytes(), part, other)
            }
            Err(_) => None,
        }
    }

    /// What comes back for a message.
    fn answer_to(&mut self, message: &[u8]) -> Option<String> {
        match self.next_letter()? {
            b'q' => None,
            b'a' => {
                drop(self.answered(b'a', message));
                None
            }
            b'e' => echo(self.alloc, str::from_utf8(message).ok()?),
            letter => self.answered(letter, message),
        }
    }
}

impl<'a> Link for Scripted<'a> {
    ghost said = { λ _. None };

    fn exchange(&mut self, message: &[u8], answer: &mut Vec<u8>) -> Result<(), LinkFault> {
        let Some(text) = self.answer_to(message) else {
            return Err(LinkFault::NoAnswer);
        };
        match answer.extend_from_slice(text.as_str().as_bytes()) {
            Ok(()) => Ok(()),
            Err(_) => Err(LinkFault::Memory),
        }
    }

    fn pause(&mut self, time: Duration) {
        // Where there is no memory for it, the row doesn't tell it.
        let _ = self.pauses.push(time.as_millis());
    }
}
