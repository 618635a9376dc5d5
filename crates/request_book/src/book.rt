//! What a book keeps of a request, and what it says of one that comes.
ghost use Rattle.std.specs.Prelude.{◌≡◌, option_map};
ghost use Rattle.request_book.specs.Book.{class_of, standing_of};

use crate::reply::Reply;
use po_text::{Duplicate, Text};
use std::alloc::AllocError;
use uuid::Uuid;

/// What is kept of a request: its number, the canonical text of its content and its first reply.
#[derive(Drop)]
pub struct Record {
    pub number: Uuid,
    pub content: Text,
    pub reply: Reply,
}

impl Duplicate for Record {
    fn duplicate(&self) -> Result<Record, AllocError> {
        Ok(Record {
            number: self.number,
            content: self.content.duplicate()?,
            reply: self.reply.duplicate()?,
        })
    }
}

/// How a request stands to the record under its number.
#[derive(Clone, Copy)]
pub enum Class<'a> {
    /// There is no record yet.
    First,
    /// The record has the same content, and this reply.
    Repeat(&'a Reply),
    /// The record has another content.
    NumberUsed,
}

/// The class of a request with this canonical text, by the record under its number. Takes no memory.
pub fn classify<'a>(content: &str, known: Option<&'a Record>) -> Class<'a>
    ensures { standing_of result ≡ class_of content.now (option_map (λ r. r.now) known.entry) }
{
    match known {
        None => Class::First,
        Some(record) => if record.content.as_str() == content {
            Class::Repeat(&record.reply)
        } else {
            Class::NumberUsed
        },
    }
}
