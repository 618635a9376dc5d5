//! Replies.
ghost use Rattle.std.specs.Prelude.{◌≡◌};
ghost use Rattle.request_book.specs.Replies.{Reply as ReplyValue};

use po_text::{Duplicate, Text};
use std::alloc::AllocError;
use std::marker::Model;

/// What an office answered: a status of HTTP and a body in JSON.
#[derive(Drop)]
pub struct Reply {
    status: u16,
    body: Text,
}

impl Model for Reply {
    ghost Value = { ReplyValue };

    ghost view = { λ r. record { status = r.status; body = r.body } };
}

impl Reply {
    /// The reply with this status and this body.
    pub fn new(status: u16, body: Text) -> Reply
        ensures { result ≡ record { status = status; body = body } }
    {
        Reply { status, body }
    }

    /// The status.
    pub fn status(&self) -> u16
        ensures { result ≡ self.now.status }
    {
        self.status
    }

    /// The text of the body.
    pub fn body(&self) -> &str
        ensures { result.now ≡ self.now.body }
    {
        self.body.as_str()
    }
}

impl Duplicate for Reply {
    fn duplicate(&self) -> Result<Reply, AllocError> {
        let Reply { body, status } = self;
        Ok(Reply::new(*status, body.duplicate()?))
    }
}
