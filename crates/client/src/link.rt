//! A link to an office.

ghost use Rattle.std.specs.Prelude.{◌≡◌, ◌∷◌, [], List, Option, Some, None, OnOk, OnErr};
ghost use Rattle.client.specs.Talks.{Said, said_behind};

use std::time::Duration;
use thiserror::Error;

/// Why no answer came back.
#[derive(Clone, Copy, Debug, Drop, Error)]
pub enum LinkFault {
    /// None came: the message or its answer was lost.
    #[error("no answer came")]
    NoAnswer = 1,
    /// A growth was refused.
    #[error("out of memory")]
    Memory = 2,
}

impl LinkFault {
    ghost use Rattle.client.specs.Faults.{fault_number};

    /// 1 NoAnswer, 2 Memory.
    pub fn number(self) -> u8
        ensures { result ≡ fault_number self }
    {
        self as u8
    }
}

/// A way to an office and back, for one message at a time: a connection of its own for each, say. Of what comes back nothing is
/// promised: it may be the answer to another message, or no answer of HTTP.
pub trait Link {
    /// What was said over it so far, where that is known.
    ghost said: { Self → Option (List Said) };

    /// Sends a message, and puts the bytes that came back in place of those in `answer`.
    fn exchange(&mut self, message: &[u8], answer: &mut Vec<u8>) -> Result<(), LinkFault>
        ensures answered { OnOk result (said self.new
            ≡ said_behind (said self.old) (record { message = message.now; answer = Some answer.new.items } ∷ [])) }
        ensures lost { OnErr result (said self.new
            ≡ said_behind (said self.old) (record { message = message.now; answer = None } ∷ [])) };

    /// Lets so much time pass, in which nothing is said.
    fn pause(&mut self, time: Duration)
        ensures silent { said self.new ≡ said self.old };
}
