//! Why the requests of a text are not sent.

use sender::SenderFault;

/// Why nothing is sent.
#[derive(Clone, Copy, Drop)]
pub(crate) enum SendFault {
    /// A read failed.
    Unread,
    /// The line of this number, counted from 1, isn't a request.
    Malformed(usize),
    /// A number stands twice.
    Twice,
    /// A growth was refused.
    Memory,
}

impl From<SenderFault> for SendFault {
    ghost use Rattle.std.specs.Prelude.{◌≡◌};
    ghost use Rattle.client.specs.TalkSteps.{of_sender};

    ghost from_gives = { λ fault gives. gives ≡ of_sender fault };

    fn from(fault: SenderFault) -> SendFault {
        match fault {
            SenderFault::Twice => SendFault::Twice,
            SenderFault::Memory => SendFault::Memory,
        }
    }
}
