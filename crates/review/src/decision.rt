//! What an act on a unit comes to.
use units::{Refusal, Revision, ShownState, UnitView};
use uuid::Uuid;

/// The values of a reply to an act that was done.
#[derive(Debug, Drop, Clone, Copy, PartialEq, Eq)]
pub enum Values {
    /// The unit's revision and shown state after the act.
    Plain {
        revision: Revision,
        state: ShownState,
    },
    /// Of a new suggestion: its number too, and the sum of its votes.
    Suggested {
        revision: Revision,
        state: ShownState,
        suggestion: Uuid,
        votes: i64,
    },
    /// Of a vote: whether the suggestion was accepted by it too, and the sum of its votes after it.
    Voted {
        accepted: bool,
        revision: Revision,
        state: ShownState,
        votes: i64,
    },
}

/// What is decided on an act.
#[derive(Drop)]
pub enum Decision {
    /// The act is done: the unit's view after it, and the values of the reply.
    Done(UnitView, Values),
    /// The first refusal that applies. Nothing changes.
    Refused(Refusal),
}
