//! The body of a message, by its head alone.
ghost use Rattle.std.specs.Prelude.{◌≡◌, Some, None, option_map, MatchResult};
ghost use Rattle.http_messages.specs.Asked.{first_failed, head_tests, body_size};

use crate::head::{BodyLength, Head};
use crate::refusal::Refusal;

/// How many bytes a body has at most.
const BODY_LIMIT: u32 = 20_971_520;

/// How many bytes the body behind a head has. A refusal where the head alone fails a test; then the connection ends.
pub(crate) fn body_size(head: &Head<'_>) -> Result<usize, Refusal>
    ensures { MatchResult result (λ size. (first_failed (head_tests head.now) ≡ None) × (size ≡ body_size head.now))
        (λ refusal. option_map (λ test. test.refusal) (first_failed (head_tests head.now)) ≡ Some refusal) }
{
    match head.body_length() {
        BodyLength::Absent => Ok(0),
        BodyLength::Bad => Err(Refusal::Malformed),
        BodyLength::Given(size) if size > BODY_LIMIT => Err(Refusal::TooLarge),
        BodyLength::Given(size) => Ok(size as usize),
    }
}
