//! What is written of a unit, by what the act on it came to.
ghost use Rattle.std.specs.Prelude.{◌≡◌, ◌++◌, ◌∷◌, [], List, Some, None, MatchOption, IfOk};
ghost use Rattle.units.specs.declared.unit.Suggestion.{Suggestion as SuggestionValue};
ghost use Rattle.office_specification.specs.declared.values.UnitWrite.TheVariants.{Suggested};
ghost use Rattle.outcomes.specs.UnitParts as spec;

use office_specification::{Outcome, UnitOutcome, UnitWrite};
use po_text::Duplicate;
use std::alloc::AllocError;
use units::{Name, Suggestion, UnitView, VoteValue};
use uuid::Uuid;

/// The whole unit is written.
pub(crate) fn of_whole(outcome: Outcome) -> UnitOutcome
    ensures { result ≡ spec.of_whole outcome }
{
    let Outcome { view, reply } = outcome;
    let write = match view {
        None => None,
        Some(view) => Some(UnitWrite::Whole(view)),
    };
    UnitOutcome { write, reply }
}

/// The unit is written, but for its suggestions.
pub(crate) fn of_row(outcome: Outcome) -> UnitOutcome
    ensures { result ≡ spec.of_row outcome }
{
    let Outcome { view, reply } = outcome;
    let write = match view {
        None => None,
        Some(view) => Some(UnitWrite::Row(view)),
    };
    UnitOutcome { write, reply }
}

/// A unit's last suggestion.
fn last_suggestion(view: UnitView) -> Option<Suggestion>
    ensures { (before : List SuggestionValue) (s : SuggestionValue) → view.unit.suggestions ≡ before ++ s ∷ [] → result ≡ Some s }
{
    let UnitView { unit, source } = view;
    drop(source);
    let mut suggestions = unit.suggestions.into_vec();
    suggestions.pop()
}

/// The unit's last suggestion is written.
pub(crate) fn of_suggestion(outcome: Outcome) -> UnitOutcome
    ensures reply { result.reply ≡ outcome.reply }
    ensures write { MatchOption outcome.view (result.write ≡ None)
        (λ view. (before : List SuggestionValue) (s : SuggestionValue) → view.unit.suggestions ≡ before ++ s ∷ [] → result.write ≡ Some (Suggested s)) }
{
    let Outcome { view, reply } = outcome;
    let write = match view {
        None => None,
        Some(view) => match last_suggestion(view) {
            None => None,
            Some(suggestion) => Some(UnitWrite::Suggested(suggestion)),
        },
    };
    UnitOutcome { write, reply }
}

/// The sum of the votes on a unit's first suggestion, if it has any.
fn first_sum(view: &UnitView) -> Option<i64>
    ensures { result ≡ spec.first_sum view.now }
{
    match view.unit.suggestions.as_slice().first() {
        None => None,
        Some(suggestion) => Some(suggestion.votes.sum()),
    }
}

/// The caller's vote is written, with the sum on the one suggestion that the unit is shown with. None where that isn't
/// there any more.
pub(crate) fn of_vote(
    outcome: Outcome,
    named: Uuid,
    caller: &Name,
    value: Option<VoteValue>,
) -> Result<Option<UnitOutcome>, AllocError>
    ensures { IfOk result (λ written. written ≡ spec.of_vote named caller.now value outcome) }
{
    let Outcome { view, reply } = outcome;
    let Some(view) = view else {
        return Ok(Some(UnitOutcome { write: None, reply }));
    };
    let votes = first_sum(&view);
    drop(view);
    let Some(votes) = votes else {
        drop(reply);
        return Ok(None);
    };
    let voter = caller.duplicate()?;
    let write = Some(UnitWrite::Voted(named, voter, value, votes));
    Ok(Some(UnitOutcome { write, reply }))
}
