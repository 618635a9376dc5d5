//! Parts of a unit that an act reads alone, and what is left of a unit of which a part is written.

ghost use Rattle.std.specs.Prelude.{◌≡◌, ◌∷◌, ◌++◌, [], IfOk, Option, map};
ghost use Rattle.po_text.specs.declared.entry.Entry.{Entry as EntryValue};
ghost use Rattle.units.specs.Units.{suggestion_of};
ghost use Rattle.review.specs.UnitStep.{with_vote};
ghost use Rattle.review.specs.Parts.{without_votes};
ghost use Rattle.office_specification.specs.UnitAccess.{view_written};

use office_specification::UnitWrite;
use po_text::{Duplicate, Items};
use review::{find_suggestion, voted_suggestions, with_suggestions};
use std::alloc::{AllocError, Global};
use units::{Name, Suggestion, Unit, UnitView, VoteValue, Votes};
use uuid::Uuid;

/// A copy of a suggestion without the votes on it.
fn copy_without_votes(alloc: Global, suggestion: &Suggestion) -> Result<Suggestion, AllocError>
    ensures { IfOk result (λ s. s ≡ without_votes suggestion.now) }
{
    let suggester = suggestion.suggester.duplicate()?;
    let forms = suggestion.forms.duplicate()?;
    Ok(Suggestion {
        number: suggestion.number,
        suggester,
        forms,
        votes: Votes::new(alloc),
    })
}

/// Copies of suggestions without the votes on them.
pub(crate) fn copies_without_votes(
    alloc: Global,
    suggestions: &[Suggestion],
) -> Result<Items<Suggestion>, AllocError>
    ensures { IfOk result (λ all. all ≡ map without_votes suggestions.now) }
{
    let mut all = Items::new(alloc);
    for suggestion in suggestions {
        all.push(copy_without_votes(alloc, suggestion)?)?;
    }
    Ok(all)
}

/// A copy of a unit's suggestion of a number, with the votes on it.
pub(crate) fn copy_of_number(unit: &Unit, number: Uuid) -> Result<Option<Suggestion>, AllocError>
    ensures { IfOk result (λ r. r ≡ suggestion_of number unit.now) }
{
    match find_suggestion(unit, number) {
        Some(suggestion) => Ok(Some(suggestion.duplicate()?)),
        None => Ok(None),
    }
}

/// The unit of a view.
fn unit_of(view: UnitView) -> Unit
    ensures { result ≡ view.unit }
{
    view.unit
}

/// A copy of a unit with a suggestion more, the last.
fn with_one_more(unit: &Unit, suggestion: Suggestion) -> Result<Unit, AllocError>
    ensures { IfOk result (λ u. u ≡ record unit.now { suggestions = unit.now.suggestions ++ suggestion ∷ [] }) }
{
    let mut suggestions = unit.suggestions.duplicate()?;
    suggestions.push(suggestion)?;
    with_suggestions(unit, suggestions)
}

/// A view's unit, with copies of the suggestions that are on the unit there.
fn with_its_suggestions(view: UnitView, there: &Unit) -> Result<Unit, AllocError>
    ensures { IfOk result (λ u. u ≡ record view.unit { suggestions = there.now.suggestions }) }
{
    let suggestions = there.suggestions.duplicate()?;
    let mut unit = unit_of(view);
    unit.suggestions = suggestions;
    Ok(unit)
}

/// A copy of a unit with a voter's vote on its suggestion of a number.
fn voted_on(
    alloc: Global,
    unit: &Unit,
    number: Uuid,
    voter: Name,
    value: Option<VoteValue>,
) -> Result<Unit, AllocError>
    ensures { IfOk result (λ u. u ≡ with_vote number voter value unit.now) }
{
    let suggestions = voted_suggestions(alloc, unit, number, &voter, value)?;
    with_suggestions(unit, suggestions)
}

/// What a write leaves of a unit.
pub(crate) fn unit_written(alloc: Global, unit: &Unit, write: UnitWrite) -> Result<Unit, AllocError>
    ensures { IfOk result (λ u. (source : Option EntryValue) → u ≡ (view_written write (record { unit = unit.now; source = source })).unit) }
{
    match write {
        UnitWrite::Whole(view) => Ok(unit_of(view)),
        UnitWrite::Row(view) => with_its_suggestions(view, unit),
        UnitWrite::Suggested(suggestion) => with_one_more(unit, suggestion),
        UnitWrite::Voted(number, voter, value, _) => voted_on(alloc, unit, number, voter, value),
    }
}
