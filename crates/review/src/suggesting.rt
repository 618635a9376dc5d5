//! Acts on the suggestions of a unit that leave its translation.
ghost use Rattle.std.specs.Prelude.{◌≡◌, IfOk, List, ℕ};
ghost use Rattle.plural_expr.specs.Values.{Rule};
ghost use Rattle.units.specs.declared.unit.Policy.{Policy as PolicyValue};
ghost use Rattle.std.specs.FinMap as maps;
ghost use Rattle.review.specs.UnitStep as spec;

use crate::decision::{Decision, Values};
use crate::suggestions::{find_suggestion, is_there, other_suggestions};
use crate::units_after::{done, done_plainly, revision_of, with_suggestions};
use po_text::{Duplicate, Forms};
use std::alloc::{AllocError, Global};
use units::{
    Memory, Name, Refusal, SUGGESTION_LIMIT, Suggestion, Unit, UnitAction, UnitView, Votes,
    all_empty,
};
use uuid::Uuid;

/// A suggestion without votes.
fn new_suggestion(
    alloc: Global,
    caller: &Name,
    number: Uuid,
    forms: &Forms,
) -> Result<Suggestion, AllocError>
    ensures { IfOk result (λ s. s ≡ record { number = number; suggester = caller.now; forms = forms.now; votes = maps.empty }) }
{
    let suggester = caller.duplicate()?;
    let forms = forms.duplicate()?;
    Ok(Suggestion {
        number,
        suggester,
        forms,
        votes: Votes::new(alloc),
    })
}

/// The unit with a suggestion more, the last, without votes.
fn with_suggestion(
    alloc: Global,
    unit: &Unit,
    caller: &Name,
    number: Uuid,
    forms: &Forms,
) -> Result<Unit, AllocError>
    ensures { IfOk result (λ u. u ≡ spec.with_suggestion caller.now number forms.now unit.now) }
{
    let suggestion = new_suggestion(alloc, caller, number, forms)?;
    let mut suggestions = unit.suggestions.duplicate()?;
    suggestions.push(suggestion)?;
    with_suggestions(unit, suggestions)
}

/// Decides to take a suggestion.
#[tactic(auto, unfolding(crate::specs::UnitStep::decision_by_act, crate::specs::UnitStep::unit_after))]
pub(crate) fn suggest(
    alloc: Global,
    view: &UnitView,
    caller: &Name,
    number: Uuid,
    forms: &Forms,
) -> Result<Decision, Memory>
    ensures { IfOk result (λ d. (policy : PolicyValue) (rule : Rule) → d ≡ spec.decision_by_act policy rule caller.now number view.now (UnitAction.Suggest forms.now)) }
{
    let unit = &view.unit;
    if unit.suggestions.as_slice().len() >= SUGGESTION_LIMIT {
        return Ok(Decision::Refused(Refusal::IsFull));
    }
    if is_there(forms, unit) {
        return Ok(Decision::Refused(Refusal::IsSame));
    }
    if all_empty(forms.as_slice()) {
        return Ok(Decision::Refused(Refusal::IsUnfit));
    }
    let values = Values::Suggested {
        revision: revision_of(unit),
        state: view.shown_state(),
        suggestion: number,
        votes: 1,
    };
    let unit = with_suggestion(alloc, unit, caller, number, forms)?;
    done(view, unit, values)
}

/// Decides to remove a suggestion.
#[tactic(auto, unfolding(crate::specs::UnitStep::decision_by_act, crate::specs::UnitStep::unit_after))]
pub(crate) fn dismiss(alloc: Global, view: &UnitView, named: Uuid) -> Result<Decision, Memory>
    ensures { IfOk result (λ d. (policy : PolicyValue) (rule : Rule) (caller number : List ℕ) → d ≡ spec.decision_by_act policy rule caller number view.now (UnitAction.Dismiss named)) }
{
    if find_suggestion(&view.unit, named).is_none() {
        return Ok(Decision::Refused(Refusal::NoSuggestion));
    }
    let others = other_suggestions(alloc, &view.unit, named)?;
    let unit = with_suggestions(&view.unit, others)?;
    done_plainly(view, unit)
}
