//! Acts that change a unit's translation or its comment.
ghost use Rattle.std.specs.Prelude.{◌≡◌, ◌&&◌, IfOk, List, ℕ, nat_lt, if◌then◌else◌};
ghost use Rattle.plural_expr.specs.Values.{Rule};
ghost use Rattle.units.specs.declared.unit.Policy.{Policy as PolicyValue};
ghost use Rattle.units.specs.declared.unit.Suggestion.{Suggestion as SuggestionValue};
ghost use Rattle.units.specs.Limits.{revision_limit};
ghost use Rattle.po_text.specs.Texts.{texts_eq};
ghost use Rattle.units.specs.Units.{suggestion_of, state_eq};
ghost use Rattle.review.specs.UnitStep as spec;

use crate::decision::Decision;
use crate::judging::state_of;
use crate::suggestions::{find_suggestion, other_suggestions};
use crate::units_after::{done_plainly, next_revision, with_forms, with_suggestions};
use plural_expr::PluralForms;
use po_text::{Duplicate, Forms, Items, Text};
use std::alloc::{AllocError, Global};
use units::{
    CommentLines, Memory, Policy, Refusal, Revision, Unit, UnitAction, UnitState, UnitView,
};
use uuid::Uuid;

/// Whether forms that give this state would change nothing.
fn is_same_translation(forms: &Forms, state: UnitState, unit: &Unit) -> bool
    ensures { result ≡ (texts_eq forms.now unit.now.forms && state_eq state unit.now.state) }
{
    forms.as_slice() == unit.forms.as_slice() && state == unit.state
}

/// Decides to set the unit's forms.
#[tactic(auto, unfolding(crate::specs::UnitStep::decision_by_act, crate::specs::UnitStep::unit_after))]
pub(crate) fn translate(
    alloc: Global,
    view: &UnitView,
    rule: &PluralForms,
    policy: &Policy,
    forms: &Forms,
) -> Result<Decision, Memory>
    ensures { IfOk result (λ d. (caller number : List ℕ) → d ≡ spec.decision_by_act policy.now rule.now caller number view.now (UnitAction.Translate forms.now)) }
{
    let unit = &view.unit;
    let state = state_of(alloc, policy, rule, view, forms)?;
    if is_same_translation(forms, state, unit) {
        return Ok(Decision::Refused(Refusal::IsSame));
    }
    let Some(revision) = next_revision(unit) else {
        return Ok(Decision::Refused(Refusal::PastLimit));
    };
    let forms = forms.duplicate()?;
    let unit = with_forms(unit.duplicate()?, forms, state, revision);
    done_plainly(view, unit)
}

/// The unit once it has accepted its suggestion with this number and these forms, where there is a revision for it.
pub(crate) fn after_acceptance(
    alloc: Global,
    view: &UnitView,
    rule: &PluralForms,
    policy: &Policy,
    named: Uuid,
    forms: &Forms,
) -> Result<Option<Unit>, Memory>
    ensures { IfOk result (λ unit. (s : SuggestionValue) → suggestion_of named view.now.unit ≡ Some s → s.forms ≡ forms.now →
        let after = spec.with_accepted policy.now rule.now view.now named in
        unit ≡ (if nat_lt revision_limit after.revision then None else Some after)) }
{
    let Some(revision) = next_revision(&view.unit) else {
        return Ok(None);
    };
    let state = state_of(alloc, policy, rule, view, forms)?;
    let forms = forms.duplicate()?;
    let others = other_suggestions(alloc, &view.unit, named)?;
    let unit = with_suggestions(&view.unit, others)?;
    Ok(Some(with_forms(unit, forms, state, revision)))
}

/// Decides to accept a suggestion.
#[tactic(auto, unfolding(crate::specs::UnitStep::decision_by_act, crate::specs::UnitStep::unit_after))]
pub(crate) fn accept(
    alloc: Global,
    view: &UnitView,
    rule: &PluralForms,
    policy: &Policy,
    named: Uuid,
) -> Result<Decision, Memory>
    ensures { IfOk result (λ d. (caller number : List ℕ) → d ≡ spec.decision_by_act policy.now rule.now caller number view.now (UnitAction.Accept named)) }
{
    let Some(suggestion) = find_suggestion(&view.unit, named) else {
        return Ok(Decision::Refused(Refusal::NoSuggestion));
    };
    let after = after_acceptance(alloc, view, rule, policy, named, &suggestion.forms)?;
    let Some(unit) = after else {
        return Ok(Decision::Refused(Refusal::PastLimit));
    };
    done_plainly(view, unit)
}

fn put_comment(unit: Unit, lines: Items<Text>, revision: Revision) -> Unit
    ensures { result ≡ record unit { comment = lines; revision = revision } }
{
    let mut unit = unit;
    unit.comment = lines;
    unit.revision = revision;
    unit
}

/// The unit with these comment lines and at this revision.
fn with_comment(unit: &Unit, lines: &CommentLines, revision: Revision) -> Result<Unit, AllocError>
    ensures { IfOk result (λ u. u ≡ record unit.now { comment = lines.now; revision = revision }) }
{
    let lines = lines.as_items().duplicate()?;
    match unit.duplicate() {
        Ok(copy) => Ok(put_comment(copy, lines, revision)),
        Err(refused) => {
            drop(lines);
            Err(refused)
        }
    }
}

/// Decides to replace the unit's comment lines.
#[tactic(auto, unfolding(crate::specs::UnitStep::decision_by_act, crate::specs::UnitStep::unit_after))]
pub(crate) fn comment(view: &UnitView, lines: &CommentLines) -> Result<Decision, Memory>
    ensures { IfOk result (λ d. (policy : PolicyValue) (rule : Rule) (caller number : List ℕ) → d ≡ spec.decision_by_act policy rule caller number view.now (UnitAction.Comment lines.now)) }
{
    if lines.as_items().as_slice() == view.unit.comment.as_slice() {
        return Ok(Decision::Refused(Refusal::IsSame));
    }
    let Some(revision) = next_revision(&view.unit) else {
        return Ok(Decision::Refused(Refusal::PastLimit));
    };
    let unit = with_comment(&view.unit, lines, revision)?;
    done_plainly(view, unit)
}
