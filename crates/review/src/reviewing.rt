//! Acts of review.
ghost use Rattle.std.specs.Prelude.{◌≡◌, IfOk, List, ℕ};
ghost use Rattle.plural_expr.specs.Values.{Rule};
ghost use Rattle.units.specs.Units.{in_state};
ghost use Rattle.review.specs.UnitStep as spec;

use crate::decision::Decision;
use crate::judging::state_of;
use crate::units_after::{done_plainly, next_revision};
use plural_expr::PluralForms;
use po_text::Duplicate;
use std::alloc::{AllocError, Global};
use units::{Memory, Policy, Refusal, Revision, Unit, UnitAction, UnitState, UnitView};

/// The unit in this state and at this revision.
fn in_state_at(unit: &Unit, state: UnitState, revision: Revision) -> Result<Unit, AllocError>
    ensures { IfOk result (λ u. u ≡ record (in_state state unit.now) { revision = revision }) }
{
    let mut unit = unit.duplicate()?;
    unit.revision = revision;
    Ok(unit.in_state(state))
}

/// Decides to approve the translation.
#[tactic(auto, unfolding(crate::specs::UnitStep::decision_by_act, crate::specs::UnitStep::unit_after))]
pub(crate) fn approve(
    alloc: Global,
    view: &UnitView,
    rule: &PluralForms,
    policy: &Policy,
) -> Result<Decision, Memory>
    ensures { IfOk result (λ d. (caller number : List ℕ) → d ≡ spec.decision_by_act policy.now rule.now caller number view.now UnitAction.Approve) }
{
    let unit = &view.unit;
    if !policy.reviews {
        return Ok(Decision::Refused(Refusal::ReviewsOff));
    }
    if unit.state == UnitState::Approved {
        return Ok(Decision::Refused(Refusal::IsSame));
    }
    if state_of(alloc, policy, rule, view, &unit.forms)? != UnitState::Translated {
        return Ok(Decision::Refused(Refusal::IsUnfit));
    }
    let Some(revision) = next_revision(unit) else {
        return Ok(Decision::Refused(Refusal::PastLimit));
    };
    let unit = in_state_at(unit, UnitState::Approved, revision)?;
    done_plainly(view, unit)
}

/// Decides to ask for another translation.
#[tactic(auto, unfolding(crate::specs::UnitStep::decision_by_act, crate::specs::UnitStep::unit_after))]
pub(crate) fn send_back(view: &UnitView, policy: &Policy) -> Result<Decision, Memory>
    ensures { IfOk result (λ d. (rule : Rule) (caller number : List ℕ) → d ≡ spec.decision_by_act policy.now rule caller number view.now UnitAction.SendBack) }
{
    let unit = &view.unit;
    if !policy.reviews {
        return Ok(Decision::Refused(Refusal::ReviewsOff));
    }
    if unit.state == UnitState::NeedsEditing {
        return Ok(Decision::Refused(Refusal::IsSame));
    }
    if unit.state == UnitState::Untranslated {
        return Ok(Decision::Refused(Refusal::IsUnfit));
    }
    let Some(revision) = next_revision(unit) else {
        return Ok(Decision::Refused(Refusal::PastLimit));
    };
    let unit = in_state_at(unit, UnitState::NeedsEditing, revision)?;
    done_plainly(view, unit)
}
