//! Decisions on acts on one unit.
ghost use Rattle.std.specs.Prelude.{◌≡◌, IfOk, List, ℕ};
ghost use Rattle.review.specs.UnitStep as spec;

use crate::decision::Decision;
use crate::refusing::early_refusal;
use crate::reviewing::{approve, send_back};
use crate::suggesting::{dismiss, suggest};
use crate::translating::{accept, comment, translate};
use crate::voting::vote;
use plural_expr::PluralForms;
use std::alloc::Global;
use units::{Memory, Name, Policy, Role, UnitAct, UnitAction, UnitView};
use uuid::Uuid;

/// An act on a unit, and who asks for it.
#[derive(Clone, Copy)]
pub struct UnitRequest<'a> {
    pub caller: &'a Name,
    /// The caller's role.
    pub role: Role,
    /// The request's number, which a suggestion that it makes gets.
    pub number: Uuid,
    pub act: &'a UnitAct,
}

/// Decides an act that no refusal meets which every act has.
fn decide_by_act(
    alloc: Global,
    view: &UnitView,
    rule: &PluralForms,
    policy: &Policy,
    caller: &Name,
    number: Uuid,
    action: &UnitAction,
) -> Result<Decision, Memory>
    ensures { IfOk result (λ d. d ≡ spec.decision_by_act policy.now rule.now caller.now number view.now action.now) }
{
    match action {
        UnitAction::Suggest(forms) => suggest(alloc, view, caller, number, forms),
        UnitAction::Vote(named, value) => vote(alloc, view, rule, policy, caller, *named, *value),
        UnitAction::Accept(named) => accept(alloc, view, rule, policy, *named),
        UnitAction::Dismiss(named) => dismiss(alloc, view, *named),
        UnitAction::Translate(forms) => translate(alloc, view, rule, policy, forms),
        UnitAction::Comment(lines) => comment(view, lines),
        UnitAction::Approve => approve(alloc, view, rule, policy),
        UnitAction::SendBack => send_back(view, policy),
    }
}

/// Decides an act on a unit, by what its caller may do and what the unit is: the unit's new view with the values of
/// the reply, or the first refusal that applies. `rule` is the plural rule of the unit's language.
///
/// `Memory` where a growth was refused; nothing has changed then.
pub fn decide(
    alloc: Global,
    view: &UnitView,
    rule: &PluralForms,
    policy: &Policy,
    request: UnitRequest<'_>,
) -> Result<Decision, Memory>
    ensures { IfOk result (λ d. d ≡ spec.unit_step policy.now rule.now request.entry.role request.entry.caller.now request.entry.number view.now request.entry.act.now) }
{
    let UnitRequest {
        caller,
        role,
        number,
        act,
    } = request;
    match early_refusal(policy, rule, role, view, act) {
        Some(refusal) => Ok(Decision::Refused(refusal)),
        None => decide_by_act(alloc, view, rule, policy, caller, number, &act.action),
    }
}
