//! What an act on a unit comes to, by the whole of the unit or by what the act touches of it.
ghost use Rattle.std.specs.Prelude.{◌≡◌, IfOk, IfSome, List, ℕ, Option, Some, map, is_none, true};
ghost use Rattle.units.specs.Units.{suggestion_of};
ghost use Rattle.review.specs.UnitStep.{unit_step, is_vote, named_by};
ghost use Rattle.review.specs.Parts as part;
ghost use Rattle.review.specs.Parts.{is_suggest, without_votes};
ghost use Rattle.replies.specs.Bodies.{done as done_of};
ghost use Rattle.office_specification.specs.UnitAccess.{without_suggestions};
ghost use Rattle.office_specification.specs.UnitOutcomes as spec;
ghost use Rattle.office_specification.specs.UnitOutcomes.{refusing, outcome_of_decision, outcome_of, context_view, accepts_found, IsOutcomeBy};
ghost use Rattle.office_specification.specs.declared.values.ActContext.{ActContext as ContextValue};

use crate::bodies::{done, refused};
use crate::shown::{at_most_one, with_suggestions};
use crate::unit_writes::{of_row, of_suggestion, of_vote, of_whole};
use office_specification::{ActContext, Outcome, UnitOutcome};
use po_text::Items;
use request_book::Request;
use review::{Decision, UnitRequest, Values, decide, early_refusal};
use std::alloc::Global;
use units::{Memory, Refusal, Suggestion, UnitAct, UnitAction, UnitView};

/// The unit gets a new view.
fn with_view(alloc: Global, view: UnitView, values: Values) -> Result<Outcome, Memory>
    ensures { IfOk result
        (λ outcome. outcome ≡ record { view = Some view; reply = done_of values }) }
{
    match done(alloc, values) {
        Ok(reply) => Ok(Outcome {
            view: Some(view),
            reply,
        }),
        Err(refused) => {
            drop(view);
            Err(Memory::from(refused))
        }
    }
}

/// Nothing changes.
fn without_view(alloc: Global, refusal: Refusal) -> Result<Outcome, Memory>
    ensures { IfOk result (λ outcome. outcome ≡ refusing refusal) }
{
    let reply = refused(alloc, refusal)?;
    Ok(Outcome { view: None, reply })
}

/// Decides an act on a unit that is there.
fn decided(
    alloc: Global,
    found: &ActContext,
    view: &UnitView,
    request: &Request,
    act: &UnitAct,
) -> Result<Outcome, Memory>
    ensures { IfOk result
        (λ outcome. outcome ≡ outcome_of_decision (unit_step found.now.policy found.now.rule found.now.role request.now.caller request.now.number view.now act.now)) }
{
    let request = UnitRequest {
        caller: &request.caller,
        role: found.role,
        number: request.number,
        act,
    };
    let decision = decide(alloc, view, &found.rule, &found.policy, request)?;
    match decision {
        Decision::Done(view, values) => with_view(alloc, view, values),
        Decision::Refused(refusal) => without_view(alloc, refusal),
    }
}

/// Decides an act by what was found for it.
fn by_found(
    alloc: Global,
    found: &Option<ActContext>,
    request: &Request,
    act: &UnitAct,
) -> Result<Outcome, Memory>
    ensures { IfOk result
        (λ outcome. outcome ≡ outcome_of found.now request.now.caller request.now.number act.now) }
{
    match found {
        None => without_view(alloc, Refusal::NoLanguage),
        Some(found) => match &found.view {
            None => without_view(alloc, Refusal::NoUnit),
            Some(view) => decided(alloc, found, view, request, act),
        },
    }
}

/// Whether an act is on its unit's own values, and looks at none of its suggestions.
fn is_of_row(action: &UnitAction) -> bool
    ensures { result ≡ part.is_of_row action.now }
{
    match action {
        UnitAction::Suggest(_) => false,
        UnitAction::Vote(_, _) => false,
        UnitAction::Accept(_) => false,
        UnitAction::Dismiss(_) => false,
        UnitAction::Translate(_) => true,
        UnitAction::Comment(_) => true,
        UnitAction::Approve => true,
        UnitAction::SendBack => true,
    }
}

/// Whether an act can't be decided without suggestions of its unit.
fn needs_suggestions(found: &Option<ActContext>, act: &UnitAct) -> bool
    ensures { result ≡ spec.needs_suggestions found.now act.now }
{
    match found {
        None => false,
        Some(found) => match &found.view {
            None => false,
            Some(view) => {
                !is_of_row(&act.action)
                    && early_refusal(&found.policy, &found.rule, found.role, view, act).is_none()
            }
        },
    }
}

/// What an act on a unit comes to, by what was found for it; nothing is found where its language isn't there. The request
/// gives the caller and the number. The whole unit is written.
///
/// `Memory` where a growth was refused.
pub fn whole_outcome(
    alloc: Global,
    found: Option<ActContext>,
    request: &Request,
    act: &UnitAct,
) -> Result<UnitOutcome, Memory>
    ensures { IfOk result (IsOutcomeBy (context_view found) (outcome_of found request.now.caller request.now.number act.now)) }
{
    let outcome = by_found(alloc, &found, request, act);
    drop(found);
    Ok(of_whole(outcome?))
}

/// The same by what was found without the unit's suggestions, where the act can be decided so: they stay as they are. None
/// where it can't: the act is on suggestions, and none of the refusals applies that every act has.
///
/// `Memory` where a growth was refused.
pub fn row_outcome(
    alloc: Global,
    found: &Option<ActContext>,
    request: &Request,
    act: &UnitAct,
) -> Result<Option<UnitOutcome>, Memory>
    ensures decided { IfOk result (λ outcome. (full : Option ContextValue) → found.now ≡ without_suggestions full →
        IfSome outcome (IsOutcomeBy (context_view full) (outcome_of full request.now.caller request.now.number act.now))) }
    ensures needs { IfOk result (λ outcome. is_none outcome ≡ spec.needs_suggestions found.now act.now) }
{
    if needs_suggestions(found, act) {
        return Ok(None);
    }
    let outcome = by_found(alloc, found, request, act)?;
    Ok(Some(of_row(outcome)))
}

/// What a suggestion comes to, by what was found without the unit's suggestions, and by these without the votes on them: it
/// alone is written.
///
/// `Memory` where a growth was refused.
pub fn suggested_outcome(
    alloc: Global,
    found: Option<ActContext>,
    suggestions: Items<Suggestion>,
    request: &Request,
    act: &UnitAct,
) -> Result<UnitOutcome, Memory>
    requires suggest { is_suggest act.now.action ≡ true }
    ensures { IfOk result (λ outcome. (full : Option ContextValue) → found ≡ without_suggestions full →
        IfSome (context_view full) (λ view. suggestions ≡ map without_votes view.unit.suggestions) →
        IsOutcomeBy (context_view full) (outcome_of full request.now.caller request.now.number act.now) outcome) }
{
    let found = with_suggestions(found, suggestions);
    let outcome = by_found(alloc, &found, request, act);
    drop(found);
    Ok(of_suggestion(outcome?))
}

/// What a vote comes to, by what was found without the unit's suggestions, and by the one that the vote is on: the vote
/// alone is written. None where the suggestion is accepted by it.
///
/// `Memory` where a growth was refused.
pub fn voted_outcome(
    alloc: Global,
    found: Option<ActContext>,
    suggestion: Option<Suggestion>,
    request: &Request,
    act: &UnitAct,
) -> Result<Option<UnitOutcome>, Memory>
    requires vote { is_vote act.now.action ≡ true }
    ensures decided { IfOk result (λ outcome. (full : Option ContextValue) (named : List ℕ) → named_by act.now.action ≡ Some named →
        found ≡ without_suggestions full → IfSome (context_view full) (λ view. suggestion ≡ suggestion_of named view.unit) →
        IfSome outcome (IsOutcomeBy (context_view full) (outcome_of full request.now.caller request.now.number act.now))) }
    ensures accepts { IfOk result (λ outcome. (full : Option ContextValue) (named : List ℕ) → named_by act.now.action ≡ Some named →
        found ≡ without_suggestions full → IfSome (context_view full) (λ view. suggestion ≡ suggestion_of named view.unit) →
        is_none outcome ≡ accepts_found full request.now.caller request.now.number act.now) }
{
    let suggestions = at_most_one(alloc, suggestion)?;
    let found = with_suggestions(found, suggestions);
    let outcome = by_found(alloc, &found, request, act);
    drop(found);
    let outcome = outcome?;
    match &act.action {
        UnitAction::Vote(named, value) => Ok(of_vote(outcome, *named, &request.caller, *value)?),
        _ => {
            drop(outcome);
            Ok(None)
        }
    }
}
