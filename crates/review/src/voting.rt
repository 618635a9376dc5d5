//! Votes on suggestions, by which they are accepted automatically.
ghost use Rattle.std.specs.Prelude.{◌≡◌, IfOk, List, ℕ, ◌&&◌, ◌==◌, not, int_le, pos, nat_lt, if◌then◌else◌, false, true};
ghost use Rattle.units.specs.declared.unit.Suggestion.{Suggestion as SuggestionValue};
ghost use Rattle.units.specs.Limits.{revision_limit};
ghost use Rattle.units.specs.Units.{is_approved, suggestion_of, shown_state};
ghost use Rattle.review.specs.UnitStep as spec;

use crate::decision::{Decision, Values};
use crate::suggestions::{
    find_suggestion, is_full_of_votes, is_same_vote, sum_of, voted_suggestions,
};
use crate::translating::after_acceptance;
use crate::units_after::{done, in_view, revision_of, with_suggestions};
use plural_expr::PluralForms;
use po_text::Forms;
use std::alloc::{AllocError, Global};
use units::{Memory, Name, Policy, Refusal, UnitAction, UnitState, UnitView, VoteValue};
use uuid::Uuid;

/// Whether a suggestion with this sum is accepted by itself.
fn is_due(policy: &Policy, votes: i64, state: UnitState) -> bool
    ensures { result ≡ (not (policy.now.accept_at == 0) && int_le (pos policy.now.accept_at) votes && not (is_approved state)) }
{
    let least = policy.accept_at.number();
    least != 0 && least as i64 <= votes && state != UnitState::Approved
}

/// The view with the caller's vote on the suggestion with this number.
fn with_vote(
    alloc: Global,
    view: &UnitView,
    named: Uuid,
    caller: &Name,
    value: Option<VoteValue>,
) -> Result<UnitView, AllocError>
    ensures { IfOk result (λ v. v ≡ record view.now { unit = spec.with_vote named caller.now value view.now.unit }) }
{
    let suggestions = voted_suggestions(alloc, &view.unit, named, caller, value)?;
    let unit = with_suggestions(&view.unit, suggestions)?;
    in_view(view, unit)
}

/// The vote is taken, and nothing is accepted by it.
fn taken(voted: UnitView, votes: i64) -> Decision
    ensures done { result ≡ Decision.Done voted (Values.Voted false voted.unit.revision (shown_state voted.source voted.unit) votes) }
    ensures within { nat_lt revision_limit voted.unit.revision ≡ false }
{
    let values = Values::Voted {
        accepted: false,
        revision: revision_of(&voted.unit),
        state: voted.shown_state(),
        votes,
    };
    Decision::Done(voted, values)
}

/// The vote is taken, and its suggestion, which has these forms, is accepted, where there is a revision for it.
fn accepted(
    alloc: Global,
    voted: &UnitView,
    rule: &PluralForms,
    policy: &Policy,
    named: Uuid,
    forms: &Forms,
    votes: i64,
) -> Result<Decision, Memory>
    ensures { IfOk result (λ d. (s : SuggestionValue) → suggestion_of named voted.now.unit ≡ Some s → s.forms ≡ forms.now →
        let after = spec.with_accepted policy.now rule.now voted.now named in
        let values = Values.Voted true after.revision (shown_state voted.now.source after) votes in
        d ≡ (if nat_lt revision_limit after.revision then Decision.Refused Refusal.PastLimit else Decision.Done (record voted.now { unit = after }) values)) }
{
    let after = after_acceptance(alloc, voted, rule, policy, named, forms)?;
    let Some(unit) = after else {
        return Ok(Decision::Refused(Refusal::PastLimit));
    };
    let values = Values::Voted {
        accepted: true,
        revision: unit.revision,
        state: unit.shown_state(&voted.source),
        votes,
    };
    done(voted, unit, values)
}

/// Decides to take a vote.
#[tactic(auto, unfolding(crate::specs::UnitStep::decision_by_act, crate::specs::UnitStep::unit_after))]
pub(crate) fn vote(
    alloc: Global,
    view: &UnitView,
    rule: &PluralForms,
    policy: &Policy,
    caller: &Name,
    named: Uuid,
    value: Option<VoteValue>,
) -> Result<Decision, Memory>
    ensures { IfOk result (λ d. (number : List ℕ) → d ≡ spec.decision_by_act policy.now rule.now caller.now number view.now (UnitAction.Vote named value)) }
{
    let Some(suggestion) = find_suggestion(&view.unit, named) else {
        return Ok(Decision::Refused(Refusal::NoSuggestion));
    };
    if !policy.voting {
        return Ok(Decision::Refused(Refusal::VotingOff));
    }
    if is_full_of_votes(&suggestion.votes, caller, value) {
        return Ok(Decision::Refused(Refusal::IsFull));
    }
    if is_same_vote(caller, value, suggestion) {
        return Ok(Decision::Refused(Refusal::IsSame));
    }
    let voted = with_vote(alloc, view, named, caller, value)?;
    let votes = sum_of(&voted.unit, named);
    if is_due(policy, votes, voted.unit.state) {
        let decision = accepted(alloc, &voted, rule, policy, named, &suggestion.forms, votes);
        drop(voted);
        decision
    } else {
        Ok(taken(voted, votes))
    }
}
