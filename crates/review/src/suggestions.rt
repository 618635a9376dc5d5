//! The suggestions of a unit: their numbers, forms and votes.
ghost use Rattle.std.specs.Prelude.{◌≡◌, IfOk, OnOk, filter, not, nat_lt, pos, if◌then◌else◌};
ghost use Rattle.std.specs.List.{list_any};
ghost use Rattle.std.specs.Option.{option_copied, option_eq};
ghost use Rattle.std.specs.FinMap as maps;
ghost use Rattle.po_text.specs.Texts.{texts_eq};
ghost use Rattle.units.specs.Limits.{vote_limit};
ghost use Rattle.units.specs.Units.{suggestion_of, has_number, vote_eq};
ghost use Rattle.review.specs.UnitStep as spec;

use po_text::{Duplicate, Forms, Items, PoString};
use std::alloc::{AllocError, Global};
use units::{Name, Suggestion, Unit, VOTE_LIMIT, VoteValue, Votes};
use uuid::Uuid;

/// The suggestion with a number.
pub fn find_suggestion(unit: &Unit, number: Uuid) -> Option<&Suggestion>
    ensures { option_copied result ≡ suggestion_of number unit.now }
{
    unit.suggestions
        .as_slice()
        .iter()
        .find(|suggestion| number == suggestion.number)
}

/// Whether these are the unit's forms, or those of one of its suggestions.
pub(crate) fn is_there(forms: &Forms, unit: &Unit) -> bool
    ensures { result ≡ spec.is_there forms.now unit.now }
{
    forms.as_slice() == unit.forms.as_slice()
        || is_suggested(forms.as_slice(), unit.suggestions.as_slice())
}

fn is_suggested(forms: &[PoString], suggestions: &[Suggestion]) -> bool
    ensures { result ≡ list_any (λ s. texts_eq forms.now s.forms) suggestions.now }
{
    suggestions
        .iter()
        .any(|suggestion| forms == suggestion.forms.as_slice())
}

/// All suggestions of a unit but the one with this number.
pub(crate) fn other_suggestions(
    alloc: Global,
    unit: &Unit,
    number: Uuid,
) -> Result<Items<Suggestion>, AllocError>
    ensures { IfOk result (λ others. others ≡ filter (λ s. not (has_number number s)) unit.now.suggestions) }
{
    let mut others = Items::new(alloc);
    for suggestion in unit.suggestions.as_slice() {
        if number != suggestion.number {
            others.push(suggestion.duplicate()?)?;
        }
    }
    Ok(others)
}

/// How many votes a suggestion has once the caller's vote is replaced.
fn len_after(votes: &Votes, caller: &Name, value: Option<VoteValue>) -> usize
    ensures { result ≡ maps.len (spec.set_vote caller.now value votes.now) }
{
    match (value, votes.get(caller)) {
        (None, Some(_)) => votes.len().saturating_sub(1),
        (None, None) => votes.len(),
        (Some(_), Some(_)) => votes.len(),
        (Some(_), None) => votes.len() + 1,
    }
}

/// Whether the caller's vote would be one too many.
pub(crate) fn is_full_of_votes(votes: &Votes, caller: &Name, value: Option<VoteValue>) -> bool
    ensures { result ≡ nat_lt vote_limit (maps.len (spec.set_vote caller.now value votes.now)) }
{
    len_after(votes, caller, value) > VOTE_LIMIT
}

fn is_same_value(value: Option<VoteValue>, other: Option<VoteValue>) -> bool
    ensures { result ≡ option_eq vote_eq value other }
{
    match (value, other) {
        (None, None) => true,
        (Some(value), Some(other)) => value == other,
        _ => false,
    }
}

/// Whether the caller suggested it, or votes as before.
pub(crate) fn is_same_vote(caller: &Name, value: Option<VoteValue>, suggestion: &Suggestion) -> bool
    ensures { result ≡ spec.is_same_vote caller.now value suggestion.now }
{
    *caller == suggestion.suggester || is_same_value(value, suggestion.votes.get(caller))
}

/// Replaces the caller's vote; none removes it.
fn set_vote(votes: &mut Votes, caller: &Name, value: Option<VoteValue>) -> Result<(), AllocError>
    ensures { OnOk result (votes.new ≡ spec.set_vote caller.now value votes.old) }
{
    match value {
        None => votes.remove(caller),
        Some(value) => votes.insert(caller.duplicate()?, value)?,
    }
    Ok(())
}

/// The suggestion with the caller's vote, if it has this number.
fn voted(
    suggestion: &Suggestion,
    number: Uuid,
    caller: &Name,
    value: Option<VoteValue>,
) -> Result<Suggestion, AllocError>
    ensures { IfOk result (λ s. s ≡ (if has_number number suggestion.now then record suggestion.now { votes = spec.set_vote caller.now value suggestion.now.votes } else suggestion.now)) }
{
    let mut suggestion = suggestion.duplicate()?;
    if number == suggestion.number {
        set_vote(&mut suggestion.votes, caller, value)?;
    }
    Ok(suggestion)
}

/// The unit's suggestions, with the caller's vote on the one with this number.
///
/// `AllocError` where a growth was refused.
pub fn voted_suggestions(
    alloc: Global,
    unit: &Unit,
    number: Uuid,
    caller: &Name,
    value: Option<VoteValue>,
) -> Result<Items<Suggestion>, AllocError>
    ensures { IfOk result (λ all. all ≡ (spec.with_vote number caller.now value unit.now).suggestions) }
{
    let mut all = Items::new(alloc);
    for suggestion in unit.suggestions.as_slice() {
        all.push(voted(suggestion, number, caller, value)?)?;
    }
    Ok(all)
}

/// The sum of a suggestion; 0 where there is none.
pub(crate) fn sum_of(unit: &Unit, number: Uuid) -> i64
    ensures { result ≡ spec.sum_of number unit.now }
{
    match find_suggestion(unit, number) {
        None => 0,
        Some(suggestion) => suggestion.votes.sum(),
    }
}
