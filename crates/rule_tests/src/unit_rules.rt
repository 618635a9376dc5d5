//! Whether a unit keeps the rules of one.

ghost use Rattle.std.specs.Prelude.{◌≡◌, ◌≤◌, ◌↔◌, ◌==◌, ◌&&◌, ◌||◌, length, true, not, is_some, nat_le};
ghost use Rattle.std.specs.List.{list_all};
ghost use Rattle.std.specs.FinMap as maps;
ghost use Rattle.po_lex.specs.Lines.{is_comment_text};
ghost use Rattle.po_text.specs.Strings.{form_limit};
ghost use Rattle.po_text.specs.Texts.{is_empty};
ghost use Rattle.units.specs.Limits.{vote_limit};
ghost use Rattle.units.specs.Units.{no_previous};
ghost use Rattle.units.specs.Projects.{IsUnit};
ghost use Rattle.rule_tests.specs.Parts.{HasForms, IsPutAway, HasItsForms, KeepsPrevious, HasItsTexts, HasFewSuggestions};

use plural_expr::PluralForms;
use po_text::{Forms, Previous, Text};
use units::{Key, SUGGESTION_LIMIT, Suggestion, Unit, UnitState, VOTE_LIMIT, forms_needed};

/// Whether all three hold.
pub(crate) fn hold_all(first: bool, second: bool, third: bool) -> bool
    ensures { result ≡ (first && (second && third)) }
{
    first && second && third
}

/// An entry has 1 to 8 forms, by its type.
fn hold_forms(forms: &Forms)
    ensures some { 1 ≤ length forms.now }
    ensures most { length forms.now ≤ form_limit }
{
    let _ = forms.as_slice();
}

fn has_count(count: u32, forms: &Forms) -> bool
    ensures { result ≡ (length forms.now == count) }
{
    forms.as_slice().len() == count as usize
}

fn have_count(count: u32, suggestions: &[Suggestion]) -> bool
    ensures { result ≡ list_all (λ s. length s.forms == count) suggestions.now }
{
    suggestions
        .iter()
        .all(|suggestion| has_count(count, &suggestion.forms))
}

/// Whether a unit and its suggestions have the forms that it needs, if it isn't obsolete.
fn has_forms(rule: &PluralForms, unit: &Unit) -> bool
    ensures { (result ≡ true) ↔ HasForms rule.now unit.now }
{
    let count = forms_needed(rule, unit.plural.as_ref());
    let own = has_count(count, &unit.forms);
    hold_all(own, have_count(count, unit.suggestions.as_slice()), true)
}

/// Whether there is one form where there is no msgid_plural.
fn is_single(unit: &Unit) -> bool
    ensures { result ≡ (is_some unit.now.plural || (length unit.now.forms == 1)) }
{
    unit.plural.is_some() || unit.forms.as_slice().len() == 1
}

/// Whether a unit has what an obsolete one may have.
fn is_put_away(unit: &Unit) -> bool
    ensures { (result ≡ true) ↔ IsPutAway unit.now }
{
    hold_forms(&unit.forms);
    hold_all(
        unit.suggestions.as_slice().is_empty(),
        is_single(unit),
        true,
    )
}

fn has_its_forms(rule: &PluralForms, unit: &Unit) -> bool
    ensures { (result ≡ true) ↔ HasItsForms rule.now unit.now }
{
    if unit.obsolete {
        is_put_away(unit)
    } else {
        has_forms(rule, unit)
    }
}

/// Whether a key isn't a header's.
fn is_named(key: &Key) -> bool
    ensures { result ≡ (is_some key.now.ctx || not (is_empty key.now.id)) }
{
    key.ctx.is_some() || !key.id.as_str().is_empty()
}

pub(crate) fn has_no_previous(previous: &Previous) -> bool
    ensures { (result ≡ true) ↔ (previous.now ≡ no_previous) }
{
    previous.ctx.is_none() && previous.id.is_none() && previous.plural.is_none()
}

/// Whether a unit has previous strings only where it needs editing.
fn keeps_previous(unit: &Unit) -> bool
    ensures { (result ≡ true) ↔ KeepsPrevious unit.now }
{
    unit.state == UnitState::NeedsEditing || has_no_previous(&unit.previous)
}

fn is_comment_text(text: &str) -> bool
    ensures { result ≡ is_comment_text text.now }
{
    text.as_bytes().iter().all(|b| *b == b'\t' || *b >= 32)
}

fn are_comment_texts(lines: &[Text]) -> bool
    ensures { result ≡ list_all is_comment_text lines.now }
{
    lines.iter().all(|line| is_comment_text(line.as_str()))
}

fn has_its_texts(unit: &Unit) -> bool
    ensures { (result ≡ true) ↔ HasItsTexts unit.now }
{
    let named = is_named(&unit.key);
    hold_all(
        named,
        keeps_previous(unit),
        are_comment_texts(unit.comment.as_slice()),
    )
}

fn have_few_votes(suggestions: &[Suggestion]) -> bool
    ensures { result ≡ list_all (λ s. nat_le (maps.len s.votes) vote_limit) suggestions.now }
{
    suggestions
        .iter()
        .all(|suggestion| suggestion.votes.len() <= VOTE_LIMIT)
}

fn has_few_suggestions(unit: &Unit) -> bool
    ensures { (result ≡ true) ↔ HasFewSuggestions unit.now }
{
    let suggestions = unit.suggestions.as_slice();
    hold_all(
        suggestions.len() <= SUGGESTION_LIMIT,
        have_few_votes(suggestions),
        true,
    )
}

/// Whether a unit keeps the rules of one, under the plural rule of its language.
pub(crate) fn is_unit(rule: &PluralForms, unit: &Unit) -> bool
    ensures { (result ≡ true) ↔ IsUnit rule.now unit.now }
{
    let _ = unit.revision.number();
    let formed = has_its_forms(rule, unit);
    hold_all(formed, has_its_texts(unit), has_few_suggestions(unit))
}
