//! The refusals that every act has, in their order.
ghost use Rattle.std.specs.Prelude.{◌≡◌, ◌==◌, not, List, ℕ, IfSome, false, length};
ghost use Rattle.std.specs.Option.{option_copied, option_map_or};
ghost use Rattle.units.specs.Units.{forms_needed};
ghost use Rattle.units.specs.declared.unit.Suggestion.{Suggestion as SuggestionValue};
ghost use Rattle.review.specs.Parts.{with_these};
ghost use Rattle.review.specs.UnitStep as spec;
ghost use Rattle.review.specs.declared.decision.Decision.TheVariants.{Refused};

use plural_expr::PluralForms;
use po_text::Forms;
use units::{Policy, Refusal, Role, UnitAct, UnitAction, UnitState, UnitView, forms_needed};

/// The least role that may do an act.
fn least_role(policy: &Policy, action: &UnitAction) -> Role
    ensures { result ≡ spec.least_role policy.now action.now }
{
    match action {
        UnitAction::Suggest(_) => {
            if policy.guests_suggest {
                Role::Guest
            } else {
                Role::Translator
            }
        }
        UnitAction::Vote(_, _) => Role::Translator,
        UnitAction::Accept(_) => Role::Translator,
        UnitAction::Dismiss(_) => Role::Translator,
        UnitAction::Translate(_) => Role::Translator,
        UnitAction::Comment(_) => Role::Translator,
        UnitAction::Approve => Role::Reviewer,
        UnitAction::SendBack => Role::Reviewer,
    }
}

/// Whether nobody below reviewer does the act to an approved unit.
fn edits(action: &UnitAction) -> bool
    ensures { result ≡ spec.edits action.now }
{
    match action {
        UnitAction::Suggest(_) => false,
        UnitAction::Vote(_, _) => false,
        UnitAction::Accept(_) => true,
        UnitAction::Dismiss(_) => false,
        UnitAction::Translate(_) => true,
        UnitAction::Comment(_) => true,
        UnitAction::Approve => false,
        UnitAction::SendBack => false,
    }
}

/// The forms that an act brings.
fn forms_of(action: &UnitAction) -> Option<&Forms>
    ensures { option_copied result ≡ spec.forms_of action.now }
{
    match action {
        UnitAction::Suggest(forms) => Some(forms),
        UnitAction::Vote(_, _) => None,
        UnitAction::Accept(_) => None,
        UnitAction::Dismiss(_) => None,
        UnitAction::Translate(forms) => Some(forms),
        UnitAction::Comment(_) => None,
        UnitAction::Approve => None,
        UnitAction::SendBack => None,
    }
}

/// Whether an act brings more or fewer forms than its unit needs.
fn has_wrong_count(rule: &PluralForms, view: &UnitView, action: &UnitAction) -> bool
    ensures { result ≡ option_map_or (λ forms. not (length forms == forms_needed rule.now view.now.unit.plural)) (spec.forms_of action.now) false }
{
    match forms_of(action) {
        Some(forms) => forms.as_slice().len() as u32
            != forms_needed(rule, view.unit.plural.as_ref()),
        None => false,
    }
}

/// The first refusal that applies, of those that every act has.
fn first_refusal(
    policy: &Policy,
    rule: &PluralForms,
    role: Role,
    view: &UnitView,
    act: &UnitAct,
) -> Option<Refusal>
    ensures { result ≡ spec.first_refusal (spec.early_refusals policy.now rule.now role view.now act.now) }
{
    let unit = &view.unit;
    if unit.obsolete {
        return Some(Refusal::NoUnit);
    }
    if role.is_below(least_role(policy, &act.action)) {
        return Some(Refusal::BelowRole);
    }
    if view.is_read_only() {
        return Some(Refusal::IsReadOnly);
    }
    if act.seen != unit.revision {
        return Some(Refusal::IsStale);
    }
    if edits(&act.action) && unit.state == UnitState::Approved && role.is_below(Role::Reviewer) {
        return Some(Refusal::IsApproved);
    }
    if has_wrong_count(rule, view, &act.action) {
        return Some(Refusal::PluralCount);
    }
    None
}

/// The first refusal that applies, of those that every act has. None of them looks at a suggestion: the act is refused
/// by it whatever is suggested for the unit.
pub fn early_refusal(
    policy: &Policy,
    rule: &PluralForms,
    role: Role,
    view: &UnitView,
    act: &UnitAct,
) -> Option<Refusal>
    ensures first { result ≡ spec.first_refusal (spec.early_refusals policy.now rule.now role view.now act.now) }
    ensures refuses { IfSome result (λ refusal. (caller number : List ℕ) (suggestions : List SuggestionValue) →
        spec.unit_step policy.now rule.now role caller number (with_these suggestions view.now) act.now ≡ Refused refusal) }
{
    first_refusal(policy, rule, role, view, act)
}
