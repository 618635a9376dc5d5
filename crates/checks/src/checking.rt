//! The checks of a translation's forms, and the state that they give a unit.

ghost use Rattle.std.specs.Prelude.{◌≡◌, ◌<◌, ◌^◌, IfOk, length, option_map};
ghost use Rattle.po_text.specs.Texts.{is_empty};
ghost use Rattle.checks.specs.Findings.{wanted_of, may_leave_out, are_fitting, fit_under, line_ends_fit, unfit_placeholders, unfit_line_ends, findings};
ghost use Rattle.checks.specs.Result.{is_found, result_state};

use crate::agreement::{agree, are_same_set, is_subset, leaves_out};
use crate::format::Format;
use crate::scan::placeholder_texts;
use crate::source::{Findings, Source};
use plural_expr::PluralForms;
use po_text::{Items, PoString, Text};
use std::alloc::Global;
use units::{Memory, Policy, UnitState, all_empty, has_flag, some_empty};

fn is_empty(form: &PoString) -> bool
    ensures { result ≡ is_empty form.now }
{
    form.as_str().is_empty()
}

/// Whether the form begins with LF exactly if msgid does, and ends with LF exactly if msgid does.
fn line_ends_fit(id: &PoString, form: &PoString) -> bool
    ensures { result ≡ line_ends_fit id.now form.now }
{
    let id = id.as_str().as_bytes();
    let form = form.as_str().as_bytes();
    form.starts_with(b"\n") == id.starts_with(b"\n") && form.ends_with(b"\n") == id.ends_with(b"\n")
}

/// What the placeholders of forms are held against, where the source has the format's flag.
fn wanted(alloc: Global, format: Format, source: &Source<'_>) -> Result<Option<Vec<Text>>, Memory>
    ensures { IfOk result (λ wanted. option_map (λ texts. texts.items) wanted ≡ wanted_of format source.now) }
{
    if !has_flag(source.flags, format.flag()) {
        return Ok(None);
    }
    let text = match source.plural {
        Some(plural) => plural,
        None => source.id,
    };
    Ok(Some(placeholder_texts(alloc, format, text.as_str())?))
}

/// Whether a form may leave placeholders out: it serves exactly one number, in a unit with a msgid_plural.
fn may_leave_out(source: &Source<'_>, rule: &PluralForms, number: u32) -> bool
    ensures { result ≡ may_leave_out source.now rule.now number }
{
    source.plural.is_some() && rule.serves_one(number)
}

/// Whether the placeholders that were found agree with those that are wanted or, where they may, leave some out.
fn are_fitting(
    alloc: Global,
    format: Format,
    may: bool,
    found: &[Text],
    wanted: &[Text],
) -> Result<bool, Memory>
    ensures { IfOk result (λ fits. fits ≡ are_fitting format may found.now wanted.now) }
{
    match format {
        Format::C => Ok(agree(alloc, found, wanted)? || (may && leaves_out(alloc, found, wanted)?)),
        Format::Brace => {
            Ok(are_same_set(alloc, found, wanted)? || (may && is_subset(alloc, found, wanted)?))
        }
    }
}

/// Whether a form's placeholders fit under a format: they do where none are wanted.
fn fit_under(
    alloc: Global,
    format: Format,
    source: &Source<'_>,
    rule: &PluralForms,
    number: u32,
    form: &PoString,
    wanted: &Option<Vec<Text>>,
) -> Result<bool, Memory>
    requires { option_map (λ texts. texts.items) wanted.now ≡ wanted_of format source.now }
    ensures { IfOk result (λ fits. fits ≡ fit_under format source.now rule.now (number, form.now)) }
{
    match wanted {
        Some(wanted) => {
            let may = may_leave_out(source, rule, number);
            let found = placeholder_texts(alloc, format, form.as_str())?;
            are_fitting(alloc, format, may, &found, wanted)
        }
        None => Ok(true),
    }
}

/// The numbers of the forms whose placeholders fail under a flag that the source has.
fn unfit_placeholders(
    alloc: Global,
    source: &Source<'_>,
    forms: &[PoString],
    rule: &PluralForms,
) -> Result<Items<u32>, Memory>
    requires { length forms.now < 2 ^ 32 }
    ensures { IfOk result (λ found. found ≡ unfit_placeholders source.now forms.now rule.now) }
{
    let mut found = Items::new(alloc);
    let directives = wanted(alloc, Format::C, source)?;
    let braces = wanted(alloc, Format::Brace, source)?;
    for (number, form) in forms.iter().enumerate() {
        let number = number as u32;
        if !is_empty(form)
            && !(fit_under(alloc, Format::C, source, rule, number, form, &directives)?
                && fit_under(alloc, Format::Brace, source, rule, number, form, &braces)?)
        {
            found.push(number)?;
        }
    }
    Ok(found)
}

/// The numbers of the forms whose line ends fail.
fn unfit_line_ends(
    alloc: Global,
    source: &Source<'_>,
    forms: &[PoString],
) -> Result<Items<u32>, Memory>
    requires { length forms.now < 2 ^ 32 }
    ensures { IfOk result (λ found. found ≡ unfit_line_ends source.now forms.now) }
{
    let mut found = Items::new(alloc);
    for (number, form) in forms.iter().enumerate() {
        if !is_empty(form) && !line_ends_fit(source.id, form) {
            found.push(number as u32)?;
        }
    }
    Ok(found)
}

/// What the checks find in a translation's forms, enforced or not. Placeholders are checked under the flags `c-format` and
/// `python-brace-format` (GNU gettext manual, "The Format of PO Files"), under both by both rules: a form is found if either
/// finds it. Empty forms are skipped. Forms have `u32` numbers, which their count has to allow: those of a unit are 1 to 8.
///
/// `Memory` where a growth was refused.
#[tactic(auto, unfolding(crate::specs::Findings::findings))]
pub fn findings(
    alloc: Global,
    source: &Source<'_>,
    forms: &[PoString],
    rule: &PluralForms,
) -> Result<Findings, Memory>
    requires { length forms.now < 2 ^ 32 }
    ensures { IfOk result (λ found. found ≡ findings source.now forms.now rule.now) }
{
    let placeholders = unfit_placeholders(alloc, source, forms, rule)?;
    let line_ends = unfit_line_ends(alloc, source, forms)?;
    Ok(Findings {
        placeholders,
        line_ends,
    })
}

fn is_none(numbers: &Items<u32>) -> bool
    ensures { result ≡ is_empty numbers.now }
{
    numbers.as_slice().is_empty()
}

/// Whether an enforced check finds something. A check that isn't enforced is not made.
#[tactic(auto, unfolding(crate::specs::Findings::findings))]
fn is_found(
    alloc: Global,
    policy: &Policy,
    rule: &PluralForms,
    source: &Source<'_>,
    forms: &[PoString],
) -> Result<bool, Memory>
    requires { length forms.now < 2 ^ 32 }
    ensures { IfOk result (λ found. found ≡ is_found policy.now (findings source.now forms.now rule.now)) }
{
    if policy.placeholders && !is_none(&unfit_placeholders(alloc, source, forms, rule)?) {
        return Ok(true);
    }
    Ok(policy.line_ends && !is_none(&unfit_line_ends(alloc, source, forms)?))
}

/// The state that forms give a unit: untranslated if all are empty; else needs editing if some form is empty or an
/// enforced check finds something; else translated (the states of Weblate, "Translation states").
///
/// `Memory` where a growth was refused.
#[tactic(auto, unfolding(crate::specs::Result::result_state))]
pub fn result_state(
    alloc: Global,
    policy: &Policy,
    rule: &PluralForms,
    source: &Source<'_>,
    forms: &[PoString],
) -> Result<UnitState, Memory>
    requires { length forms.now < 2 ^ 32 }
    ensures { IfOk result (λ state. state ≡ result_state policy.now rule.now source.now forms.now) }
{
    if all_empty(forms) {
        return Ok(UnitState::Untranslated);
    }
    if some_empty(forms) || is_found(alloc, policy, rule, source, forms)? {
        Ok(UnitState::NeedsEditing)
    } else {
        Ok(UnitState::Translated)
    }
}
