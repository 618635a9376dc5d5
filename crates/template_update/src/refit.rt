//! Units under a template's msgid_plural.

ghost use Rattle.std.specs.Prelude.{◌≡◌, ◌<◌, ◌≤◌, ◌∷◌, IfOk, Some, replicate, []};
ghost use Rattle.std.specs.Option.{option_copied};
ghost use Rattle.po_text.specs.Strings.{form_limit};
ghost use Rattle.po_text.specs.Texts.{maybe_text_eq};
ghost use Rattle.units.specs.Units.{in_state, key_of};
ghost use Rattle.units.specs.declared.unit.UnitState.TheVariants.{NeedsEditing, Untranslated};
ghost use Rattle.template_update.specs.Units as spec;

use plural_expr::PluralForms;
use po_text::{Duplicate, Entry, Forms, Items, PoString, Previous};
use std::alloc::{AllocError, Global};
use units::{Key, Revision, Unit, UnitState, all_empty, forms_needed, no_previous};

pub(crate) fn first_revision() -> Revision
    ensures { result ≡ 1 }
{
    Revision::try_new(1).unwrap()
}

/// One form, which is empty.
pub(crate) fn empty_form(alloc: Global) -> Result<Forms, AllocError>
    ensures { IfOk result (λ forms. forms ≡ [] ∷ []) }
{
    Forms::one(alloc, PoString::empty(alloc))
}

/// Empty forms.
fn forms_of(alloc: Global, count: u32) -> Result<Forms, AllocError>
    requires some { 0 < count }
    requires most { count ≤ form_limit }
    ensures { IfOk result (λ forms. forms ≡ replicate count []) }
{
    let mut forms = empty_form(alloc)?;
    for _ in 1..count {
        forms.add(PoString::empty(alloc))?;
    }
    Ok(forms)
}

/// As many empty forms as a msgid_plural needs.
fn empty_forms(
    alloc: Global,
    rule: &PluralForms,
    plural: Option<&PoString>,
) -> Result<Forms, AllocError>
    ensures { IfOk result (λ forms. forms ≡ spec.empty_forms rule.now (option_copied plural.entry)) }
{
    match plural {
        None => empty_form(alloc),
        Some(_) => forms_of(alloc, rule.count()),
    }
}

pub(crate) fn copied(string: Option<&PoString>) -> Result<Option<PoString>, AllocError>
    ensures { IfOk result (λ copy. copy ≡ option_copied string.entry) }
{
    match string {
        None => Ok(None),
        Some(string) => Ok(Some(string.duplicate()?)),
    }
}

/// A msgid_plural, and empty forms for it.
#[derive(Drop)]
struct EmptyMessage {
    plural: Option<PoString>,
    forms: Forms,
}

fn empty_message(
    alloc: Global,
    rule: &PluralForms,
    plural: Option<&PoString>,
) -> Result<EmptyMessage, AllocError>
    ensures plural { IfOk result (λ empty. empty.plural ≡ option_copied plural.entry) }
    ensures forms { IfOk result (λ empty. empty.forms ≡ spec.empty_forms rule.now (option_copied plural.entry)) }
{
    Ok(EmptyMessage {
        forms: empty_forms(alloc, rule, plural)?,
        plural: copied(plural)?,
    })
}

/// The key of an entry, as its unit has it.
pub(crate) fn key_of(entry: &Entry) -> Result<Key, AllocError>
    ensures { IfOk result (λ key. key ≡ key_of entry.now) }
{
    Ok(Key {
        ctx: entry.ctx.duplicate()?,
        id: entry.id.duplicate()?,
    })
}

/// A unit that nobody has worked on.
pub(crate) fn new_unit(alloc: Global, rule: &PluralForms, entry: &Entry) -> Result<Unit, AllocError>
    ensures { IfOk result (λ unit. unit ≡ spec.new_unit rule.now entry.now) }
{
    let key = key_of(entry)?;
    let empty = empty_message(alloc, rule, entry.plural.as_ref())?;
    Ok(Unit {
        key,
        plural: empty.plural,
        forms: empty.forms,
        state: UnitState::Untranslated,
        obsolete: false,
        revision: first_revision(),
        comment: Items::new(alloc),
        previous: no_previous(),
        suggestions: Items::new(alloc),
    })
}

/// Whether the forms can't be kept: they aren't the needed number, or all are empty.
fn is_useless(rule: &PluralForms, plural: Option<&PoString>, forms: &[PoString]) -> bool
    ensures { result ≡ spec.is_useless rule.now (option_copied plural.entry) forms.now }
{
    forms.len() != forms_needed(rule, plural) as usize || all_empty(forms)
}

pub(crate) fn is_same(a: Option<&PoString>, b: Option<&PoString>) -> bool
    ensures { result ≡ maybe_text_eq (option_copied a.entry) (option_copied b.entry) }
{
    match (a, b) {
        (None, None) => true,
        (Some(x), Some(y)) => *x == *y,
        (_, _) => false,
    }
}

/// The unit without a translation, under another msgid_plural.
fn emptied(
    alloc: Global,
    rule: &PluralForms,
    plural: Option<&PoString>,
    unit: Unit,
) -> Result<Unit, AllocError>
    ensures { IfOk result (λ new. new ≡ spec.emptied rule.now (option_copied plural.entry) unit) }
{
    match empty_message(alloc, rule, plural) {
        Ok(empty) => Ok(with_empty(empty, unit)),
        Err(refused) => {
            drop(unit);
            Err(refused)
        }
    }
}

/// The unit with this msgid_plural and these forms, which are empty.
fn with_empty(empty: EmptyMessage, unit: Unit) -> Unit
    ensures { result ≡ in_state Untranslated (record unit { plural = empty.plural; forms = empty.forms }) }
{
    let mut unit = unit;
    unit.forms = empty.forms;
    unit.plural = empty.plural;
    unit.in_state(UnitState::Untranslated)
}

/// Another msgid_plural, and what the key and the msgid_plural were before.
#[derive(Drop)]
struct Wording {
    plural: Option<PoString>,
    previous: Previous,
}

/// What the unit's key and msgid_plural are.
fn previous_of(unit: &Unit) -> Result<Previous, AllocError>
    ensures { IfOk result (λ previous. previous ≡ record { ctx = unit.now.key.ctx; id = Some unit.now.key.id; plural = unit.now.plural }) }
{
    Ok(Previous {
        ctx: unit.key.ctx.duplicate()?,
        id: Some(unit.key.id.duplicate()?),
        plural: unit.plural.duplicate()?,
    })
}

fn wording_of(plural: Option<&PoString>, unit: &Unit) -> Result<Wording, AllocError>
    ensures plural { IfOk result (λ wording. wording.plural ≡ option_copied plural.entry) }
    ensures previous { IfOk result (λ wording. wording.previous ≡ record { ctx = unit.now.key.ctx; id = Some unit.now.key.id; plural = unit.now.plural }) }
{
    Ok(Wording {
        previous: previous_of(unit)?,
        plural: copied(plural)?,
    })
}

/// The unit with this wording, for which its forms need editing.
fn with_wording(wording: Wording, unit: Unit) -> Unit
    ensures { result ≡ record unit { plural = wording.plural; state = NeedsEditing; previous = wording.previous } }
{
    let mut unit = unit;
    unit.previous = wording.previous;
    unit.plural = wording.plural;
    unit.state = UnitState::NeedsEditing;
    unit
}

/// The unit's forms under another msgid_plural, for which they need editing.
fn reworded(plural: Option<&PoString>, unit: Unit) -> Result<Unit, AllocError>
    ensures { IfOk result (λ new. new ≡ spec.reworded (option_copied plural.entry) unit) }
{
    match wording_of(plural, &unit) {
        Ok(wording) => Ok(with_wording(wording, unit)),
        Err(refused) => {
            drop(unit);
            Err(refused)
        }
    }
}

/// The unit under a msgid_plural: without its forms where they can't be kept, needing editing where the msgid_plural is another,
/// else as it is.
pub(crate) fn refit(
    alloc: Global,
    rule: &PluralForms,
    plural: Option<&PoString>,
    unit: Unit,
) -> Result<Unit, AllocError>
    ensures { IfOk result (λ new. new ≡ spec.refit rule.now (option_copied plural.entry) unit) }
{
    if is_useless(rule, plural, unit.forms.as_slice()) {
        emptied(alloc, rule, plural, unit)
    } else if !is_same(plural, unit.plural.as_ref()) {
        reworded(plural, unit)
    } else {
        Ok(unit)
    }
}
