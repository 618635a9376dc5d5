//! The units that a language's first text gives.

ghost use Rattle.std.specs.Prelude.{◌≡◌, ◌≤◌, ◌++◌, List, length, map, filter, count_by, IfOk};
ghost use Rattle.std.specs.Option.{option_copied};
ghost use Rattle.po_text.specs.declared.entry.Entry.{Entry as EntryValue};
ghost use Rattle.units.specs.Units.{key_of};
ghost use Rattle.units.specs.Project.{entry_of};
ghost use Rattle.template_update.specs.Loads as spec;
ghost use Rattle.template_update.specs.Templates.{is_fuzzy};
ghost use Rattle.template_update.specs.KeyIndexes.{IsIndexOf};

use crate::index::KeyIndex;
use crate::planning::within_limit;
use crate::plans::{Counts, Plan};
use crate::refit::{first_revision, key_of, new_unit, refit};
use crate::template::is_header;
use checks::{Source, result_state};
use plural_expr::PluralForms;
use po_text::{Catalogue, Duplicate, Entry, Forms, Items, PoString, Previous, Text};
use std::alloc::{AllocError, Global};
use units::{Keyed, Memory, Policy, Unit, UnitState, all_empty, has_flag, some_empty};

/// What a unit takes of an entry besides its key.
#[derive(Drop)]
struct Message {
    plural: Option<PoString>,
    forms: Forms,
    comment: Items<Text>,
    previous: Previous,
}

fn message_of(entry: &Entry) -> Result<Message, AllocError>
    ensures plural { IfOk result (λ own. own.plural ≡ entry.now.plural) }
    ensures forms { IfOk result (λ own. own.forms ≡ entry.now.forms) }
    ensures comment { IfOk result (λ own. own.comment ≡ entry.now.translator) }
    ensures previous { IfOk result (λ own. own.previous ≡ entry.now.previous) }
{
    Ok(Message {
        plural: entry.plural.duplicate()?,
        forms: entry.forms.duplicate()?,
        comment: entry.translator.duplicate()?,
        previous: entry.previous.duplicate()?,
    })
}

/// An entry as a unit in a state, at revision 1.
fn unit_of(
    alloc: Global,
    state: UnitState,
    obsolete: bool,
    entry: &Entry,
) -> Result<Unit, AllocError>
    ensures { IfOk result (λ unit. unit ≡ spec.unit_of state obsolete entry.now) }
{
    let key = key_of(entry)?;
    let message = message_of(entry)?;
    let unit = Unit {
        key,
        plural: message.plural,
        forms: message.forms,
        state,
        obsolete,
        revision: first_revision(),
        comment: message.comment,
        previous: message.previous,
        suggestions: Items::new(alloc),
    };
    Ok(unit.in_state(state))
}

fn is_fuzzy(entry: &Entry) -> bool
    ensures { result ≡ is_fuzzy entry.now }
{
    has_flag(entry.flags.as_slice(), "fuzzy")
}

fn editing_if(needs: bool) -> UnitState
    ensures { result ≡ spec.editing_if needs }
{
    if needs {
        UnitState::NeedsEditing
    } else {
        UnitState::Translated
    }
}

/// Whether the forms of an entry of the text give the template's entry another state than translated.
fn is_untranslated_in(
    alloc: Global,
    policy: &Policy,
    rule: &PluralForms,
    entry: &Entry,
    found: &Entry,
) -> Result<bool, Memory>
    ensures { IfOk result (λ b. b ≡ spec.is_untranslated_in policy.now rule.now entry.now found.now) }
{
    let source = Source {
        id: &entry.id,
        plural: entry.plural.as_ref(),
        flags: entry.flags.as_slice(),
    };
    let state = result_state(alloc, policy, rule, &source, found.forms.as_slice())?;
    Ok(state != UnitState::Translated)
}

/// Needs editing if the entry is `fuzzy` or its forms give another state than translated, else translated.
fn loaded_state(
    alloc: Global,
    policy: &Policy,
    rule: &PluralForms,
    entry: &Entry,
    found: &Entry,
) -> Result<UnitState, Memory>
    ensures { IfOk result (λ state. state ≡ spec.loaded_state policy.now rule.now entry.now found.now) }
{
    let needs = is_fuzzy(found) || is_untranslated_in(alloc, policy, rule, entry, found)?;
    Ok(editing_if(needs))
}

/// The unit of a template entry whose key the text has.
fn loaded_unit(
    alloc: Global,
    policy: &Policy,
    rule: &PluralForms,
    entry: &Entry,
    found: &Entry,
) -> Result<Unit, Memory>
    ensures { IfOk result (λ unit. unit ≡ spec.loaded_unit policy.now rule.now entry.now found.now) }
{
    let state = loaded_state(alloc, policy, rule, entry, found)?;
    let unit = unit_of(alloc, state, false, found)?;
    Ok(refit(alloc, rule, entry.plural.as_ref(), unit)?)
}

/// The unit of a template entry, by what the text has of its key.
fn unit_by(
    alloc: Global,
    policy: &Policy,
    rule: &PluralForms,
    entry: &Entry,
    found: Option<&Entry>,
) -> Result<Unit, Memory>
    ensures { IfOk result (λ unit. unit ≡ spec.unit_by policy.now rule.now entry.now (option_copied found.entry)) }
{
    match found {
        None => Ok(new_unit(alloc, rule, entry)?),
        Some(found) => loaded_unit(alloc, policy, rule, entry, found),
    }
}

/// The units of the template's entries.
fn load_units<'a>(
    alloc: Global,
    policy: &Policy,
    rule: &PluralForms,
    text: &KeyIndex<'a, Entry>,
    template: &'a [Entry],
) -> Result<Vec<Unit>, Memory>
    ensures { IfOk result (λ all. (entries : List EntryValue) → IsIndexOf key_of entries text.now.found →
        all.items ≡ map (λ entry. spec.unit_by policy.now rule.now entry (entry_of entries (key_of entry))) template.now) }
{
    let mut all = Vec::new(alloc);
    for entry in template {
        let found = text.first(&entry.key());
        all.push(unit_by(alloc, policy, rule, entry, found)?)?;
    }
    Ok(all)
}

/// Whether the index has the entry's key.
fn is_in<'a>(index: &KeyIndex<'a, Entry>, entry: &'a Entry) -> bool
    ensures { (entries : List EntryValue) → IsIndexOf key_of entries index.now.found → result ≡ spec.is_in entries entry.now }
{
    index.contains(&entry.key())
}

/// How many template entries have keys that the text has.
fn count_loaded<'a>(text: &KeyIndex<'a, Entry>, template: &'a [Entry]) -> usize
    ensures count { (entries : List EntryValue) → IsIndexOf key_of entries text.now.found → result ≡ count_by (spec.is_in entries) template.now }
    ensures most { result ≤ length template.now }
{
    let mut count = 0;
    for entry in template {
        if is_in(text, entry) {
            count += 1;
        }
    }
    count
}

/// Whether a form of the entry is nonempty, and it isn't the header.
fn has_translation(found: &Entry) -> bool
    ensures { result ≡ spec.has_translation found.now }
{
    !is_header(found) && !all_empty(found.forms.as_slice())
}

/// Whether an entry has a nonempty form and is none of the template's.
fn is_leftover<'a>(template: &KeyIndex<'a, Entry>, found: &'a Entry) -> bool
    ensures { (entries : List EntryValue) → IsIndexOf key_of entries template.now.found → result ≡ spec.is_leftover entries found.now }
{
    has_translation(found) && !is_in(template, found)
}

/// The obsolete unit of an entry that the template doesn't have.
fn leftover(alloc: Global, found: &Entry) -> Result<Unit, AllocError>
    ensures { IfOk result (λ unit. unit ≡ spec.leftover found.now) }
{
    let state = editing_if(is_fuzzy(found) || some_empty(found.forms.as_slice()));
    unit_of(alloc, state, true, found)
}

/// Adds the obsolete units of the text's entries that the template doesn't have.
fn add_leftovers<'a>(
    alloc: Global,
    template: &KeyIndex<'a, Entry>,
    text: &'a [Entry],
    all: Vec<Unit>,
) -> Result<Vec<Unit>, AllocError>
    ensures units { IfOk result (λ more. (entries : List EntryValue) → IsIndexOf key_of entries template.now.found →
        more.items ≡ all.items ++ map spec.leftover (spec.leftovers entries text.now)) }
    ensures len { IfOk result (λ more. length all.items ≤ length more.items) }
{
    let mut all = all;
    for found in text {
        if is_leftover(template, found) {
            all.push(leftover(alloc, found)?)?;
        }
    }
    Ok(all)
}

/// The units that a language's first text gives: of the template, the text's entries, the text's plural rule and the policy. A template
/// entry whose key the text has takes its comment lines and forms where they can be kept, and needs editing where the text's entry is
/// `fuzzy`, has another msgid_plural, lacks a form or fails an enforced check; other template entries stay untranslated. Entries with a
/// translation that the template doesn't have become obsolete units. First come the units of the template, in its order, then the
/// obsolete ones in the text's; none was there before. All revisions are 1. (The states of Weblate's documentation, "Translation
/// states"; the GNU gettext manual, "The Format of PO Files".)
///
/// None exactly where the language would have more than 150,000 units. `Memory` where a growth was refused.
pub fn load(
    alloc: Global,
    template: &Catalogue,
    text: &Catalogue,
    rule: &PluralForms,
    policy: &Policy,
) -> Result<Option<Plan>, Memory>
    ensures { IfOk result (λ plan. plan ≡ spec.load_of template.now text.now rule.now policy.now) }
{
    let template = template.entries();
    let text = text.entries();
    let present = KeyIndex::of(alloc, template)?;
    let given = KeyIndex::of(alloc, text)?;
    let current = load_units(alloc, policy, rule, &given, template)?;
    let count = current.len();
    let all = add_leftovers(alloc, &present, text, current)?;
    let loaded = count_loaded(&given, template);
    let counts = Counts::Loaded {
        loaded: loaded as u64,
        missing: (template.len() - loaded) as u64,
        obsolete: (all.len() - count) as u64,
    };
    Ok(within_limit(all, Items::new(alloc), counts))
}
