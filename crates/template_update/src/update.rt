//! What becomes of a unit under a new template.

ghost use Rattle.std.specs.Prelude.{◌≡◌, ◌+◌, ◌==◌, nat_le, IfOk, Some, None, if◌then◌else◌, count_by, map};
ghost use Rattle.std.specs.Option.{option_copied};
ghost use Rattle.units.specs.Limits.{revision_limit};
ghost use Rattle.units.specs.Units.{is_read_only};
ghost use Rattle.template_update.specs.Updates as spec;
ghost use Rattle.template_update.specs.Moves as moves;

use crate::plans::Counts;
use crate::refit::{is_same, refit};
use plural_expr::PluralForms;
use po_text::{Duplicate, Entry, Items, PoString};
use std::alloc::{AllocError, Global};
use units::{Revision, Unit, forms_needed, has_flag};

/// What becomes of a unit.
#[derive(Drop, Clone, Copy, PartialEq)]
pub(crate) enum UnitUpdate {
    /// Its msgid_plural changed, or its flag `read-only` came or went.
    Changed,
    /// It stays as it is.
    Kept,
    /// Its key went, and it becomes obsolete.
    Gone,
    /// It was obsolete, and its key came back.
    Revived,
    /// It was obsolete, and stays as it is.
    Untouched,
}

fn is_read_only(entry: Option<&Entry>) -> bool
    ensures { result ≡ is_read_only (option_copied entry.entry) }
{
    match entry {
        None => false,
        Some(entry) => has_flag(entry.flags.as_slice(), "read-only"),
    }
}

/// Whether msgid_plural differs, or the flag `read-only` comes or goes.
fn is_changed(present: Option<&Entry>, entry: &Entry, unit: &Unit) -> bool
    ensures { result ≡ spec.is_changed (option_copied present.entry) entry.now unit.now }
{
    !is_same(entry.plural.as_ref(), unit.plural.as_ref())
        || is_read_only(present) != has_flag(entry.flags.as_slice(), "read-only")
}

/// What becomes of a unit, by its entries in the present template and in the new one.
pub(crate) fn update_by(present: Option<&Entry>, next: Option<&Entry>, unit: &Unit) -> UnitUpdate
    ensures { result ≡ spec.update_by (option_copied present.entry) (option_copied next.entry) unit.now }
{
    match next {
        None => if unit.obsolete {
            UnitUpdate::Untouched
        } else {
            UnitUpdate::Gone
        },
        Some(entry) => if unit.obsolete {
            UnitUpdate::Revived
        } else if is_changed(present, entry, unit) {
            UnitUpdate::Changed
        } else {
            UnitUpdate::Kept
        },
    }
}

/// Without suggestions, if the needed number of forms changes.
fn still_suggested(alloc: Global, rule: &PluralForms, plural: Option<&PoString>, unit: Unit) -> Unit
    ensures { result ≡ spec.still_suggested rule.now (option_copied plural.entry) unit }
{
    let mut unit = unit;
    if forms_needed(rule, plural) != forms_needed(rule, unit.plural.as_ref()) {
        unit.suggestions = Items::new(alloc);
    }
    unit
}

fn put_away(alloc: Global, unit: Unit) -> Unit
    ensures { result ≡ spec.put_away unit }
{
    let mut unit = unit;
    unit.obsolete = true;
    unit.suggestions = Items::new(alloc);
    unit
}

fn taken_back(unit: Unit) -> Unit
    ensures { result ≡ spec.taken_back unit }
{
    let mut unit = unit;
    unit.obsolete = false;
    unit
}

/// The revision of a unit afterwards, if there is one.
fn revision_after(update: UnitUpdate, revision: Revision) -> Option<Revision>
    ensures { let number = moves.revision_by update revision in result ≡ (if nat_le number revision_limit then Some number else None) }
{
    let number = revision.number();
    match update {
        UnitUpdate::Kept | UnitUpdate::Untouched => Revision::try_new(number),
        UnitUpdate::Changed | UnitUpdate::Gone | UnitUpdate::Revived => {
            Revision::try_new(number + 1)
        }
    }
}

/// The unit afterwards but for its revision, by the new template's msgid_plural.
fn moved_by(
    alloc: Global,
    rule: &PluralForms,
    update: UnitUpdate,
    plural: Option<&PoString>,
    unit: Unit,
) -> Result<Unit, AllocError>
    ensures { IfOk result (λ new. new ≡ moves.moved_by rule.now update (option_copied plural.entry) unit) }
{
    match update {
        UnitUpdate::Changed => {
            let unit = still_suggested(alloc, rule, plural, unit);
            refit(alloc, rule, plural, unit)
        }
        UnitUpdate::Gone => Ok(put_away(alloc, unit)),
        UnitUpdate::Revived => refit(alloc, rule, plural, taken_back(unit)),
        UnitUpdate::Kept | UnitUpdate::Untouched => Ok(unit),
    }
}

fn plural_of<'a>(entry: Option<&'a Entry>) -> Option<&'a PoString>
    ensures { option_copied result ≡ spec.plural_of (option_copied entry.entry) }
{
    match entry {
        None => None,
        Some(entry) => entry.plural.as_ref(),
    }
}

/// What becomes of a unit and the unit afterwards, by its entries in the present template and in the new one. None where its revision
/// would pass the limit.
pub(crate) fn updated_unit(
    alloc: Global,
    rule: &PluralForms,
    present: Option<&Entry>,
    next: Option<&Entry>,
    unit: &Unit,
) -> Result<Option<(UnitUpdate, Unit)>, AllocError>
    ensures { IfOk result (λ done. done ≡ moves.updated_within rule.now (option_copied present.entry) (option_copied next.entry) unit.now) }
{
    let update = update_by(present, next, unit);
    let Some(revision) = revision_after(update, unit.revision) else {
        return Ok(None);
    };
    let mut unit = moved_by(alloc, rule, update, plural_of(next), unit.duplicate()?)?;
    unit.revision = revision;
    Ok(Some((update, unit)))
}

/// Whether a unit stays as it was.
fn stays_by(update: UnitUpdate) -> bool
    ensures { result ≡ spec.stays_by update }
{
    match update {
        UnitUpdate::Kept | UnitUpdate::Untouched => true,
        UnitUpdate::Changed | UnitUpdate::Gone | UnitUpdate::Revived => false,
    }
}

/// Of each unit, by what becomes of it, whether it stays as it was.
pub(crate) fn stays_of(alloc: Global, updates: &[UnitUpdate]) -> Result<Items<bool>, AllocError>
    ensures { IfOk result (λ stays. stays ≡ map spec.stays_by updates.now) }
{
    let mut stays = Items::new(alloc);
    for update in updates {
        stays.push(stays_by(*update))?;
    }
    Ok(stays)
}

fn is_update(a: UnitUpdate, b: UnitUpdate) -> bool
    ensures { result ≡ spec.is_update a b }
{
    a == b
}

fn count(update: UnitUpdate, updates: &[UnitUpdate]) -> u64
    ensures { result ≡ count_by (spec.is_update update) updates.now }
{
    updates
        .iter()
        .filter(|other| is_update(update, **other))
        .count() as u64
}

/// The reply's numbers.
pub(crate) fn counts_of(added: usize, updates: &[UnitUpdate]) -> Counts
    ensures { result ≡ spec.counts_of added updates.now }
{
    Counts::Updated {
        added: added as u64,
        changed: count(UnitUpdate::Changed, updates),
        kept: count(UnitUpdate::Kept, updates),
        obsolete: count(UnitUpdate::Gone, updates),
        revived: count(UnitUpdate::Revived, updates),
    }
}
