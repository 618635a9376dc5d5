//! What a new template makes of one language's units.

ghost use Rattle.std.specs.Prelude.{◌≡◌, ◌≤◌, ◌++◌, List, length, map, nat_le, IfOk, Some, None, if◌then◌else◌};
ghost use Rattle.po_text.specs.declared.entry.Entry.{Entry as EntryValue};
ghost use Rattle.units.specs.declared.unit.Unit.{Unit as UnitValue};
ghost use Rattle.units.specs.Limits.{unit_limit};
ghost use Rattle.units.specs.Units.{key_of};
ghost use Rattle.units.specs.Project.{entry_of};
ghost use Rattle.template_update.specs.Units.{new_unit};
ghost use Rattle.template_update.specs.Updates.{added, plan_of};
ghost use Rattle.template_update.specs.Moves.{updated_within};
ghost use Rattle.template_update.specs.PlannedUnits.{AreUpdated, HaveUpdates};
ghost use Rattle.template_update.specs.KeyIndexes.{IsIndexOf};

use crate::index::KeyIndex;
use crate::plans::{Counts, Plan};
use crate::refit::new_unit;
use crate::update::{UnitUpdate, counts_of, stays_of, updated_unit};
use crate::updates::UpdatedUnits;
use plural_expr::PluralForms;
use po_text::{Catalogue, Entry, Items};
use std::alloc::{AllocError, Global};
use units::{Keyed, Memory, UNIT_LIMIT, Unit};

/// What becomes of a unit and the unit afterwards, by the entries of its key.
fn update_one<'a>(
    alloc: Global,
    rule: &PluralForms,
    present: &KeyIndex<'a, Entry>,
    next: &KeyIndex<'a, Entry>,
    unit: &'a Unit,
) -> Result<Option<(UnitUpdate, Unit)>, AllocError>
    ensures { IfOk result (λ done. (was will : List EntryValue) → IsIndexOf key_of was present.now.found → IsIndexOf key_of will next.now.found →
        done ≡ updated_within rule.now (entry_of was unit.now.key) (entry_of will unit.now.key) unit.now) }
{
    let key = unit.key();
    updated_unit(alloc, rule, present.first(&key), next.first(&key), unit)
}

/// The units afterwards, and what becomes of each. None where a revision would pass its limit.
fn update_units<'a>(
    alloc: Global,
    rule: &PluralForms,
    present: &KeyIndex<'a, Entry>,
    next: &KeyIndex<'a, Entry>,
    units: &'a [Unit],
) -> Result<Option<UpdatedUnits>, AllocError>
    ensures { IfOk result (λ done. (was will : List EntryValue) → IsIndexOf key_of was present.now.found → IsIndexOf key_of will next.now.found →
        HaveUpdates was will rule.now units.now done) }
{
    let mut done = UpdatedUnits {
        units: Vec::new(alloc),
        updates: Vec::new(alloc),
    };
    for unit in units {
        match update_one(alloc, rule, present, next, unit)? {
            None => return Ok(None),
            Some((update, after)) => done.push(update, after)?,
        }
    }
    Ok(Some(done))
}

/// Adds units for the entries whose keys are new to the language.
fn add_new<'a>(
    alloc: Global,
    rule: &PluralForms,
    known: &KeyIndex<'a, Unit>,
    next: &'a [Entry],
    all: Vec<Unit>,
) -> Result<Vec<Unit>, AllocError>
    ensures units { IfOk result (λ more. (units : List UnitValue) → IsIndexOf (λ unit. unit.key) units known.now.found →
        more.items ≡ all.items ++ map (new_unit rule.now) (added units next.now)) }
    ensures len { IfOk result (λ more. length all.items ≤ length more.items) }
{
    let mut all = all;
    for entry in next {
        if !known.contains(&entry.key()) {
            all.push(new_unit(alloc, rule, entry)?)?;
        }
    }
    Ok(all)
}

/// The plan of these units, if they aren't too many.
pub(crate) fn within_limit(units: Vec<Unit>, stays: Items<bool>, counts: Counts) -> Option<Plan>
    ensures { result ≡ (if nat_le (length units.items) unit_limit then Some (record { units = units.items; stays = stays; counts = counts }) else None) }
{
    if units.len() <= UNIT_LIMIT {
        Some(Plan {
            units: Items::from_vec(units),
            stays,
            counts,
        })
    } else {
        None
    }
}

/// The units afterwards, by the entries of the present template and of the new one. None where a revision would pass its limit.
fn updated_units<'a>(
    alloc: Global,
    present: &'a [Entry],
    units: &'a [Unit],
    next: &'a [Entry],
    rule: &PluralForms,
) -> Result<Option<UpdatedUnits>, AllocError>
    ensures { IfOk result (λ done. HaveUpdates present.now next.now rule.now units.now done) }
{
    let before = KeyIndex::of(alloc, present)?;
    let after = KeyIndex::of(alloc, next)?;
    update_units(alloc, rule, &before, &after, units)
}

/// The plan of these updated units and of those for the entries whose keys are new to the language.
fn with_new<'a>(
    alloc: Global,
    rule: &PluralForms,
    units: &'a [Unit],
    next: &'a [Entry],
    done: UpdatedUnits,
) -> Result<Option<Plan>, AllocError>
    ensures { IfOk result (λ plan. (present : List EntryValue) → AreUpdated present next.now rule.now units.now done.units.items done.updates.items →
        plan ≡ plan_of present units.now next.now rule.now) }
{
    let known = KeyIndex::of(alloc, units)?;
    let UpdatedUnits {
        units: before,
        updates,
    } = done;
    let stays = stays_of(alloc, &updates)?;
    let count = before.len();
    let all = add_new(alloc, rule, &known, next, before)?;
    let counts = counts_of(all.len() - count, &updates);
    Ok(within_limit(all, stays, counts))
}

/// What a new template makes of one language's units: of the present template, all units of the language, the new template and the
/// language's plural rule. A unit whose key goes becomes obsolete, and is taken back when the key returns; a unit whose msgid_plural
/// changes keeps its forms where they can be kept, and then needs editing. First come the units that were there, in their order, then
/// those of new keys in the template's; of each that was there the plan says whether it stays as it was. (The states of Weblate's
/// documentation, "Translation states"; the GNU gettext manual, "The Format of PO Files".)
///
/// None exactly where the language would have more than 150,000 units, or a unit would pass revision 9,000,000,000,000,000. `Memory`
/// where a growth was refused.
pub fn plan(
    alloc: Global,
    present: &Catalogue,
    units: &[Unit],
    next: &Catalogue,
    rule: &PluralForms,
) -> Result<Option<Plan>, Memory>
    ensures { IfOk result (λ plan. plan ≡ plan_of present.now units.now next.now rule.now) }
{
    let next = next.entries();
    match updated_units(alloc, present.entries(), units, next, rule)? {
        None => Ok(None),
        Some(done) => Ok(with_new(alloc, rule, units, next, done)?),
    }
}
