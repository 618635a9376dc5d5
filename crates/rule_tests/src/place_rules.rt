//! Whether units keep their rules at their places.

ghost use Rattle.std.specs.Prelude.{◌≡◌, ◌↔◌, ◌&&◌, ◌||◌, true, false, not, is_some};
ghost use Rattle.std.specs.Ordering.{eq_by_cmp};
ghost use Rattle.units.specs.Project.{entry_of};
ghost use Rattle.units.specs.Units.{is_approved, key_cmp};
ghost use Rattle.office_maps.specs.OfficeIn.{lent_project, place_of};
ghost use Rattle.rule_tests.specs.Bare.{FitsEntry};
ghost use Rattle.rule_tests.specs.Parts.{StandsRight, IsPlaced, ArePlaced};

use crate::language_rules::is_same;
use crate::unit_rules::{hold_all, is_unit};
use office_maps::{Place, ProjectMaps};
use office_specification::Language;
use po_text::Entry;
use units::{Keyed, Unit, UnitState};

/// Whether a unit has the key of its place.
fn has_its_key(place: &Place, unit: &Unit) -> bool
    ensures { result ≡ eq_by_cmp key_cmp unit.now.key place.now.key.key }
{
    unit.key() == place.key.key.key()
}

/// Whether a unit is obsolete, or the template has an entry of its place's key.
fn is_exact(project: &ProjectMaps<'_>, place: &Place, unit: &Unit) -> bool
    ensures { result ≡ (unit.now.obsolete || is_some (entry_of (lent_project project.now).template place.now.key.key)) }
{
    unit.obsolete || project.domain.template.entry_of(&place.key).is_some()
}

/// Whether a unit isn't approved, or there are reviews.
fn is_reviewed(project: &ProjectMaps<'_>, unit: &Unit) -> bool
    ensures { result ≡ ((lent_project project.now).policy.reviews || not (is_approved unit.now.state)) }
{
    project.policy.reviews || unit.state != UnitState::Approved
}

/// Whether a unit may stand at its place, whatever its language asks for.
fn stands_right(project: &ProjectMaps<'_>, place: &Place, unit: &Unit) -> bool
    ensures { (result ≡ true) ↔ StandsRight (lent_project project.now) (place_of place.now) unit.now }
{
    let keyed = has_its_key(place, unit);
    hold_all(
        keyed,
        is_exact(project, place, unit),
        is_reviewed(project, unit),
    )
}

/// Whether a unit is obsolete, or has an entry's msgid_plural.
fn has_plural_of(unit: &Unit, entry: &Entry) -> bool
    ensures { (result ≡ true) ↔ (unit.now.obsolete ≡ false → unit.now.plural ≡ entry.now.plural) }
{
    unit.obsolete || is_same(&unit.plural, &entry.plural)
}

/// Whether a unit is obsolete, or the template has an entry of its place's key, with the unit's msgid_plural.
pub fn fits_entry(project: &ProjectMaps<'_>, place: &Place, unit: &Unit) -> bool
    ensures { (result ≡ true) ↔ FitsEntry (lent_project project.now).template place.now.key.key unit.now }
{
    match project.domain.template.entry_of(&place.key) {
        Some(entry) => has_plural_of(unit, entry),
        None => unit.obsolete,
    }
}

/// Whether a unit keeps the rules at its place.
pub fn is_placed(project: &ProjectMaps<'_>, place: &Place, unit: &Unit) -> bool
    ensures { (result ≡ true) ↔ IsPlaced (lent_project project.now) (place_of place.now) unit.now }
{
    match project.domain.languages.get(&place.lang) {
        Some(language) => hold_all(
            stands_right(project, place, unit),
            is_unit(&language.rule, unit),
            true,
        ),
        None => false,
    }
}

/// Whether all units keep the rules at their places.
pub(crate) fn are_placed(project: &ProjectMaps<'_>) -> bool
    ensures { (result ≡ true) ↔ ArePlaced (lent_project project.now) }
{
    for (place, unit) in project.domain.units.iter() {
        if !is_placed(project, place, unit) {
            return false;
        }
    }
    true
}
