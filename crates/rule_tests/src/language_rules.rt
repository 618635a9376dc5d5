//! Whether languages keep their rules.

ghost use Rattle.std.specs.Prelude.{◌≡◌, ◌≤◌, ◌↔◌, [], ◌∷◌, Some, IsSome, true, false, length, All, IfOk};
ghost use Rattle.std.specs.FinMap as maps;
ghost use Rattle.po_text.specs.Valid.{IsValid};
ghost use Rattle.units.specs.Limits.{unit_limit};
ghost use Rattle.units.specs.Project.{units_of};
ghost use Rattle.units.specs.Units.{key_of};
ghost use Rattle.office_maps.specs.OfficeIn.{lent_project};
ghost use Rattle.rule_tests.specs.Parts.{IsLanguage, IsHeaded, HasUnit, KeepsLanguage};

use crate::template_rules::is_header;
use crate::unit_rules::hold_all;
use office_maps::{Place, ProjectMaps, key_of};
use office_specification::Language;
use po_text::{Catalogue, Duplicate, Entry, PoString};
use std::alloc::{AllocError, Global};
use units::{Lang, UNIT_LIMIT, Unit};

/// Whether an entry alone is a valid catalogue.
fn is_valid_alone(alloc: Global, entry: &Entry) -> Result<bool, AllocError>
    ensures { IfOk result (λ valid. (valid ≡ true) ↔ IsValid (entry.now ∷ [])) }
{
    let copy = entry.duplicate()?;
    let mut entries = Vec::new(alloc);
    entries.push(copy)?;
    let made = Catalogue::try_new(alloc, entries)?;
    let valid = made.is_some();
    drop(made);
    Ok(valid)
}

/// Whether a language has a valid header.
fn is_language(alloc: Global, language: &Language) -> Result<bool, AllocError>
    ensures { IfOk result (λ is. (is ≡ true) ↔ IsLanguage language.now.header) }
{
    let valid = is_valid_alone(alloc, &language.header)?;
    Ok(hold_all(is_header(&language.header), valid, true))
}

/// Whether a language has a valid header, if it is there.
fn is_headed(alloc: Global, project: &ProjectMaps<'_>, lang: &Lang) -> Result<bool, AllocError>
    ensures { IfOk result (λ is. (is ≡ true) ↔ IsHeaded (lent_project project.now) lang.now) }
{
    match project.domain.languages.get(lang) {
        Some(language) => is_language(alloc, language),
        None => Ok(true),
    }
}

/// Whether those of these languages that are there have valid headers.
pub(crate) fn are_headed(
    alloc: Global,
    project: &ProjectMaps<'_>,
    langs: &[Lang],
) -> Result<bool, AllocError>
    ensures { IfOk result (λ are. (are ≡ true) ↔ All (IsHeaded (lent_project project.now)) langs.now) }
{
    for lang in langs {
        if !is_headed(alloc, project, lang)? {
            return Ok(false);
        }
    }
    Ok(true)
}

pub(crate) fn is_same(a: &Option<PoString>, b: &Option<PoString>) -> bool
    ensures { (result ≡ true) ↔ (a.now ≡ b.now) }
{
    match (a, b) {
        (None, None) => true,
        (Some(x), Some(y)) => x.as_str() == y.as_str(),
        (_, _) => false,
    }
}

/// The place of an entry's unit.
fn place_of(lang: &Lang, entry: &Entry) -> Result<Place, AllocError>
    ensures lang { IfOk result (λ place. place.lang ≡ lang.now) }
    ensures key { IfOk result (λ place. place.key.key ≡ key_of entry.now) }
{
    let key = key_of(entry)?;
    let place = Place::of(lang, &key.key);
    drop(key);
    place
}

/// Whether a unit is current and has the msgid_plural of an entry.
fn fits(unit: &Unit, entry: &Entry) -> bool
    ensures { (result ≡ true) ↔ (unit.now.obsolete ≡ false) × (unit.now.plural ≡ entry.now.plural) }
{
    !unit.obsolete && is_same(&unit.plural, &entry.plural)
}

/// Whether at the place of an entry's unit there is one that fits.
fn has_fitting(project: &ProjectMaps<'_>, place: &Place, entry: &Entry) -> bool
    requires { place.now.key.key ≡ key_of entry.now }
    ensures { (result ≡ true) ↔ HasUnit (lent_project project.now) place.now.lang entry.now }
{
    match project.domain.units.get(place) {
        Some(unit) => fits(unit, entry),
        None => false,
    }
}

/// Whether a language has the unit of an entry.
fn has_unit(project: &ProjectMaps<'_>, lang: &Lang, entry: &Entry) -> Result<bool, AllocError>
    ensures { IfOk result (λ has. (has ≡ true) ↔ HasUnit (lent_project project.now) lang.now entry.now) }
{
    let place = place_of(lang, entry)?;
    let has = has_fitting(project, &place, entry);
    drop(place);
    Ok(has)
}

/// Whether a language has the units of all these entries.
fn has_each_unit(
    project: &ProjectMaps<'_>,
    lang: &Lang,
    entries: &[Entry],
) -> Result<bool, AllocError>
    ensures { IfOk result (λ has. (has ≡ true) ↔ All (HasUnit (lent_project project.now) lang.now) entries.now) }
{
    for entry in entries {
        if !has_unit(project, lang, entry)? {
            return Ok(false);
        }
    }
    Ok(true)
}

/// Whether a language has no more units than it may have.
fn has_few_units(alloc: Global, project: &ProjectMaps<'_>, lang: &Lang) -> Result<bool, AllocError>
    ensures { IfOk result (λ few. (few ≡ true) ↔ (length (units_of (lent_project project.now) lang.now) ≤ unit_limit)) }
{
    let first = Place::first_of(alloc, lang)?;
    let mut count: usize = 0;
    for (place, _unit) in project.domain.units.range(first..) {
        if *lang != place.lang {
            return Ok(true);
        }
        if count == UNIT_LIMIT {
            return Ok(false);
        }
        count += 1;
    }
    Ok(true)
}

/// Whether a language keeps the rules, apart from those of each unit.
fn keeps_language(
    alloc: Global,
    project: &ProjectMaps<'_>,
    lang: &Lang,
    language: &Language,
) -> Result<bool, AllocError>
    requires { maps.get (lent_project project.now).headers lang.now ≡ Some language.now.header }
    ensures { IfOk result (λ keeps. (keeps ≡ true) ↔ KeepsLanguage (lent_project project.now) lang.now) }
{
    let headed = is_language(alloc, language)?;
    let few = has_few_units(alloc, project, lang)?;
    let entries = project.domain.template.catalogue.entries();
    let whole = has_each_unit(project, lang, entries)?;
    Ok(hold_all(headed, few, whole))
}

/// Whether a language keeps the rules, if it is there.
fn keeps_if_there(alloc: Global, project: &ProjectMaps<'_>, lang: &Lang) -> Result<bool, AllocError>
    ensures { IfOk result (λ keeps. (keeps ≡ true) ↔ (IsSome (maps.get (lent_project project.now).headers lang.now) → KeepsLanguage (lent_project project.now) lang.now)) }
{
    match project.domain.languages.get(lang) {
        Some(language) => keeps_language(alloc, project, lang, language),
        None => Ok(true),
    }
}

/// Whether those of these languages that are there keep the rules.
pub(crate) fn keep_languages(
    alloc: Global,
    project: &ProjectMaps<'_>,
    langs: &[Lang],
) -> Result<bool, AllocError>
    ensures { IfOk result
        (λ keep. (keep ≡ true) ↔ All (λ lang. IsSome (maps.get (lent_project project.now).headers lang) → KeepsLanguage (lent_project project.now) lang) langs.now) }
{
    for lang in langs {
        if !keeps_if_there(alloc, project, lang)? {
            return Ok(false);
        }
    }
    Ok(true)
}
