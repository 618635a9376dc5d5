//! What tables in maps answer of one domain.

ghost use Rattle.std.specs.Prelude.{◌≡◌, Some, IfOk, option_map};
ghost use Rattle.units.specs.Office.{project_in};
ghost use Rattle.office_specification.specs.UnitAccess.{context_of, without_suggestions, suggestions_at, suggestion_at, written_at};
ghost use Rattle.office_maps.specs.OfficeIn.{office_in};
ghost use Rattle.tables.specs.Handing.{Hands};
ghost use Rattle.tables.specs.Entries.{entries_of};

use crate::faults::EachFault;
use crate::handing::hand_entries;
use crate::sink::EntrySink;
use office_maps::OfficeMaps;
use office_specification::{ActContext, UnitWrite};
use po_text::Items;
use std::alloc::{AllocError, Global};
use units::{Key, Lang, Name, Suggestion, Unit};
use uuid::Uuid;

/// What a unit act needs to know; nothing where the domain or its language isn't there.
pub(crate) fn context_in(
    office: &OfficeMaps,
    domain: &Name,
    lang: &Lang,
    key: &Key,
    name: &Name,
) -> Result<Option<ActContext>, AllocError>
    ensures { IfOk result (λ r. r ≡ context_of (project_in (office_in office.now) domain.now) lang.now key.now name.now) }
{
    match office.project(domain) {
        Some(project) => project.context_of(lang, key, name),
        None => Ok(None),
    }
}

/// The same but for the unit's suggestions: the view has none.
pub(crate) fn bare_context_in(
    alloc: Global,
    office: &OfficeMaps,
    domain: &Name,
    lang: &Lang,
    key: &Key,
    name: &Name,
) -> Result<Option<ActContext>, AllocError>
    ensures { IfOk result (λ r. r ≡ without_suggestions (context_of (project_in (office_in office.now) domain.now) lang.now key.now name.now)) }
{
    match office.project(domain) {
        Some(project) => project.bare_context_of(alloc, lang, key, name),
        None => Ok(None),
    }
}

/// The suggestions on a unit, without the votes on them; none where the unit isn't there.
pub(crate) fn suggestions_in(
    alloc: Global,
    office: &OfficeMaps,
    domain: &Name,
    lang: &Lang,
    key: &Key,
) -> Result<Items<Suggestion>, AllocError>
    ensures { IfOk result (λ r. r ≡ suggestions_at (project_in (office_in office.now) domain.now) lang.now key.now) }
{
    match office.project(domain) {
        Some(project) => project.suggestions_of(alloc, lang, key),
        None => Ok(Items::new(alloc)),
    }
}

/// The suggestion of a number on a unit, with the votes on it; nothing where the unit or the suggestion isn't there.
pub(crate) fn suggestion_in(
    office: &OfficeMaps,
    domain: &Name,
    lang: &Lang,
    key: &Key,
    number: &Uuid,
) -> Result<Option<Suggestion>, AllocError>
    ensures { IfOk result (λ r. r ≡ suggestion_at (project_in (office_in office.now) domain.now) lang.now key.now number.now) }
{
    match office.project(domain) {
        Some(project) => project.suggestion_of(lang, key, number),
        None => Ok(None),
    }
}

/// What a write leaves of a unit; nothing where the unit isn't there.
pub(crate) fn written_in(
    alloc: Global,
    office: &OfficeMaps,
    domain: &Name,
    lang: &Lang,
    key: &Key,
    write: UnitWrite,
) -> Result<Option<Unit>, AllocError>
    ensures { IfOk result (λ r. r ≡ option_map (λ view. view.unit) (written_at (project_in (office_in office.now) domain.now) lang.now key.now (Some write))) }
{
    match office.project(domain) {
        Some(project) => project.written(alloc, lang, key, write),
        None => {
            drop(write);
            Ok(None)
        }
    }
}

/// Hands the entries of a domain's language to a sink; none where the domain or its language isn't there.
pub(crate) fn hand_in<S: EntrySink>(
    alloc: Global,
    office: &OfficeMaps,
    domain: &Name,
    lang: &Lang,
    sink: &mut S,
) -> Result<(), EachFault<S::Refusal>>
    ensures { Hands S.Took S.Refuses sink.old sink.new (entries_of (project_in (office_in office.now) domain.now) lang.now) result }
{
    match office.project(domain) {
        Some(project) => hand_entries(alloc, &project, lang, sink),
        None => Ok(()),
    }
}
