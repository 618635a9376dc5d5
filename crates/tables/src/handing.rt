//! A language's entries, handed to a sink one after another.

ghost use Rattle.std.specs.Prelude.{◌≡◌, [], ◌∷◌, not, ◌&&◌, map, None, IfOk};
ghost use Rattle.units.specs.Units as spec;
ghost use Rattle.units.specs.Project.{units_of};
ghost use Rattle.office_maps.specs.OfficeIn.{lent_project};
ghost use Rattle.po_text.specs.declared.entry.Entry.{Entry as EntryValue};
ghost use Rattle.office_specification.specs.EntryTexts.{with_its_unit};
ghost use Rattle.tables.specs.Entries.{entries_of};
ghost use Rattle.tables.specs.Handing.{Hands, obsolete_entries};

use crate::entries::{obsolete_entry, translated};
use crate::faults::{EachFault, Lost};
use crate::sink::EntrySink;
use office_maps::{Place, ProjectMaps, key_of};
use po_text::{Duplicate, Entry};
use std::alloc::{AllocError, Global};
use units::{Lang, Unit, all_empty};

/// Hands an entry to a sink.
fn hand<S: EntrySink>(sink: &mut S, entry: &Entry) -> Result<(), EachFault<S::Refusal>>
    ensures { Hands S.Took S.Refuses sink.old sink.new (entry.now ∷ []) result }
{
    match sink.take(entry) {
        Ok(()) => Ok(()),
        Err(refusal) => Err(EachFault::NoSink(refusal)),
    }
}

/// An entry of the template with its unit; as it is where there is no unit.
fn with_its_unit(
    alloc: Global,
    project: &ProjectMaps<'_>,
    lang: &Lang,
    entry: &Entry,
) -> Result<Entry, AllocError>
    ensures { IfOk result (λ made. made ≡ with_its_unit (lent_project project.now) lang.now entry.now) }
{
    let place = Place {
        lang: lang.duplicate()?,
        key: key_of(entry)?,
    };
    match project.domain.units.get(&place) {
        Some(unit) => translated(alloc, entry, unit),
        None => entry.duplicate(),
    }
}

/// Hands on an entry that was made, or says that there was no room for it.
fn hand_made<S: EntrySink>(
    sink: &mut S,
    made: Result<Entry, AllocError>,
) -> Result<(), EachFault<S::Refusal>>
    ensures { (entry : EntryValue) → IfOk made (λ own. own ≡ entry) → Hands S.Took S.Refuses sink.old sink.new (entry ∷ []) result }
{
    match made {
        Ok(entry) => {
            let result = hand(sink, &entry);
            drop(entry);
            result
        }
        Err(_) => Err(EachFault::NoTables(Lost::Memory)),
    }
}

/// Hands on entries of the template in order, each with its unit.
fn hand_template<S: EntrySink>(
    alloc: Global,
    project: &ProjectMaps<'_>,
    lang: &Lang,
    entries: &[Entry],
    sink: &mut S,
) -> Result<(), EachFault<S::Refusal>>
    ensures { Hands S.Took S.Refuses sink.old sink.new (map (with_its_unit (lent_project project.now) lang.now) entries.now) result }
{
    for entry in entries {
        hand_made(sink, with_its_unit(alloc, project, lang, entry))?;
    }
    Ok(())
}

/// Whether a unit is obsolete and has a nonempty form.
fn is_exported(unit: &Unit) -> bool
    ensures { result ≡ (unit.now.obsolete && not (spec.all_empty unit.now.forms)) }
{
    unit.obsolete && !all_empty(unit.forms.as_slice())
}

/// Hands on the entry of a unit, if it is obsolete and has a nonempty form.
fn hand_unit<S: EntrySink>(
    alloc: Global,
    unit: &Unit,
    sink: &mut S,
) -> Result<(), EachFault<S::Refusal>>
    ensures { Hands S.Took S.Refuses sink.old sink.new (obsolete_entries (unit.now ∷ [])) result }
{
    if is_exported(unit) {
        hand_made(sink, obsolete_entry(alloc, unit))
    } else {
        Ok(())
    }
}

/// Hands on the entries of a language's obsolete units with a nonempty form, in the order of their keys, from the first place of the
/// language on. Memory is asked for where there is one more entry, and not behind the last.
fn hand_obsolete<S: EntrySink>(
    alloc: Global,
    project: &ProjectMaps<'_>,
    lang: &Lang,
    first: Place,
    sink: &mut S,
) -> Result<(), EachFault<S::Refusal>>
    requires lang { first.lang ≡ lang.now }
    requires key { first.key.key ≡ record { ctx = None; id = [] } }
    ensures { Hands S.Took S.Refuses sink.old sink.new (obsolete_entries (units_of (lent_project project.now) lang.now)) result }
{
    for (place, unit) in project.domain.units.range(first..) {
        if *lang != place.lang {
            break;
        }
        hand_unit(alloc, unit, sink)?;
    }
    Ok(())
}

/// Hands the entries of a language to a sink: its header, the template's entries, each with its unit, and the obsolete units with a
/// nonempty form. None where the language isn't there. A fault leaves the sink with a beginning of them; of the tables it tells want of memory
/// alone.
pub fn hand_entries<S: EntrySink>(
    alloc: Global,
    project: &ProjectMaps<'_>,
    lang: &Lang,
    sink: &mut S,
) -> Result<(), EachFault<S::Refusal>>
    ensures { Hands S.Took S.Refuses sink.old sink.new (entries_of (lent_project project.now) lang.now) result }
{
    let Some(language) = project.domain.languages.get(lang) else {
        return Ok(());
    };
    // Where the obsolete units begin is found first: behind the last entry no memory is wanted.
    let Ok(first) = Place::first_of(alloc, lang) else {
        return Err(EachFault::NoTables(Lost::Memory));
    };
    hand(sink, &language.header)?;
    hand_template(
        alloc,
        project,
        lang,
        project.domain.template.catalogue.entries(),
        sink,
    )?;
    hand_obsolete(alloc, project, lang, first, sink)
}
