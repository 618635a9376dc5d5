//! How many units of a language are in each state.

ghost use Rattle.std.specs.Prelude.{◌≡◌, IfOk};
ghost use Rattle.units.specs.Office.{project_in};
ghost use Rattle.units.specs.Offices.{IsOffice};
ghost use Rattle.units.specs.Project.{units_of};
ghost use Rattle.units.specs.Projects.{IsProject};
ghost use Rattle.office_maps.specs.OfficeIn.{lent_project, office_in};
ghost use Rattle.office_specification.specs.Tally.{counts_in, counts_of};

use office_maps::{OfficeMaps, Place, ProjectMaps};
use office_specification::Tally;
use std::alloc::{AllocError, Global};
use units::{Lang, Name};

/// The counts of a language's units.
fn count_units(alloc: Global, project: &ProjectMaps<'_>, lang: &Lang) -> Result<Tally, AllocError>
    ensures { IsProject (lent_project project.now) → IfOk result
        (λ counts. counts ≡ counts_in (lent_project project.now).template (units_of (lent_project project.now) lang.now)) }
{
    let first = Place::first_of(alloc, lang)?;
    let mut tally = Tally::none();
    for (place, unit) in project.domain.units.range(first..) {
        if *lang != place.lang {
            break;
        }
        tally.add(project.domain.template.entry_of(&place.key), unit)?;
    }
    Ok(tally)
}

fn project_counts(
    alloc: Global,
    project: &ProjectMaps<'_>,
    lang: &Lang,
) -> Result<Option<Tally>, AllocError>
    ensures { IsProject (lent_project project.now) → IfOk result (λ counts. counts ≡ counts_of (lent_project project.now) lang.now) }
{
    match project.domain.languages.get(lang) {
        None => Ok(None),
        Some(_) => Ok(Some(count_units(alloc, project, lang)?)),
    }
}

/// How many units of a domain's language callers see in each state, of an office that keeps its rules; nothing where the domain or its
/// language isn't there. It is one walk over the language's units, and copies none.
///
/// `AllocError` where a growth was refused.
pub fn counts_in(
    alloc: Global,
    office: &OfficeMaps,
    domain: &Name,
    lang: &Lang,
) -> Result<Option<Tally>, AllocError>
    ensures { IsOffice (office_in office.now) → IfOk result (λ r. r ≡ counts_of (project_in (office_in office.now) domain.now) lang.now) }
{
    match office.project(domain) {
        Some(project) => project_counts(alloc, &project, lang),
        None => Ok(None),
    }
}
