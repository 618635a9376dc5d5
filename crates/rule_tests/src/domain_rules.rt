//! Whether an office keeps the rules of one: each of its domains those of a project.

ghost use Rattle.std.specs.Prelude.{◌≡◌, ◌↔◌, true, IfOk};
ghost use Rattle.units.specs.Office.{as_project};
ghost use Rattle.units.specs.Offices.{IsOffice};
ghost use Rattle.office_maps.specs.OfficeIn.{domain_in, office_in, lent_project};
ghost use Rattle.rule_tests.specs.Given.{AreAllLangs};
ghost use Rattle.rule_tests.specs.Parts.{AreProjects};

use crate::project_rules::keeps_project_rules;
use crate::unit_rules::hold_all;
use office_maps::{DomainMaps, OfficeMaps, ProjectMaps};
use std::alloc::{AllocError, Global};
use units::{DOMAIN_LIMIT, Lang, Name};

/// A domain with the team and the policy of its office.
fn project_of<'a>(maps: &'a OfficeMaps, domain: &'a DomainMaps) -> ProjectMaps<'a>
    ensures { lent_project result ≡ as_project (office_in maps.now) (domain_in domain.now) }
{
    ProjectMaps {
        domain,
        team: &maps.team,
        policy: maps.policy,
    }
}

/// Whether each domain keeps the rules of a project. All languages of all domains have to be among `langs`.
fn are_projects(alloc: Global, maps: &OfficeMaps, langs: &[Lang]) -> Result<bool, AllocError>
    requires all { AreAllLangs (office_in maps.now) langs.now }
    ensures { IfOk result (λ are. (are ≡ true) ↔ AreProjects (office_in maps.now)) }
{
    for (_name, domain) in maps.domains.iter() {
        let project = project_of(maps, domain);
        let keeps = keeps_project_rules(alloc, &project, langs)?;
        if !keeps {
            return Ok(false);
        }
    }
    Ok(true)
}

/// Whether an office keeps the rules of one. All languages of all its domains have to be among `langs`.
///
/// `AllocError` where a growth was refused.
pub(crate) fn is_office(
    alloc: Global,
    maps: &OfficeMaps,
    langs: &[Lang],
) -> Result<bool, AllocError>
    requires all { AreAllLangs (office_in maps.now) langs.now }
    ensures { IfOk result (λ is. (is ≡ true) ↔ IsOffice (office_in maps.now)) }
{
    let projects = are_projects(alloc, maps, langs)?;
    let main = maps.has_domain(&Name::main_domain());
    Ok(hold_all(main, maps.domain_count() <= DOMAIN_LIMIT, projects))
}
