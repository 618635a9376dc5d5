//! Whether a project keeps the rules of one.

ghost use Rattle.std.specs.Prelude.{◌≡◌, ◌↔◌, true, not, IfOk};
ghost use Rattle.std.specs.List.{list_any, list_all};
ghost use Rattle.std.specs.FinMap as maps;
ghost use Rattle.units.specs.Units.{is_below};
ghost use Rattle.units.specs.Projects.{IsProject};
ghost use Rattle.units.specs.declared.unit.Role.TheVariants.{Guest, Manager};
ghost use Rattle.office_maps.specs.OfficeIn.{lent_project};
ghost use Rattle.office_maps.specs.Rows.{team_in};
ghost use Rattle.rule_tests.specs.Given.{AreAll};
ghost use Rattle.rule_tests.specs.Parts.{IsTeam, IsFrame, IsBareProject};

use crate::language_rules::{are_headed, keep_languages};
use crate::place_rules::are_placed;
use crate::template_rules::are_template_entries;
use crate::unit_rules::hold_all;
use office_maps::ProjectMaps;
use std::alloc::{AllocError, Global};
use std::collections::BTreeMap;
use units::{LANGUAGE_LIMIT, Lang, Role, TEAM_LIMIT};

/// Whether somebody in the team is a manager.
fn is_managed(team: &BTreeMap<String, Role>) -> bool
    ensures { result ≡ list_any (λ role. not (is_below role Manager)) (maps.values (team_in team.now)) }
{
    team.values().any(|role| !role.is_below(Role::Manager))
}

/// Whether nobody in the team is a guest.
fn has_no_guest(team: &BTreeMap<String, Role>) -> bool
    ensures { result ≡ list_all (is_below Guest) (maps.values (team_in team.now)) }
{
    team.values().all(|role| Role::Guest.is_below(*role))
}

/// Whether a team keeps the rules of one.
fn is_team(team: &BTreeMap<String, Role>) -> bool
    ensures { (result ≡ true) ↔ IsTeam (team_in team.now) }
{
    let managed = is_managed(team);
    hold_all(managed, has_no_guest(team), team.len() <= TEAM_LIMIT)
}

/// Whether a project keeps the rules apart from those of languages and units.
fn keeps_frame(project: &ProjectMaps<'_>) -> bool
    ensures { (result ≡ true) ↔ IsFrame (lent_project project.now) }
{
    let _ = project.policy.accept_at.number();
    let entries = project.domain.template.catalogue.entries();
    hold_all(
        is_team(project.team),
        are_template_entries(entries),
        project.language_count() <= LANGUAGE_LIMIT,
    )
}

/// Whether a project keeps the rules apart from those of its units. All its languages have to be among `langs`.
///
/// `AllocError` where a growth was refused.
pub fn keeps_bare_rules(
    alloc: Global,
    project: &ProjectMaps<'_>,
    langs: &[Lang],
) -> Result<bool, AllocError>
    requires all { AreAll (lent_project project.now).headers langs.now }
    ensures { IfOk result (λ keeps. (keeps ≡ true) ↔ IsBareProject (lent_project project.now)) }
{
    if !keeps_frame(project) {
        return Ok(false);
    }
    are_headed(alloc, project, langs)
}

/// Whether a project keeps the rules of one. All its languages have to be among `langs`.
///
/// `AllocError` where a growth was refused.
pub(crate) fn keeps_project_rules(
    alloc: Global,
    project: &ProjectMaps<'_>,
    langs: &[Lang],
) -> Result<bool, AllocError>
    requires all { AreAll (lent_project project.now).headers langs.now }
    ensures { IfOk result (λ holds. (holds ≡ true) ↔ IsProject (lent_project project.now)) }
{
    if !keeps_frame(project) {
        return Ok(false);
    }
    let languages = keep_languages(alloc, project, langs)?;
    Ok(hold_all(are_placed(project), languages, true))
}
