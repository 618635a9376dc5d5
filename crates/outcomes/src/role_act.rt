//! What a role for a name comes to.

ghost use Rattle.std.specs.Prelude.{◌≡◌, ◌&&◌, not, IfOk, string_bytes};
ghost use Rattle.std.specs.List.{list_any};
ghost use Rattle.std.specs.FinMap as maps;
ghost use Rattle.po_text.specs.Texts.{text_eq};
ghost use Rattle.units.specs.Changes.{set_role};
ghost use Rattle.office_specification.specs.OfficeActs as spec;
ghost use Rattle.office_specification.specs.OfficeActs.{is_manager};
ghost use Rattle.office_specification.specs.Parts.{ShareTeam};
ghost use Rattle.units.specs.Office.{Office};
ghost use Rattle.outcomes.specs.Settled.{IsSettled};
ghost use Rattle.office_maps.specs.OfficeIn.{office_in};

use crate::bodies::role_set;
use crate::outcome::OfficeOutcome;
use office_maps::OfficeMaps;
use office_specification::Change;
use po_text::Duplicate;
use std::alloc::Global;
use units::{Memory, Name, Refusal, Role, TEAM_LIMIT};

fn is_manager(role: Role) -> bool
    ensures { result ≡ is_manager role }
{
    !role.is_below(Role::Manager)
}

/// Whether another name than this one is a manager's.
fn is_another_manager(name: &Name, other: &String, role: Role) -> bool
    ensures { result ≡ (not (text_eq (string_bytes other.now) name.now) && is_manager role) }
{
    other.as_str() != name.as_str() && is_manager(role)
}

/// How many names the team would have where a name had this role.
fn team_size_with(office: &OfficeMaps, name: &Name, role: Role) -> usize
    ensures { result ≡ maps.len (set_role name.now role (office_in office.now).team) }
{
    let count = office.team.len();
    let there = office.team.contains_key(name.as_str());
    match role {
        Role::Guest => if there {
            count.saturating_sub(1)
        } else {
            count
        },
        _ => if there { count } else { count + 1 },
    }
}

/// Whether there would be a manager where a name had this role.
fn has_manager_with(office: &OfficeMaps, name: &Name, role: Role) -> bool
    ensures { result ≡ list_any is_manager (maps.values (set_role name.now role (office_in office.now).team)) }
{
    is_manager(role)
        || office
            .team
            .iter()
            .any(|(other, own)| is_another_manager(name, other, *own))
}

/// What a role comes to, in each office that has the team of the maps.
pub(crate) fn role_outcome(
    alloc: Global,
    office: &OfficeMaps,
    name: &Name,
    role: Role,
) -> Result<OfficeOutcome, Memory>
    ensures { IfOk result (λ outcome. (whole : Office) → ShareTeam (office_in office.now) whole →
        IsSettled whole outcome (spec.team_step whole name.now role)) }
{
    if team_size_with(office, name, role) > TEAM_LIMIT {
        return OfficeOutcome::refused(alloc, Refusal::PastLimit);
    }
    if !has_manager_with(office, name, role) {
        return OfficeOutcome::refused(alloc, Refusal::LastManager);
    }
    let own = name.duplicate()?;
    match role_set(alloc, name, role) {
        Ok(reply) => Ok(OfficeOutcome {
            change: Some(Change::OneRole(own, role)),
            reply,
        }),
        Err(refused) => {
            drop(own);
            Err(Memory::from(refused))
        }
    }
}
