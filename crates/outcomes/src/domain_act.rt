//! What a new domain comes to, and what an act in a domain comes to for the office.

ghost use Rattle.std.specs.Prelude.{◌≡◌, IfOk, true};
ghost use Rattle.std.specs.FinMap as maps;
ghost use Rattle.units.specs.Project.{Project};
ghost use Rattle.units.specs.Office.{Office, project_in, with_project};
ghost use Rattle.replies.specs.Bodies.{Stepped};
ghost use Rattle.office_specification.specs.OfficeActs.{domain_step};
ghost use Rattle.office_specification.specs.Parts.{ShareTeam};
ghost use Rattle.outcomes.specs.Settled.{IsSettled, IsSettledIn};
ghost use Rattle.office_maps.specs.OfficeIn.{office_in};

use crate::bodies::domain_added;
use crate::outcome::{DomainOutcome, OfficeOutcome};
use office_maps::OfficeMaps;
use office_specification::Change;
use po_text::Duplicate;
use std::alloc::Global;
use units::{DOMAIN_LIMIT, Memory, Name, Refusal};

/// What a new domain comes to, in each office that has domains of the names that the maps have.
pub(crate) fn domain_outcome(
    alloc: Global,
    office: &OfficeMaps,
    domain: &Name,
) -> Result<OfficeOutcome, Memory>
    ensures { IfOk result (λ outcome. (whole : Office) → ShareTeam (office_in office.now) whole →
        IsSettled whole outcome (domain_step whole domain.now)) }
{
    if office.has_domain(domain) {
        return OfficeOutcome::refused(alloc, Refusal::DomainExists);
    }
    if office.domain_count() >= DOMAIN_LIMIT {
        return OfficeOutcome::refused(alloc, Refusal::PastLimit);
    }
    let own = domain.duplicate()?;
    match domain_added(alloc, domain) {
        Ok(reply) => Ok(OfficeOutcome {
            change: Some(Change::NewDomain(own)),
            reply,
        }),
        Err(refused) => {
            drop(own);
            Err(Memory::from(refused))
        }
    }
}

/// What an act in a domain comes to, as a change of the office.
pub(crate) fn in_domain(domain: &Name, outcome: DomainOutcome) -> Result<OfficeOutcome, Memory>
    ensures { IfOk result (λ whole. (office : Office) (stepped : Stepped Project) → maps.contains_key office.domains domain.now ≡ true →
        IsSettledIn (project_in office domain.now) outcome stepped → IsSettled office whole (with_project office domain.now stepped.0, stepped.1)) }
{
    let DomainOutcome { change, reply } = outcome;
    match change {
        None => Ok(OfficeOutcome {
            change: None,
            reply,
        }),
        Some(change) => match domain.duplicate() {
            Ok(own) => Ok(OfficeOutcome {
                change: Some(Change::InDomain(own, change)),
                reply,
            }),
            Err(refused) => {
                drop(change);
                drop(reply);
                Err(Memory::from(refused))
            }
        },
    }
}
