//! What an act on the office comes to: who may ask for it, and then which act it is.

ghost use Rattle.std.specs.Prelude.{◌≡◌, IfOk, false};
ghost use Rattle.units.specs.Project.{role_in};
ghost use Rattle.units.specs.Office.{Office};
ghost use Rattle.units.specs.Units.{is_below};
ghost use Rattle.units.specs.declared.unit.Role.TheVariants.{Manager};
ghost use Rattle.request_book.specs.Clash.{is_unit_act};
ghost use Rattle.office_specification.specs.ProjectActs.{template_step, language_step};
ghost use Rattle.office_specification.specs.Step.{step, in_known_domain};
ghost use Rattle.office_specification.specs.Parts.{part_of, AreAlikeIn, is_policy_act};
ghost use Rattle.office_specification.specs.declared.parts.Part.TheVariants as parts;
ghost use Rattle.outcomes.specs.Settled.{IsSettled};
ghost use Rattle.office_maps.specs.OfficeIn.{office_in};

use crate::domain_act::{domain_outcome, in_domain};
use crate::language_act::language_outcome;
use crate::outcome::OfficeOutcome;
use crate::role_act::role_outcome;
use crate::template_act::template_outcome;
use office_maps::OfficeMaps;
use po_text::Text;
use request_book::{Act, Request};
use std::alloc::Global;
use units::{Lang, Memory, Name, Refusal, Role};

/// Whether a caller has fewer rights than a manager.
fn is_below_manager(office: &OfficeMaps, caller: &Name) -> bool
    ensures { result ≡ is_below (role_in (office_in office.now).team caller.now) Manager }
{
    office.role_of(caller).is_below(Role::Manager)
}

/// What a template of a domain comes to, in each office that has this domain.
fn template_in(
    alloc: Global,
    office: &OfficeMaps,
    domain: &Name,
    po: &Text,
) -> Result<OfficeOutcome, Memory>
    ensures { IfOk result (λ outcome. (whole : Office) → AreAlikeIn (parts.Domain domain.now) (office_in office.now) whole →
        IsSettled whole outcome (in_known_domain whole domain.now (λ project. template_step project po.now))) }
{
    match office.project(domain) {
        None => OfficeOutcome::refused(alloc, Refusal::NoDomain),
        Some(project) => match template_outcome(alloc, &project, po) {
            Ok(outcome) => in_domain(domain, outcome),
            Err(refused) => Err(refused),
        },
    }
}

/// What a language of a domain comes to, in each office that has the template and the languages of this domain.
fn language_in(
    alloc: Global,
    office: &OfficeMaps,
    domain: &Name,
    lang: &Lang,
    po: &Text,
) -> Result<OfficeOutcome, Memory>
    ensures { IfOk result (λ outcome. (whole : Office) → AreAlikeIn (parts.Languages domain.now) (office_in office.now) whole →
        IsSettled whole outcome (in_known_domain whole domain.now (λ project. language_step project lang.now po.now))) }
{
    match office.project(domain) {
        None => OfficeOutcome::refused(alloc, Refusal::NoDomain),
        Some(project) => match language_outcome(alloc, &project, lang, po) {
            Ok(outcome) => in_domain(domain, outcome),
            Err(refused) => Err(refused),
        },
    }
}

/// What a request for an act on the office comes to, other than a policy: a refusal where the caller isn't a manager, and else what the act
/// comes to. The maps need be those of its part alone: it comes to that in each office that is alike to them in what the act reads.
///
/// `Memory` where a growth was refused.
pub fn office_outcome(
    alloc: Global,
    office: &OfficeMaps,
    request: &Request,
) -> Result<OfficeOutcome, Memory>
    requires act { is_unit_act request.now.act ≡ false }
    requires no_policy { is_policy_act request.now.act ≡ false }
    ensures { IfOk result (λ outcome. (whole : Office) → AreAlikeIn (part_of request.now.act) (office_in office.now) whole →
        IsSettled whole outcome (step whole request.now)) }
{
    if is_below_manager(office, &request.caller) {
        return OfficeOutcome::refused(alloc, Refusal::BelowRole);
    }
    match &request.act {
        Act::SetTemplate(domain, po) => template_in(alloc, office, domain, po),
        Act::AddLanguage(domain, lang, po) => language_in(alloc, office, domain, lang, po),
        Act::SetRole(name, role) => role_outcome(alloc, office, name, *role),
        Act::AddDomain(domain) => domain_outcome(alloc, office, domain),
        Act::SetPolicy(_) | Act::OnUnit(_, _, _, _) => unreachable!(),
    }
}
