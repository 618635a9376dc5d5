//! What a new template comes to.

ghost use Rattle.std.specs.Prelude.{◌≡◌, Some, IfOk, map};
ghost use Rattle.std.specs.Option.{option_map_or};
ghost use Rattle.po_text.specs.Valid.{IsValid};
ghost use Rattle.units.specs.Project.{Project};
ghost use Rattle.units.specs.declared.unit.Refusal.TheVariants.{PastLimit};
ghost use Rattle.template_update.specs.Templates.{template_of};
ghost use Rattle.replies.specs.Bodies.{refuse, reply as reply_of, template_fields};
ghost use Rattle.office_specification.specs.ProjectActs as spec;
ghost use Rattle.office_specification.specs.Tally.{counts_in};
ghost use Rattle.outcomes.specs.Settled.{IsSettledIn};
ghost use Rattle.office_maps.specs.OfficeIn.{lent_project};

use crate::bodies::template_set;
use crate::catalogue_text::read_text;
use crate::outcome::DomainOutcome;
use crate::tallies::tallies_of;
use office_maps::{ProjectMaps, Template};
use office_specification::{DomainChange, Tally};
use po_text::{Catalogue, Text};
use request_book::Reply;
use std::alloc::{AllocError, Global};
use template_update::{Plan, plans_keep_units, template_of};
use units::{Lang, Memory, Refusal};

/// What tells of a template that comes: each language's tally under it, and the reply.
#[derive(Drop)]
struct Following {
    tallies: Vec<(Lang, Tally)>,
    reply: Reply,
}

fn following_of(
    alloc: Global,
    next: &Template,
    plans: &[(Lang, Plan)],
) -> Result<Following, AllocError>
    ensures tallies { IfOk result (λ following. following.tallies.items ≡ map (λ p. (p.0, counts_in next.now.catalogue p.1.units)) plans.now) }
    ensures reply { IfOk result (λ following. following.reply ≡ reply_of 200 (template_fields (map (λ p. (p.0, p.1.counts)) plans.now))) }
{
    Ok(Following {
        tallies: tallies_of(alloc, next, plans)?,
        reply: template_set(alloc, plans)?,
    })
}

/// The template becomes this one, and each language follows it as it was planned.
fn with_plans(
    alloc: Global,
    next: Template,
    plans: Vec<(Lang, Plan)>,
) -> Result<DomainOutcome, Memory>
    requires valid { IsValid next.catalogue }
    ensures { IfOk result (λ outcome. (project : Project) → spec.plans project next.catalogue ≡ Some plans.items →
        IsSettledIn project outcome (spec.updated project next.catalogue plans.items)) }
{
    plans_keep_units();
    match following_of(alloc, &next, plans.as_slice()) {
        Ok(following) => {
            let Following { tallies, reply } = following;
            Ok(DomainOutcome {
                change: Some(DomainChange::NewTemplate(next.into_catalogue(), plans, tallies)),
                reply,
            })
        }
        Err(refused) => {
            drop(next);
            drop(plans);
            Err(Memory::from(refused))
        }
    }
}

/// The template becomes that of a catalogue, and each language follows it.
fn follow_template(
    alloc: Global,
    project: &ProjectMaps<'_>,
    text: &Catalogue,
) -> Result<DomainOutcome, Memory>
    requires valid { IsValid text.now }
    ensures { IfOk result (λ outcome. IsSettledIn (lent_project project.now) outcome
        (option_map_or (spec.updated (lent_project project.now) (template_of text.now)) (spec.plans (lent_project project.now) (template_of text.now)) (refuse (lent_project project.now) PastLimit))) }
{
    let next = Template::of(alloc, template_of(alloc, text)?)?;
    match project.plans(alloc, &next.catalogue) {
        Ok(found) => match found {
            Some(plans) => with_plans(alloc, next, plans),
            None => {
                drop(next);
                DomainOutcome::refused(alloc, Refusal::PastLimit)
            }
        },
        Err(refused) => {
            drop(next);
            Err(refused)
        }
    }
}

/// What a new template comes to.
pub(crate) fn template_outcome(
    alloc: Global,
    project: &ProjectMaps<'_>,
    po: &Text,
) -> Result<DomainOutcome, Memory>
    ensures { IfOk result
        (λ outcome. IsSettledIn (lent_project project.now) outcome (spec.template_step (lent_project project.now) po.now)) }
{
    match read_text(alloc, po)? {
        Ok(text) => follow_template(alloc, project, &text),
        Err(fault) => DomainOutcome::refused_text(alloc, fault),
    }
}
