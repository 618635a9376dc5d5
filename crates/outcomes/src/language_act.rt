//! What a language with its text comes to.

ghost use Rattle.std.specs.Prelude.{◌≡◌, Ok, Some, IfOk, false, map};
ghost use Rattle.std.specs.List.{IsDistinct};
ghost use Rattle.std.specs.FinMap as maps;
ghost use Rattle.po_text.specs.Valid.{IsValid};
ghost use Rattle.units.specs.Project.{Project, place_eq};
ghost use Rattle.units.specs.Projects.{IsProject};
ghost use Rattle.units.specs.Rules.{rule_in};
ghost use Rattle.replies.specs.Bodies.{count_fields, reply as reply_of};
ghost use Rattle.office_specification.specs.Parts.{ShareLanguages};
ghost use Rattle.office_specification.specs.ProjectActs as spec;
ghost use Rattle.office_specification.specs.Tally.{counts_in};
ghost use Rattle.outcomes.specs.Settled.{IsSettledIn};
ghost use Rattle.office_maps.specs.OfficeIn.{lent_project};

use crate::bodies::language_added;
use crate::catalogue_text::{header_of, read_text, rule_of};
use crate::outcome::DomainOutcome;
use crate::tallies::tally_of;
use office_maps::{ProjectMaps, Template};
use office_specification::{DomainChange, Language, Tally};
use plural_expr::PluralForms;
use po_text::{Catalogue, Duplicate, Entry, Text};
use request_book::Reply;
use std::alloc::{AllocError, Global};
use template_update::{Plan, load, loads_count_the_template};
use units::{LANGUAGE_LIMIT, Lang, Memory, Refusal};

/// What tells of a language that comes: copies of its code and its header, the tally of its units, and the reply.
#[derive(Drop)]
struct Coming {
    lang: Lang,
    header: Entry,
    tally: Tally,
    reply: Reply,
}

fn coming_of(
    alloc: Global,
    template: &Template,
    lang: &Lang,
    header: &Entry,
    plan: &Plan,
) -> Result<Coming, AllocError>
    ensures lang { IfOk result (λ coming. coming.lang ≡ lang.now) }
    ensures header { IfOk result (λ coming. coming.header ≡ header.now) }
    ensures tally { IfOk result (λ coming. coming.tally ≡ counts_in template.now.catalogue plan.now.units) }
    ensures reply { IfOk result (λ coming. coming.reply ≡ reply_of 200 (count_fields plan.now.counts)) }
{
    Ok(Coming {
        lang: lang.duplicate()?,
        tally: tally_of(template, plan.units.as_slice())?,
        reply: language_added(alloc, plan.counts)?,
        header: header.duplicate()?,
    })
}

/// A language comes with its header, its rule and its units, under the template that is there.
fn with_plan(
    alloc: Global,
    template: &Template,
    lang: &Lang,
    header: &Entry,
    rule: PluralForms,
    plan: Plan,
) -> Result<DomainOutcome, Memory>
    requires { rule_in (Some header.now) ≡ Ok rule }
    ensures { IfOk result (λ outcome. (project : Project) → project.template ≡ template.now.catalogue → maps.contains_key project.headers lang.now ≡ false →
        (IsProject project → IsDistinct place_eq (map (λ e. e.0) (spec.placed (lang.now, plan)))) →
        IsSettledIn project outcome (spec.loaded project lang.now header.now plan)) }
{
    match coming_of(alloc, template, lang, header, &plan) {
        Ok(coming) => {
            let Coming {
                lang,
                header,
                tally,
                reply,
            } = coming;
            let language = Language { header, rule };
            Ok(DomainOutcome {
                change: Some(DomainChange::NewLanguage(lang, language, plan, tally)),
                reply,
            })
        }
        Err(refused) => {
            drop(rule);
            drop(plan);
            Err(Memory::from(refused))
        }
    }
}

/// A language comes with its header, its rule and the units of its text.
fn load_language(
    alloc: Global,
    project: &ProjectMaps<'_>,
    lang: &Lang,
    text: &Catalogue,
    header: &Entry,
    rule: PluralForms,
) -> Result<DomainOutcome, Memory>
    requires rule { rule_in (Some header.now) ≡ Ok rule }
    requires new { maps.contains_key (lent_project project.now).headers lang.now ≡ false }
    requires valid { IsValid text.now }
    ensures { IfOk result (λ outcome. (whole : Project) → ShareLanguages (lent_project project.now) whole →
        IsSettledIn whole outcome (spec.with_rule whole lang.now text.now header.now rule)) }
{
    loads_count_the_template();
    if project.language_count() >= LANGUAGE_LIMIT {
        drop(rule);
        return DomainOutcome::refused(alloc, Refusal::PastLimit);
    }
    match load(
        alloc,
        &project.domain.template.catalogue,
        text,
        &rule,
        &project.policy,
    ) {
        Ok(loaded) => match loaded {
            Some(plan) => with_plan(alloc, &project.domain.template, lang, header, rule, plan),
            None => {
                drop(rule);
                DomainOutcome::refused(alloc, Refusal::PastLimit)
            }
        },
        Err(refused) => {
            drop(rule);
            Err(refused)
        }
    }
}

/// A language comes with a text that spells a catalogue.
fn add_language(
    alloc: Global,
    project: &ProjectMaps<'_>,
    lang: &Lang,
    text: &Catalogue,
) -> Result<DomainOutcome, Memory>
    requires new { maps.contains_key (lent_project project.now).headers lang.now ≡ false }
    requires valid { IsValid text.now }
    ensures { IfOk result (λ outcome. (whole : Project) → ShareLanguages (lent_project project.now) whole →
        IsSettledIn whole outcome (spec.of_entries whole lang.now text.now)) }
{
    let header = header_of(text.entries());
    match rule_of(alloc, header)? {
        Err(fault) => DomainOutcome::refused_rule(alloc, fault),
        Ok(rule) => match header {
            None => {
                drop(rule);
                DomainOutcome::refused_rule(alloc, None)
            }
            Some(header) => load_language(alloc, project, lang, text, header, rule),
        },
    }
}

/// Whether a language is there.
fn has_language(project: &ProjectMaps<'_>, lang: &Lang) -> bool
    ensures { result ≡ maps.contains_key (lent_project project.now).headers lang.now }
{
    project.domain.languages.get(lang).is_some()
}

/// What a language comes to, in each project that is the one of the maps but for its units.
pub(crate) fn language_outcome(
    alloc: Global,
    project: &ProjectMaps<'_>,
    lang: &Lang,
    po: &Text,
) -> Result<DomainOutcome, Memory>
    ensures { IfOk result (λ outcome. (whole : Project) → ShareLanguages (lent_project project.now) whole →
        IsSettledIn whole outcome (spec.language_step whole lang.now po.now)) }
{
    if has_language(project, lang) {
        return DomainOutcome::refused(alloc, Refusal::LanguageExists);
    }
    match read_text(alloc, po)? {
        Ok(text) => add_language(alloc, project, lang, &text),
        Err(fault) => DomainOutcome::refused_text(alloc, fault),
    }
}
