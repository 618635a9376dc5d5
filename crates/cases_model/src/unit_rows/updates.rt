//! Templates, and a language's units under them.
mod language;
mod told;

use crate::unit_rows::stage::Stage;
use crate::unit_rows::words::TWO;
use crate::words::policy;
use language::{catalogue, push_units};
use plural_expr::PluralForms;
use po_text::{Catalogue, Items};
use std::alloc::Global;
use template_update::{Plan, load, plan, template_of};
use told::{tell_entries, tell_plan};

/// Sets the template.
pub(crate) fn put_template(alloc: Global, stage: &mut Stage, texts: &str) -> Option<()> {
    stage.put_template(catalogue(alloc, texts)?);
    Some(())
}

/// Sets the units. (They are added in their place, since each way out past them is dear to prove.)
pub(crate) fn put_units(alloc: Global, stage: &mut Stage, words: &str, texts: &str) -> Option<()> {
    let text = catalogue(alloc, texts)?;
    stage.put_units(Items::new(alloc));
    let put = push_units(alloc, &mut stage.units, words, text.entries());
    drop(text);
    put
}

/// Tells the numbers and the first unit of what the next template makes of the units.
pub(crate) fn tell_planned(
    alloc: Global,
    told: &mut String,
    stage: &mut Stage,
    texts: &str,
) -> Option<()> {
    let next = catalogue(alloc, texts)?;
    let plan = planned(alloc, stage, &next);
    stage.put_template(next);
    take(told, stage, plan?)
}

/// Tells the same of the units of a language's text.
pub(crate) fn tell_loaded(
    alloc: Global,
    told: &mut String,
    stage: &mut Stage,
    words: &str,
    texts: &str,
) -> Option<()> {
    let text = catalogue(alloc, texts)?;
    let plan = loaded(alloc, stage, words, &text);
    drop(text);
    take(told, stage, plan?)
}

/// Tells what the template of a text has.
pub(crate) fn tell_stripped(alloc: Global, told: &mut String, texts: &str) -> Option<()> {
    let text = catalogue(alloc, texts)?;
    let template = template_of(alloc, &text);
    drop(text);
    tell_entries(told, template.ok()?.entries()).ok()
}

/// Tells what a plan has, whose units are those of the rows below.
fn take(told: &mut String, stage: &mut Stage, plan: Option<Plan>) -> Option<()> {
    let done = tell_plan(told, plan.as_ref());
    stage.take_plan(plan);
    done.ok()
}

/// What the next template makes of the units. The inner None where that passes a limit.
fn planned(alloc: Global, stage: &Stage, next: &Catalogue) -> Option<Option<Plan>> {
    let rule = PluralForms::parse(alloc, TWO).ok()?;
    plan(alloc, &stage.template, stage.units.as_slice(), next, &rule).ok()
}

/// The units of a language's text, under a policy that has no mark but perhaps `placeholders`.
fn loaded(alloc: Global, stage: &Stage, words: &str, text: &Catalogue) -> Option<Option<Plan>> {
    let policy = policy(words, "0")?;
    let rule = PluralForms::parse(alloc, TWO).ok()?;
    load(alloc, &stage.template, text, &rule, &policy).ok()
}
