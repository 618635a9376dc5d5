//! What a plan and a template tell.
use crate::unit_rows::words::tell_forms;
use po_text::{Entry, Text};
use std::alloc::AllocError;
use template_update::{Counts, Plan};
use units::Unit;

/// Tells the reply's numbers, and the first unit.
pub(super) fn tell_plan(told: &mut String, plan: Option<&Plan>) -> Result<(), AllocError> {
    let Some(plan) = plan else {
        return told.push_str("past a limit");
    };
    let done = tell_counts(told, plan.counts);
    match plan.units.as_slice().first() {
        Some(unit) => done.and(tell_unit(told, unit)),
        None => done,
    }
}

fn tell_counts(told: &mut String, counts: Counts) -> Result<(), AllocError> {
    match counts {
        Counts::Updated {
            added,
            changed,
            kept,
            obsolete,
            revived,
        } => write!(
            told,
            "{added} added, {changed} changed, {kept} kept, {obsolete} obsolete, {revived} revived"
        ),
        Counts::Loaded {
            loaded,
            missing,
            obsolete,
        } => write!(
            told,
            "{loaded} loaded, {missing} missing, {obsolete} obsolete"
        ),
    }
}

fn tell_unit(told: &mut String, unit: &Unit) -> Result<(), AllocError> {
    let obsolete = if unit.obsolete { " obsolete" } else { "" };
    write!(
        told,
        ": {:?} {}{obsolete}",
        unit.state,
        unit.revision.number()
    )?;
    let suggestions = unit.suggestions.as_slice().len();
    if suggestions > 0 {
        write!(told, " suggestions {suggestions}")?;
    }
    if let Some(id) = &unit.previous.id {
        write!(told, " was {}", id.as_str())?;
    }
    tell_forms(told, unit.forms.as_slice())
}

fn tell_texts(told: &mut String, mark: &str, texts: &[Text]) -> Result<(), AllocError> {
    for text in texts {
        write!(told, "{mark}{} ", text.as_str())?;
    }
    Ok(())
}

fn tell_entry(told: &mut String, entry: &Entry) -> Result<(), AllocError> {
    let keeps_previous = entry.previous.id.is_some();
    let previous = if keeps_previous { "with previous " } else { "" };
    tell_texts(told, "#", entry.translator.as_slice())
        .and(tell_texts(told, "#.", entry.extracted.as_slice()))
        .and(tell_texts(told, "#,", entry.flags.as_slice()))
        .and(told.push_str(previous))
        .and(told.push_str(entry.id.as_str()))
        .and(tell_forms(told, entry.forms.as_slice()))
}

/// Tells how many entries there are, and of each its comments and flags, its msgid and its forms.
pub(super) fn tell_entries(told: &mut String, entries: &[Entry]) -> Result<(), AllocError> {
    write!(told, "{}: ", entries.len())?;
    for entry in entries {
        tell_entry(told, entry)?;
    }
    Ok(())
}
