//! Plural rules.
use crate::catalogue_rows::stage::Stage;
use crate::catalogue_rows::texts::plain;
use plural_expr::{PluralFault, PluralForms};
use std::alloc::Global;

fn tell_number(told: &mut String, fault: PluralFault) -> Option<()> {
    let number = fault.number();
    match fault.at() {
        Some(n) => write!(told, "fault {number} at {n}").ok(),
        None => write!(told, "fault {number}").ok(),
    }
}

fn push(told: &mut String, stage: &mut Stage, rule: PluralForms) -> Option<()> {
    let count = rule.count();
    stage.rules.push(rule).ok()?;
    write!(told, "{count}").ok()
}

/// Tells how many forms a rule has, which then is that of the rows below, or its fault.
pub(crate) fn put(alloc: Global, told: &mut String, stage: &mut Stage, text: &str) -> Option<()> {
    let text = plain(alloc, text)?;
    match PluralForms::parse(alloc, text.as_str()) {
        Ok(rule) => push(told, stage, rule),
        Err(fault) => tell_number(told, fault),
    }
}

/// Tells the fault of a rule in words.
pub(crate) fn tell_fault(alloc: Global, told: &mut String, text: &str) -> Option<()> {
    let fault = PluralForms::parse(alloc, text).err()?;
    write!(told, "{fault}").ok()
}

/// Tells the form at n, or the fault there.
pub(crate) fn tell_index(told: &mut String, stage: &Stage, n: &str) -> Option<()> {
    let (Some(rule), Ok(n)) = (stage.rules.last(), n.parse::<u32>()) else {
        return None;
    };
    match rule.index(n) {
        Ok(form) => write!(told, "{form}").ok(),
        Err(fault) => write!(told, "fault {}", fault.number()).ok(),
    }
}

/// Tells whether a form serves one number.
pub(crate) fn tell_serves(told: &mut String, stage: &Stage, form: &str) -> Option<()> {
    match (stage.rules.last(), form.parse::<u32>()) {
        (Some(rule), Ok(form)) => write!(told, "{}", rule.serves_one(form)).ok(),
        _ => None,
    }
}

/// Puts a copy of the rule in its place.
pub(crate) fn put_copy(alloc: Global, told: &mut String, stage: &mut Stage) -> Option<()> {
    let copy = stage.rules.last()?.duplicate().ok()?;
    stage.rules = Vec::new(alloc);
    push(told, stage, copy)
}
