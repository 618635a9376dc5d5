//! What the checks make of a text and of the last entry.
use crate::catalogue_rows::stage::Stage;
use crate::catalogue_rows::texts::plain;
use crate::words::policy;
use checks::{Findings, Source, brace_names, directives, findings, result_state};
use po_text::Entry;
use std::alloc::{AllocError, Global};

const BRACKETS: [&str; 2] = ["[", "]"];

const BRACES: [&str; 2] = ["{", "}"];

fn tell_barred(told: &mut String, parts: &[String]) -> Result<(), AllocError> {
    for part in parts {
        write!(told, "{part}|")?;
    }
    Ok(())
}

/// Tells each directive of a text, with a bar behind it.
pub(crate) fn tell_directives(alloc: Global, told: &mut String, text: &str) -> Option<()> {
    let text = plain(alloc, text)?;
    match directives(alloc, text.as_str()) {
        Ok(found) => tell_barred(told, found.as_slice()).ok(),
        Err(_) => None,
    }
}

/// A text with these two characters in place of those.
fn exchanged(alloc: Global, text: &str, old: [&str; 2], new: [&str; 2]) -> Option<String> {
    let [opening, closing] = old;
    let [new_opening, new_closing] = new;
    let text = text.replace(alloc, opening, new_opening).ok()?;
    text.as_str().replace(alloc, closing, new_closing).ok()
}

fn tell_brace_names(alloc: Global, told: &mut String, text: &str) -> Option<()> {
    match brace_names(alloc, text) {
        Ok(found) => tell_barred(told, found.as_slice()).ok(),
        Err(_) => None,
    }
}

/// Tells each placeholder in braces of a text, with a bar behind it. Brackets stand for braces, also in what is told.
pub(crate) fn tell_braces(alloc: Global, told: &mut String, text: &str) -> Option<()> {
    let text = plain(alloc, text)?;
    let text = exchanged(alloc, text.as_str(), BRACKETS, BRACES)?;
    let mut barred = String::new(alloc);
    tell_brace_names(alloc, &mut barred, text.as_str())?;
    let barred = exchanged(alloc, barred.as_str(), BRACES, BRACKETS)?;
    told.push_str(barred.as_str()).ok()
}

fn tell_numbers(told: &mut String, numbers: &[u32]) -> Result<(), AllocError> {
    for number in numbers {
        write!(told, " {number}")?;
    }
    Ok(())
}

fn tell_found(told: &mut String, found: &Findings) -> Result<(), AllocError> {
    told.push_str("placeholders")
        .and(tell_numbers(told, found.placeholders.as_slice()))
        .and(told.push_str(", line ends"))
        .and(tell_numbers(told, found.line_ends.as_slice()))
}

fn source(entry: &Entry) -> Source<'_> {
    Source {
        id: &entry.id,
        plural: entry.plural.as_ref(),
        flags: entry.flags.as_slice(),
    }
}

/// Tells the forms whose placeholders, and those whose line ends, are found.
pub(crate) fn tell_findings(alloc: Global, told: &mut String, stage: &Stage) -> Option<()> {
    let (Some(entry), Some(rule)) = (stage.entries.last(), stage.rules.last()) else {
        return None;
    };
    match findings(alloc, &source(entry), entry.forms.as_slice(), rule) {
        Ok(found) => tell_found(told, &found).ok(),
        Err(_) => None,
    }
}

/// Tells the state that the forms give under these checks.
pub(crate) fn tell_state(
    alloc: Global,
    told: &mut String,
    stage: &Stage,
    checks: &str,
) -> Option<()> {
    let (Some(entry), Some(rule)) = (stage.entries.last(), stage.rules.last()) else {
        return None;
    };
    let policy = policy(checks, "0")?;
    match result_state(alloc, &policy, rule, &source(entry), entry.forms.as_slice()) {
        Ok(state) => write!(told, "{state:?}").ok(),
        Err(_) => None,
    }
}
