//! Catalogues and units of a row.
use crate::unit_rows::parts::{put_suggestion, unit};
use crate::unit_rows::words::{revision, state};
use crate::words::{has, word};
use po_read::read;
use po_text::{Catalogue, Duplicate, Entry, Items};
use std::alloc::Global;
use units::{Suggestion, Unit, Votes};

/// The catalogue of the lines.
pub(super) fn catalogue(alloc: Global, texts: &str) -> Option<Catalogue> {
    let mut text = texts.replace(alloc, "; ", "\n").ok()?;
    text.push('\n').ok()?;
    read(alloc, text.as_bytes()).ok()
}

fn suggestions(alloc: Global, words: &str, entry: &Entry) -> Option<Items<Suggestion>> {
    let mut suggestions = Items::new(alloc);
    if has(words, "suggested") {
        let forms = entry.forms.duplicate().ok()?;
        put_suggestion(&mut suggestions, forms, Votes::new(alloc))?;
    }
    Some(suggestions)
}

fn unit_of(alloc: Global, words: &str, entry: &Entry) -> Option<Unit> {
    let state = state(word(words, 2))?;
    let revision = revision(word(words, 3))?;
    let suggestions = suggestions(alloc, words, entry)?;
    let entry = entry.duplicate().ok()?;
    Some(unit(alloc, entry, state, revision, suggestions))
}

/// Adds the unit of such words, so many times.
fn push_unit(
    alloc: Global,
    units: &mut Items<Unit>,
    words: &str,
    entry: &Entry,
    count: u32,
) -> Option<()> {
    for _ in 0..count {
        units.push(unit_of(alloc, words, entry)?).ok()?;
    }
    Some(())
}

/// Adds the units of such words, by these entries.
pub(super) fn push_units(
    alloc: Global,
    units: &mut Items<Unit>,
    words: &str,
    entries: &[Entry],
) -> Option<()> {
    let count = word(words, 1).parse::<u32>().ok()?;
    for entry in entries {
        push_unit(alloc, units, words, entry, count)?;
    }
    Some(())
}
