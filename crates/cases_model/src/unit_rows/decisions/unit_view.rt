//! The unit of a row.
use crate::unit_rows::parts::{entry, forms, put_suggestion, unit};
use crate::unit_rows::words::{revision, state};
use crate::words::{has, word};
use po_text::{Entry, Items};
use std::alloc::Global;
use units::{Name, Suggestion, Unit, UnitView, VoteValue, Votes};

/// The template's entries.
const HELLO: &str = "#, c-format\nmsgid \"Hello\"\nmsgstr \"\"\n";

const READ_ONLY: &str = "#, read-only\nmsgid \"Hello\"\nmsgstr \"\"\n";

const FILES: &str = "#, c-format\nmsgid \"%d file\"\nmsgid_plural \"%d files\"\nmsgstr[0] \"\"\n";

/// The entry of the unit with a plural, whose msgid was another before.
const WAS_A_FILE: &str =
    "#| msgid \"a file\"\nmsgid \"%d file\"\nmsgid_plural \"%d files\"\nmsgstr[0] \"\"\n";

fn source_text(words: &str) -> &'static str {
    if has(words, "plural") {
        FILES
    } else if has(words, "read-only") {
        READ_ONLY
    } else {
        HELLO
    }
}

fn unit_text(words: &str) -> &'static str {
    if has(words, "plural") {
        WAS_A_FILE
    } else {
        HELLO
    }
}

/// The voter of this number, as `v10000`.
fn voter(alloc: Global, number: u16) -> Option<Name> {
    let name = format!(in alloc; "v{number}").ok()?;
    Name::try_new(name.as_str())
}

/// Adds 10,000 votes against a suggestion, of the voters `v10000` to `v19999`.
fn put_crowd(alloc: Global, votes: &mut Votes) -> Option<()> {
    for i in 0..10_000u16 {
        let voter = voter(alloc, 19_999 - i)?;
        votes.insert(voter, VoteValue::Against).ok()?;
    }
    Some(())
}

/// Adds the suggestion `Servus`.
fn put_servus(alloc: Global, suggestions: &mut Items<Suggestion>, votes: Votes) -> Option<()> {
    let forms = forms(alloc, "Servus")?;
    put_suggestion(suggestions, forms, votes)
}

fn put_suggestions(alloc: Global, suggestions: &mut Items<Suggestion>, words: &str) -> Option<()> {
    if has(words, "suggested") {
        put_servus(alloc, suggestions, Votes::new(alloc))?;
    }
    if has(words, "crowded") {
        let mut votes = Votes::new(alloc);
        put_crowd(alloc, &mut votes)?;
        put_servus(alloc, suggestions, votes)?;
    }
    Some(())
}

fn suggestions(alloc: Global, words: &str) -> Option<Items<Suggestion>> {
    let mut suggestions = Items::new(alloc);
    put_suggestions(alloc, &mut suggestions, words)?;
    Some(suggestions)
}

/// The entry of such words' unit, with these forms.
fn own_entry(alloc: Global, words: &str, texts: &str) -> Option<Entry> {
    let forms = forms(alloc, texts)?;
    let mut entry = entry(alloc, unit_text(words))?;
    entry.forms = forms;
    entry.obsolete = has(words, "obsolete");
    Some(entry)
}

/// That unit, without the template's entry.
fn own_unit(alloc: Global, words: &str, texts: &str) -> Option<Unit> {
    let state = state(word(words, 1))?;
    let revision = revision(word(words, 2))?;
    let suggestions = suggestions(alloc, words)?;
    match own_entry(alloc, words, texts) {
        Some(own) => Some(unit(alloc, own, state, revision, suggestions)),
        None => {
            drop(suggestions);
            None
        }
    }
}

/// The unit of such words, with these forms.
pub(super) fn unit_view(alloc: Global, words: &str, texts: &str) -> Option<UnitView> {
    let unit = own_unit(alloc, words, texts)?;
    match entry(alloc, source_text(words)) {
        Some(source) => Some(UnitView {
            unit,
            source: Some(source),
        }),
        None => {
            drop(unit);
            None
        }
    }
}
