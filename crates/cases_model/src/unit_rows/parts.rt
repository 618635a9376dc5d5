//! Forms, entries, suggestions and units of rows.
ghost use Rattle.std.specs.Prelude.{◌≡◌, IfSome, true};
ghost use Rattle.po_text.specs.Strings.{is_string};

use po_read::read;
use po_text::{Duplicate, Entry, Forms, Items, PoString};
use std::alloc::Global;
use units::{Key, Name, Revision, Suggestion, Unit, UnitState, Votes};
use uuid::Uuid;

fn string(alloc: Global, text: &str) -> Option<PoString>
    ensures { IfSome result (λ s. is_string s ≡ true) }
{
    PoString::try_new(alloc, text).ok().flatten()
}

/// Forms, which stand between the strokes of a text.
pub(crate) fn forms(alloc: Global, texts: &str) -> Option<Forms> {
    let mut strings = Vec::new(alloc);
    for text in texts.split('|') {
        strings.push(string(alloc, text)?).ok()?;
    }
    Forms::try_new(strings)
}

/// The entry of a text, the last if it has several.
pub(crate) fn entry(alloc: Global, text: &str) -> Option<Entry> {
    let catalogue = read(alloc, text.as_bytes()).ok()?;
    match catalogue.entries().last() {
        Some(entry) => entry.duplicate().ok(),
        None => None,
    }
}

/// A suggestion of `ann`, as number 20.
fn suggestion(ann: Name, forms: Forms, votes: Votes) -> Suggestion {
    Suggestion {
        number: Uuid::from_u128(20),
        suggester: ann,
        forms,
        votes,
    }
}

/// Adds a suggestion of `ann`.
pub(crate) fn put_suggestion(
    suggestions: &mut Items<Suggestion>,
    forms: Forms,
    votes: Votes,
) -> Option<()> {
    match Name::try_new("ann") {
        Some(ann) => suggestions.push(suggestion(ann, forms, votes)).ok(),
        None => {
            drop(forms);
            drop(votes);
            None
        }
    }
}

/// The entry's unit. Nothing fails here: each way out past a unit half made is dear to prove.
pub(crate) fn unit(
    alloc: Global,
    entry: Entry,
    state: UnitState,
    revision: Revision,
    suggestions: Items<Suggestion>,
) -> Unit {
    Unit {
        key: Key {
            ctx: None,
            id: entry.id,
        },
        plural: entry.plural,
        forms: entry.forms,
        state,
        obsolete: entry.obsolete,
        revision,
        comment: Items::new(alloc),
        previous: entry.previous,
        suggestions,
    }
}
