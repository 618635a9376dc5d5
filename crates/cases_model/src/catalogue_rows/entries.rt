//! The entries of rows.
ghost use Rattle.std.specs.Prelude.{◌≡◌, IfSome, true};
ghost use Rattle.po_text.specs.Strings.{is_string};

use crate::catalogue_rows::stage::Stage;
use crate::catalogue_rows::texts::{around, plain};
use po_read::read;
use po_text::{Catalogue, Duplicate, Entry, Forms, Items, PoString, Previous, Text};
use std::alloc::Global;
use std::mem::replace;

fn string(alloc: Global, text: &str) -> Option<PoString>
    ensures { IfSome result (λ s. is_string s ≡ true) }
{
    PoString::try_new(alloc, plain(alloc, text)?.as_str())
        .ok()
        .flatten()
}

fn forms(alloc: Global, items: &str) -> Option<Forms> {
    let mut strings = Vec::new(alloc);
    for item in items.split("; ") {
        if let Some(text) = item.strip_prefix("msgstr=") {
            strings.push(string(alloc, text)?).ok()?;
        }
    }
    Forms::try_new(strings)
}

/// An entry with these forms, and else without texts. Nothing fails here: each way out past an entry half made is dear to prove.
fn bare(alloc: Global, id: PoString, forms: Forms) -> Entry {
    Entry {
        translator: Items::new(alloc),
        extracted: Items::new(alloc),
        references: Items::new(alloc),
        flags: Items::new(alloc),
        previous: Previous {
            ctx: None,
            id: None,
            plural: None,
        },
        ctx: None,
        id,
        plural: None,
        forms,
        obsolete: false,
    }
}

fn put_text(alloc: Global, texts: &mut Items<Text>, value: &str) -> Option<()> {
    let text = plain(alloc, value)?;
    texts.push(Text::from_string(text)).ok()
}

fn put_string(place: &mut Option<PoString>, string: PoString) -> Option<()> {
    *place = Some(string);
    Some(())
}

/// Adds the string of an item that is no text.
fn put_named(entry: &mut Entry, name: &str, string: PoString) -> Option<()> {
    match name {
        "msgctxt" => put_string(&mut entry.ctx, string),
        "msgid_plural" => put_string(&mut entry.plural, string),
        "was msgctxt" => put_string(&mut entry.previous.ctx, string),
        "was msgid" => put_string(&mut entry.previous.id, string),
        "was msgid_plural" => put_string(&mut entry.previous.plural, string),
        "msgid" => {
            entry.id = string;
            Some(())
        }
        _ => {
            drop(string);
            None
        }
    }
}

/// Adds an item, unless it is a form.
fn put_item(alloc: Global, entry: &mut Entry, item: &str) -> Option<()> {
    let (name, value) = around(item, "=");
    match name {
        "msgstr" => Some(()),
        "obsolete" => {
            entry.obsolete = true;
            Some(())
        }
        "#" => put_text(alloc, &mut entry.translator, value),
        "#." => put_text(alloc, &mut entry.extracted, value),
        "#:" => put_text(alloc, &mut entry.references, value),
        "#," => put_text(alloc, &mut entry.flags, value),
        _ => put_named(entry, name, string(alloc, value)?),
    }
}

fn put_items(alloc: Global, entry: &mut Entry, items: &str) -> Option<()> {
    for item in items.split("; ") {
        put_item(alloc, entry, item)?;
    }
    Some(())
}

/// Adds the entry of these items.
pub(crate) fn put_entry(alloc: Global, stage: &mut Stage, items: &str) -> Option<()> {
    let forms = forms(alloc, items)?;
    let id = string(alloc, "")?;
    stage.entries.push(bare(alloc, id, forms)).ok()?;
    put_items(alloc, stage.entries.last_mut()?, items)
}

fn put_copies(copies: &mut Vec<Entry>, entries: &[Entry]) -> Option<()> {
    for entry in entries {
        copies.push(entry.duplicate().ok()?).ok()?;
    }
    Some(())
}

/// Sets the entries to those of a text.
pub(crate) fn put_entries(alloc: Global, stage: &mut Stage, bytes: &[u8]) -> Option<()> {
    let catalogue = read(alloc, bytes).ok()?;
    stage.entries.clear();
    let put = put_copies(&mut stage.entries, catalogue.entries());
    drop(catalogue);
    put
}

/// Tells how many entries the catalogue of the entries has.
pub(crate) fn tell_made(alloc: Global, told: &mut String, stage: &mut Stage) -> Option<()> {
    let entries = replace(&mut stage.entries, Vec::new(alloc));
    match Catalogue::try_new(alloc, entries) {
        Ok(Some(catalogue)) => {
            let count = catalogue.entries().len();
            drop(catalogue);
            write!(told, "{count}").ok()
        }
        Ok(None) => told.push_str("refused").ok(),
        Err(_) => None,
    }
}
