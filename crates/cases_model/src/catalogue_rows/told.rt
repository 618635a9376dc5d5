//! Entries as items.
use po_text::{Entry, PoString, Text};
use std::alloc::AllocError;

fn tell_item(told: &mut String, name: &str, value: &str) -> Result<(), AllocError> {
    write!(told, "{name}={value}\n")
}

fn tell_texts(told: &mut String, name: &str, texts: &[Text]) -> Result<(), AllocError> {
    for text in texts {
        tell_item(told, name, text.as_str())?;
    }
    Ok(())
}

fn tell_strings(told: &mut String, name: &str, strings: &[PoString]) -> Result<(), AllocError> {
    for string in strings {
        tell_item(told, name, string.as_str())?;
    }
    Ok(())
}

fn tell_string(told: &mut String, name: &str, string: Option<&PoString>) -> Result<(), AllocError> {
    match string {
        Some(string) => tell_item(told, name, string.as_str()),
        None => Ok(()),
    }
}

fn tell_entry(told: &mut String, entry: &Entry) -> Result<(), AllocError> {
    let obsolete = if entry.obsolete { "obsolete\n" } else { "" };
    tell_texts(told, "#", entry.translator.as_slice())
        .and(tell_texts(told, "#.", entry.extracted.as_slice()))
        .and(tell_texts(told, "#:", entry.references.as_slice()))
        .and(tell_texts(told, "#,", entry.flags.as_slice()))
        .and(tell_string(told, "was msgctxt", entry.previous.ctx.as_ref()))
        .and(tell_string(told, "was msgid", entry.previous.id.as_ref()))
        .and(tell_string(told, "was msgid_plural", entry.previous.plural.as_ref()))
        .and(tell_string(told, "msgctxt", entry.ctx.as_ref()))
        .and(tell_item(told, "msgid", entry.id.as_str()))
        .and(tell_string(told, "msgid_plural", entry.plural.as_ref()))
        .and(tell_strings(told, "msgstr", entry.forms.as_slice()))
        .and(told.push_str(obsolete))
}

/// Tells each entry's items, a line each.
pub(crate) fn tell_entries(told: &mut String, entries: &[Entry]) -> Result<(), AllocError> {
    for entry in entries {
        tell_entry(told, entry)?;
    }
    Ok(())
}
