//! The header of a language, and the entries of a template.
ghost use Rattle.std.specs.Prelude.{◌≡◌, [], Some, IsUtf8, unwrap_or};
ghost use Rattle.sql_columns.specs.Written.{header_text};
ghost use Rattle.units.specs.Rules.{plural_field};
ghost use Rattle.sql_keepable.specs.Keepable.{IsKeepableLanguage, IsKeepableEntry, AreKeepableEntries};

use crate::texts::{
    entry_key_fits, forms_fit, lang_fits, list_fits, optional_fits, previous_fits, strings_fit,
};
use po_text::Entry;
use sql_columns::rule_column;
use units::Lang;

/// The value of a header's field `Plural-Forms`, empty where it has none.
fn rule_text(header: &Entry) -> &str
    ensures { result.now ≡ unwrap_or (plural_field (Some header.now)) [] }
{
    match rule_column(header) {
        Some(rule) => rule,
        None => "",
    }
}

/// The column of a header is UTF-8.
fn header_fits(header: &Entry)
    ensures { IsUtf8 (header_text header.now) }
{
    list_fits(&header.translator);
    list_fits(&header.extracted);
    list_fits(&header.references);
    list_fits(&header.flags);
    previous_fits(&header.previous);
    strings_fit(header.forms.as_slice());
}

/// A language and its header keep their limits, and their texts are UTF-8.
pub fn language_fits(lang: &Lang, header: &Entry)
    ensures { IsKeepableLanguage lang.now header.now }
{
    lang_fits(lang);
    forms_fit(&header.forms);
    previous_fits(&header.previous);
    header_fits(header);
    let _ = rule_text(header).as_bytes();
}

/// An entry keeps its limits, and its texts are UTF-8.
fn entry_fits(entry: &Entry)
    ensures { IsKeepableEntry entry.now }
{
    entry_key_fits(entry);
    optional_fits(&entry.plural);
    list_fits(&entry.extracted);
    list_fits(&entry.references);
    list_fits(&entry.flags);
}

/// So does each of these.
pub fn entries_fit(entries: &[Entry])
    ensures { AreKeepableEntries entries.now }
{
    for entry in entries {
        entry_fits(entry);
    }
}
