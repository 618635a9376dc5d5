//! Texts, strings and lists of them.
ghost use Rattle.std.specs.Prelude.{◌≡◌, ◌<◌, true, All, IfSome, IsUtf8};
ghost use Rattle.po_text.specs.Strings.{is_forms};
ghost use Rattle.sql_columns.specs.Written.{ArePrevious, texts_text, previous_text};
ghost use Rattle.units.specs.KeyTexts.{HasStrings};
ghost use Rattle.units.specs.Units.{key_of, key_text};
ghost use Rattle.sql_keepable.specs.Keepable.{IsNamed, IsLanguage, IsPlural};

use po_text::{Entry, Forms, Items, PoString, Previous, Text};
use request_book::Record;
use units::{Key, Lang, Name};

/// A text is UTF-8.
fn text_fits(text: &Text)
    ensures { IsUtf8 text.now }
{
    let _ = text.as_str().as_bytes();
}

/// So is each of these.
fn texts_fit(texts: &[Text])
    ensures { All IsUtf8 texts.now }
{
    for text in texts {
        text_fits(text);
    }
}

/// The column of a list of texts is UTF-8.
pub(crate) fn list_fits(texts: &Items<Text>)
    ensures { IsUtf8 (texts_text texts.now) }
{
    texts_fit(texts.as_slice());
}

/// A string keeps a string's limits, and is UTF-8.
fn string_fits(string: &PoString)
    ensures { IsPlural string.now }
{
    let _ = string.as_str().as_bytes();
}

/// So does one that is there.
pub(crate) fn optional_fits(string: &Option<PoString>)
    ensures { IfSome string.now IsPlural }
{
    if let Some(string) = string {
        string_fits(string);
    }
}

/// Strings are UTF-8.
pub(crate) fn strings_fit(strings: &[PoString])
    ensures { All IsUtf8 strings.now }
{
    for string in strings {
        string_fits(string);
    }
}

/// Forms keep their limits, and their column is UTF-8.
pub(crate) fn forms_fit(forms: &Forms)
    ensures fits { is_forms forms.now ≡ true }
    ensures column { IsUtf8 (texts_text forms.now) }
{
    strings_fit(forms.as_slice());
}

/// A name keeps a name's limits, and is UTF-8.
pub fn name_fits(name: &Name)
    ensures { IsNamed name.now }
{
    let _ = name.as_str().as_bytes();
}

/// A language's code keeps the limits of one, and is UTF-8.
pub fn lang_fits(lang: &Lang)
    ensures { IsLanguage lang.now }
{
    let _ = lang.as_str().as_bytes();
}

/// A key's strings keep a string's limits, and its column is UTF-8.
pub fn key_fits(key: &Key)
    ensures strings { HasStrings key.now }
    ensures column { IsUtf8 (key_text key.now) }
{
    optional_fits(&key.ctx);
    string_fits(&key.id);
}

/// The strings of an entry's key keep a string's limits, and its column is UTF-8.
pub fn entry_key_fits(entry: &Entry)
    ensures strings { HasStrings (key_of entry.now) }
    ensures column { IsUtf8 (key_text (key_of entry.now)) }
{
    optional_fits(&entry.ctx);
    string_fits(&entry.id);
}

/// Previous strings keep a string's limits, and their column is UTF-8.
pub fn previous_fits(previous: &Previous)
    ensures strings { ArePrevious previous.now }
    ensures column { IsUtf8 (previous_text previous.now) }
{
    optional_fits(&previous.ctx);
    optional_fits(&previous.id);
    optional_fits(&previous.plural);
}

/// A record's texts are UTF-8, and its status has 16 bits.
pub fn record_fits(row: &Record)
    ensures content { IsUtf8 row.now.content }
    ensures status { row.now.reply.status < 65536 }
    ensures body { IsUtf8 row.now.reply.body }
{
    text_fits(&row.content);
    let _ = row.reply.status();
    let _ = row.reply.body().as_bytes();
}
