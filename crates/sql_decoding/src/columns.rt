//! Columns of rows that are shown, as they are read.
ghost use Rattle.std.specs.Prelude.{◌≡◌, ◌<◌, ◌↔◌, ℕ, ℤ, pos, List, Bool, Some, true, IfOk, IfErr, OnOk, length, unwrap_or, string_bytes, option_map};
ghost use Rattle.std.specs.Option.{option_copied};
ghost use Rattle.sqlite.specs.Order.{column};
ghost use Rattle.sqlite.specs.Values.{or_null};
ghost use Rattle.sqlite.specs.declared.types.Value.TheVariants.{Int, Text as Words};
ghost use Rattle.po_text.specs.Strings.{is_string};
ghost use Rattle.units.specs.Limits.{is_name, is_lang};
ghost use Rattle.sql_columns.specs.Readings.{previous_read};
ghost use Rattle.units.specs.Units.{no_previous as nothing_previous};
ghost use Rattle.sql_schema.specs.Keys as keys;
ghost use Rattle.sql_meaning.specs.Meaning as meaning;
ghost use Rattle.sql_meaning.specs.Values as values;
ghost use Rattle.sql_decoding.specs.RowTests.{holds_text, holds_text_or_null, holds_integer, is_key, are_texts, are_previous, is_role, is_domain_row, IsUnread};

use crate::faults::Failure;
use crate::integers::integer_at;
use crate::texts::text_at;
use po_text::{Items, PoString, Previous, Text};
use sql_columns::{name_from, plural_from};
use sqlite::Row;
use sqlite::types::ValueRef;
use std::alloc::Global;
use units::{Key, Lang, Name, Role, no_previous};

/// Whether a column is this text.
pub fn is_text(row: &Row, at: usize, text: &str) -> bool
    ensures { (result ≡ true) ↔ (column row.now at ≡ Words text.now) }
{
    match row.get_ref(at) {
        Ok(ValueRef::Text(bytes)) => bytes == text.as_bytes(),
        _ => false,
    }
}

/// Whether a column that the row has is this text, or null where there is none.
pub fn is_text_or_null<'a>(row: &Row, at: usize, text: Option<&'a str>) -> bool
    ensures { (result ≡ true) ↔ (at < length row.now × (column row.now at ≡ or_null Words (option_copied text.entry))) }
{
    match text {
        Some(text) => is_text(row, at, text),
        None => match row.get_ref(at) {
            Ok(ValueRef::Null) => true,
            _ => false,
        },
    }
}

/// The natural number in a column, if it holds one.
pub fn natural_in(row: &Row, at: usize) -> Option<usize>
    ensures { (number : ℕ) → (result ≡ Some number) ↔ (column row.now at ≡ Int (pos number)) }
{
    match row.get_ref(at) {
        Ok(ValueRef::Int(number)) => if number >= 0 {
            Some(number as usize)
        } else {
            None
        },
        _ => None,
    }
}

/// The text in a column.
pub fn text_in(row: &Row, at: usize) -> Result<String, Failure>
    ensures shown { IfOk result (λ text. column row.now at ≡ Words (string_bytes text)) }
    ensures unread { IfErr result (λ failure. (passes : List ℕ → Bool) → IsUnread (holds_text passes at row.now) failure) }
{
    match row.get::<String>(at) {
        Ok(text) => Ok(text),
        Err(error) => Err(Failure::unread(error)),
    }
}

/// The text in a column, none where it is null.
fn text_or_null_in(row: &Row, at: usize) -> Result<Option<String>, Failure>
    ensures there { OnOk result (at < length row.now) }
    ensures shown { IfOk result (λ text. column row.now at ≡ or_null Words (option_map string_bytes text)) }
    ensures unread { IfErr result (λ failure. (passes : List ℕ → Bool) → IsUnread (holds_text_or_null passes at row.now) failure) }
{
    match row.get::<Option<String>>(at) {
        Ok(text) => Ok(text),
        Err(error) => Err(Failure::unread(error)),
    }
}

/// The number in a column.
pub fn integer_in(row: &Row, at: usize) -> Result<i64, Failure>
    ensures shown { IfOk result (λ number. column row.now at ≡ Int number) }
    ensures unread { IfErr result (λ failure. (passes : ℤ → Bool) → IsUnread (holds_integer passes at row.now) failure) }
{
    match row.get::<i64>(at) {
        Ok(number) => Ok(number),
        Err(error) => Err(Failure::unread(error)),
    }
}

/// The list of texts in a column. Most are empty, and need no reading.
pub(crate) fn texts_at(alloc: Global, row: &Row, at: usize) -> Result<Items<Text>, Failure>
    ensures shown { IfOk result (λ v. v ≡ values.texts_at at row.now) }
    ensures stands { OnOk result (holds_text are_texts at row.now ≡ true) }
    ensures unread { IfErr result (IsUnread (holds_text are_texts at row.now)) }
{
    if is_text(row, at, "[]") {
        return Ok(Items::new(alloc));
    }
    text_at::<Items<Text>>(alloc, row, at)
}

/// The msgid_plural in a column, none where it is null.
pub(crate) fn plural_at(alloc: Global, row: &Row, at: usize) -> Result<Option<PoString>, Failure>
    ensures shown { IfOk result (λ v. v ≡ values.text_or_null_at at row.now) }
    ensures stands { OnOk result (holds_text_or_null is_string at row.now ≡ true) }
    ensures unread { IfErr result (IsUnread (holds_text_or_null is_string at row.now)) }
{
    let column = text_or_null_in(row, at)?;
    match column {
        Some(plural) => Ok(plural_from(alloc, Some(plural.as_str()))?),
        None => Ok(None),
    }
}

/// The text of the name in a column.
pub fn name_text_at(row: &Row, at: usize) -> Result<String, Failure>
    ensures shown { IfOk result (λ name. column row.now at ≡ Words (string_bytes name)) }
    ensures stands { OnOk result (holds_text is_name at row.now ≡ true) }
    ensures unread { IfErr result (IsUnread (holds_text is_name at row.now)) }
{
    let column = text_in(row, at)?;
    let name = name_from(column.as_str())?;
    drop(name);
    Ok(column)
}

/// The domain's name that a row shows.
pub fn domain_at(alloc: Global, row: &Row) -> Result<Name, Failure>
    ensures shown { IfOk result (λ v. v ≡ keys.text_at 0 row.now) }
    ensures stands { OnOk result (is_domain_row row.now ≡ true) }
    ensures unread { IfErr result (IsUnread (is_domain_row row.now)) }
{
    text_at::<Name>(alloc, row, 0)
}

/// The language in a column.
pub fn lang_at(alloc: Global, row: &Row, at: usize) -> Result<Lang, Failure>
    ensures shown { IfOk result (λ v. v ≡ keys.text_at at row.now) }
    ensures stands { OnOk result (holds_text is_lang at row.now ≡ true) }
    ensures unread { IfErr result (IsUnread (holds_text is_lang at row.now)) }
{
    text_at::<Lang>(alloc, row, at)
}

/// The key in a column.
pub fn key_at(alloc: Global, row: &Row, at: usize) -> Result<Key, Failure>
    ensures shown { IfOk result (λ v. v ≡ meaning.key_at at row.now) }
    ensures stands { OnOk result (holds_text is_key at row.now ≡ true) }
    ensures unread { IfErr result (IsUnread (holds_text is_key at row.now)) }
{
    text_at::<Key>(alloc, row, at)
}

/// The previous strings in a column, of which most have none.
pub(crate) fn previous_at(alloc: Global, row: &Row, at: usize) -> Result<Previous, Failure>
    ensures shown { IfOk result (λ v. v ≡ unwrap_or (previous_read (keys.text_at at row.now)) nothing_previous) }
    ensures stands { OnOk result (holds_text are_previous at row.now ≡ true) }
    ensures unread { IfErr result (IsUnread (holds_text are_previous at row.now)) }
{
    if is_text(row, at, "[null,null,null]") {
        return Ok(no_previous());
    }
    text_at::<Previous>(alloc, row, at)
}

/// The role in a column.
pub fn role_at(row: &Row, at: usize) -> Result<Role, Failure>
    ensures shown { IfOk result (λ v. v ≡ values.role_at at row.now) }
    ensures stands { OnOk result (holds_integer is_role at row.now ≡ true) }
    ensures unread { IfErr result (IsUnread (holds_integer is_role at row.now)) }
{
    integer_at(row, at)
}
