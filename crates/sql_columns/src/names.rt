//! Columns that are a name, a language, a key, a msgid_plural or a number of a request.
ghost use Rattle.std.specs.Prelude.{◌≡◌, true, false, Some, Ok, Err, IfOk, OnOk, IfErr, option_map};
ghost use Rattle.std.specs.Option.{option_copied, option_map_or};
ghost use Rattle.po_text.specs.Strings.{is_string};
ghost use Rattle.units.specs.Limits.{is_name, is_lang};
ghost use Rattle.units.specs.Units.{key_text};
ghost use Rattle.units.specs.KeyTexts.{HasStrings};
ghost use Rattle.uuid.specs.Text.{parsed};
ghost use Rattle.request_book.specs.Words.{number_text};
ghost use Rattle.request_book.specs.Acts.{IsNumber};
ghost use Rattle.sql_columns.specs.Faults.{Gives};
ghost use Rattle.sql_columns.specs.Readings.{key_parts, number_read};
ghost use Rattle.sql_columns.specs.declared.fault.RowFault.TheVariants.{Malformed};

use crate::fault::RowFault;
use po_text::{PoString, Text};
use request_book::bytes_fit;
use std::alloc::{AllocError, Global};
use units::{CONTEXT_GLUE, Key, Lang, Name};
use uuid::Uuid;

/// The name that a column stands for: the column itself, where it is a name. (A name is written as itself.)
pub fn name_from(column: &str) -> Result<Name, RowFault>
    ensures ok { IfOk result (λ name. column.now ≡ name) }
    ensures fits { IfOk result (λ name. is_name name ≡ true) }
    ensures back { is_name column.now ≡ true → result ≡ Ok column.now }
    ensures fault { IfErr result (λ e. e ≡ Malformed) }
{
    match Name::try_new(column) {
        Some(name) => Ok(name),
        None => Err(RowFault::Malformed),
    }
}

/// The language that a column stands for: the column itself, where it is a language's code. (A code is written as itself.)
pub fn lang_from(column: &str) -> Result<Lang, RowFault>
    ensures ok { IfOk result (λ lang. column.now ≡ lang) }
    ensures fits { IfOk result (λ lang. is_lang lang ≡ true) }
    ensures back { is_lang column.now ≡ true → result ≡ Ok column.now }
    ensures fault { IfErr result (λ e. e ≡ Malformed) }
{
    match Lang::try_new(column) {
        Some(lang) => Ok(lang),
        None => Err(RowFault::Malformed),
    }
}

/// The text as a string of a catalogue, where it is one.
pub(crate) fn string_from(alloc: Global, text: &str) -> Result<PoString, RowFault>
    ensures ok { IfOk result (λ string. text.now ≡ string) }
    ensures fits { IfOk result (λ string. is_string string ≡ true) }
    ensures malformed { result ≡ Err Malformed → is_string text.now ≡ false }
{
    match PoString::try_new(alloc, text)? {
        Some(string) => Ok(string),
        None => Err(RowFault::Malformed),
    }
}

/// The column of a msgid_plural: the string itself, or NULL.
pub fn plural_column(plural: &Option<PoString>) -> Option<&str>
    ensures { option_copied result ≡ plural.now }
{
    match plural {
        Some(plural) => Some(plural.as_str()),
        None => None,
    }
}

/// The msgid_plural that a column stands for, none where it is NULL.
pub fn plural_from(alloc: Global, column: Option<&str>) -> Result<Option<PoString>, RowFault>
    ensures ok { IfOk result (λ plural. option_copied column.entry ≡ plural) }
    ensures fits { IfOk result (λ plural. option_map_or is_string plural true ≡ true) }
    ensures back { option_map_or is_string (option_copied column.entry) true ≡ true → Gives result (option_copied column.entry) }
{
    match column {
        Some(plural) => Ok(Some(string_from(alloc, plural)?)),
        None => Ok(None),
    }
}

/// The key that a column stands for: what stands before the first U+0004 is its context, and what follows its msgid; without a
/// U+0004 it is a msgid alone. (A key is written as its text, [`Key::text`].)
pub fn key_from(alloc: Global, column: &str) -> Result<Key, RowFault>
    ensures ok { IfOk result (λ key. column.now ≡ key_text key) }
    ensures fits { IfOk result HasStrings }
    ensures back { (key : Key) → HasStrings key → column.now ≡ key_text key → Gives result key }
{
    key_of_parts(alloc, column)
}

fn key_of_parts(alloc: Global, column: &str) -> Result<Key, RowFault>
    ensures ok { IfOk result (λ key. key_parts column.now ≡ key) }
    ensures fits { IfOk result HasStrings }
    ensures malformed { result ≡ Err Malformed → ¬ HasStrings (key_parts column.now) }
{
    match column.split_once(CONTEXT_GLUE) {
        Some((ctx, id)) => Ok(Key {
            ctx: Some(string_from(alloc, ctx)?),
            id: string_from(alloc, id)?,
        }),
        None => Ok(Key {
            ctx: None,
            id: string_from(alloc, column)?,
        }),
    }
}

/// The column of a request's number: hyphenated, lower case, 36 characters.
pub fn number_column(alloc: Global, number: Uuid) -> Result<Text, AllocError>
    ensures column { IfOk result (λ column. column ≡ number_text number) }
    ensures fits { OnOk result (IsNumber number) }
{
    bytes_fit(number.as_bytes());
    let mut buffer = Uuid::encode_buffer();
    let written: &str = number.hyphenated().encode_lower(&mut buffer);
    Text::from_text(alloc, written)
}

/// The number that a column stands for.
#[tactic(auto, using(crate::proofs::Readers::number_written, crate::proofs::Readers::number_found))]
pub fn number_from(column: &str) -> Result<Uuid, RowFault>
    ensures ok { IfOk result (λ number. column.now ≡ number_text number) }
    ensures back { (number : Uuid) → IsNumber number → column.now ≡ number_text number → result ≡ Ok number }
    ensures fault { IfErr result (λ e. e ≡ Malformed) }
{
    match read_number(column) {
        Some(number) => Ok(number),
        None => Err(RowFault::Malformed),
    }
}

fn read_number(column: &str) -> Option<Uuid>
    ensures { result ≡ number_read column.now }
{
    let number = parsed_number(column)?;
    let mut buffer = Uuid::encode_buffer();
    let written: &str = number.hyphenated().encode_lower(&mut buffer);
    if written == column {
        Some(number)
    } else {
        None
    }
}

fn parsed_number(text: &str) -> Option<Uuid>
    ensures { result ≡ parsed text.now }
{
    match Uuid::parse_str(text) {
        Ok(number) => Some(number),
        Err(_) => None,
    }
}
