//! Columns that are texts, as they are read.
ghost use Rattle.std.specs.Prelude.{◌≡◌, ◌≢◌, ℕ, Bool, true, false, IfOk, IfErr, OnOk, unwrap_or};
ghost use Rattle.sqlite.specs.Order.{Row as RowValue, column as cell};
ghost use Rattle.sqlite.specs.declared.types.Value.TheVariants.{Text as Words};
ghost use Rattle.po_text.specs.Texts.{Text as TextValue};
ghost use Rattle.units.specs.Limits.{is_name, is_lang};
ghost use Rattle.units.specs.Units.{no_previous};
ghost use Rattle.sql_columns.specs.Readings.{previous_read};
ghost use Rattle.sql_columns.specs.declared.fault.RowFault.TheVariants.{Memory};
ghost use Rattle.sql_schema.specs.Keys as keys;
ghost use Rattle.sql_meaning.specs.Meaning as meaning;
ghost use Rattle.sql_meaning.specs.Values as values;
ghost use Rattle.sql_decoding.specs.RowTests.{holds_text, is_number, is_key, are_texts, are_forms, are_previous, IsUnread};

use crate::columns::text_in;
use crate::faults::Failure;
use po_text::{Forms, Items, Previous, Text};
use request_book::bytes_fit;
use sql_columns::{
    RowFault, forms_from, key_from, lang_from, name_from, number_from, previous_from, texts_from,
};
use sqlite::Row;
use std::alloc::Global;
use units::{Key, Lang, Name};
use uuid::Uuid;

/// A value that is written as a text.
pub(crate) trait FromText: Drop {
    /// Whether a text is written for a value.
    ghost passes: { TextValue → Bool };

    /// The value that a row shows in a column.
    ghost shown: { ℕ → RowValue → Self };

    /// The value that a text is written for.
    fn from_text(alloc: Global, text: &str) -> Result<Self, RowFault>
        ensures shown { IfOk result (λ own. (at : ℕ) (row : RowValue) → cell row at ≡ Words text.now → own ≡ shown at row) }
        ensures stands { OnOk result (passes text.now ≡ true) }
        ensures falls { IfErr result (λ fault. fault ≢ Memory → passes text.now ≡ false) };
}

impl FromText for Name {
    ghost passes = { is_name };

    ghost shown = { keys.text_at };

    fn from_text(_alloc: Global, text: &str) -> Result<Name, RowFault> {
        name_from(text)
    }
}

impl FromText for Lang {
    ghost passes = { is_lang };

    ghost shown = { keys.text_at };

    fn from_text(_alloc: Global, text: &str) -> Result<Lang, RowFault> {
        lang_from(text)
    }
}

impl FromText for Key {
    ghost passes = { is_key };

    ghost shown = { meaning.key_at };

    fn from_text(alloc: Global, text: &str) -> Result<Key, RowFault> {
        key_from(alloc, text)
    }
}

impl FromText for Forms {
    ghost passes = { are_forms };

    ghost shown = { values.texts_at };

    fn from_text(alloc: Global, text: &str) -> Result<Forms, RowFault> {
        forms_from(alloc, text)
    }
}

impl FromText for Items<Text> {
    ghost passes = { are_texts };

    ghost shown = { values.texts_at };

    fn from_text(alloc: Global, text: &str) -> Result<Items<Text>, RowFault> {
        texts_from(alloc, text)
    }
}

impl FromText for Previous {
    ghost passes = { are_previous };

    ghost shown = { λ at row. unwrap_or (previous_read (keys.text_at at row)) no_previous };

    fn from_text(alloc: Global, text: &str) -> Result<Previous, RowFault> {
        previous_from(alloc, text)
    }
}

/// The number of a request.
impl FromText for Uuid {
    ghost passes = { is_number };

    ghost shown = { meaning.number_at };

    fn from_text(_alloc: Global, text: &str) -> Result<Uuid, RowFault> {
        let number = number_from(text)?;
        bytes_fit(number.as_bytes());
        Ok(number)
    }
}

/// The value in a column that is a text.
pub(crate) fn text_at<V: FromText>(alloc: Global, row: &Row, at: usize) -> Result<V, Failure>
    ensures shown { IfOk result (λ v. v ≡ V.shown at row.now) }
    ensures stands { OnOk result (holds_text V.passes at row.now ≡ true) }
    ensures unread { IfErr result (IsUnread (holds_text V.passes at row.now)) }
{
    let column = text_in(row, at)?;
    Ok(V::from_text(alloc, column.as_str())?)
}
