//! Columns that are a list of texts: comment lines, references, flags and forms.
ghost use Rattle.std.specs.Prelude.{◌≡◌, ⊤, List, true, false, Err, IfOk};
ghost use Rattle.po_text.specs.Strings.{is_forms};
ghost use Rattle.sql_columns.specs.Faults.{Gives};
ghost use Rattle.sql_columns.specs.Readings.{texts_of};
ghost use Rattle.sql_columns.specs.Written.{texts_text};
ghost use Rattle.sql_columns.specs.declared.fault.RowFault.TheVariants.{Malformed};

use crate::fault::RowFault;
use crate::json_columns::{JsonColumn, read_column};
use crate::names::string_from;
use crate::values::{compact, texts_in};
use po_text::{Forms, Items, Text};
use request_book::{strings_value, texts_value};
use serde_json::Value;
use std::alloc::{AllocError, Global};

/// The column of a list of texts: a compact JSON list.
pub fn texts_column(alloc: Global, texts: &Items<Text>) -> Result<Text, AllocError>
    ensures { IfOk result (λ column. column ≡ texts_text texts.now) }
{
    let value = texts_value(alloc, texts.as_slice())?;
    compact(alloc, &value)
}

/// The list of texts that a column stands for.
pub fn texts_from(alloc: Global, column: &str) -> Result<Items<Text>, RowFault>
    ensures ok { IfOk result (λ texts. column.now ≡ texts_text texts) }
    ensures back { (texts : List Text) → column.now ≡ texts_text texts → Gives result texts }
{
    read_column(alloc, column)
}

impl JsonColumn for Items<Text> {
    ghost written = { texts_text };

    ghost of = { texts_of };

    ghost Fits = { λ _. ⊤ };

    fn column(&self, alloc: Global) -> Result<Text, AllocError> {
        texts_column(alloc, self)
    }

    fn from_value(alloc: Global, value: &Value) -> Result<Items<Text>, RowFault> {
        texts_in(alloc, value)
    }
}

/// The column of forms: a compact JSON list, form 0 first.
pub fn forms_column(alloc: Global, forms: &Forms) -> Result<Text, AllocError>
    ensures { IfOk result (λ column. column ≡ texts_text forms.now) }
{
    let value = strings_value(alloc, forms.as_slice())?;
    compact(alloc, &value)
}

/// The forms that a column stands for.
pub fn forms_from(alloc: Global, column: &str) -> Result<Forms, RowFault>
    ensures ok { IfOk result (λ forms. column.now ≡ texts_text forms) }
    ensures fits { IfOk result (λ forms. is_forms forms ≡ true) }
    ensures back { (forms : Forms) → is_forms forms ≡ true → column.now ≡ texts_text forms → Gives result forms }
{
    let texts = texts_from(alloc, column)?;
    forms_of(alloc, texts.as_slice())
}

fn forms_of(alloc: Global, texts: &[Text]) -> Result<Forms, RowFault>
    ensures ok { IfOk result (λ forms. texts.now ≡ forms) }
    ensures fits { IfOk result (λ forms. is_forms forms ≡ true) }
    ensures malformed { result ≡ Err Malformed → is_forms texts.now ≡ false }
{
    let mut strings = Vec::new(alloc);
    for text in texts {
        strings.push(string_from(alloc, text.as_str())?)?;
    }
    match Forms::try_new(strings) {
        Some(forms) => Ok(forms),
        None => Err(RowFault::Malformed),
    }
}
