//! Values of JSON in columns: lists of texts, and strings that may be absent.
ghost use Rattle.std.specs.Prelude.{◌≡◌, true, false, Err, IfOk, Some, None};
ghost use Rattle.std.specs.Option.{option_map_or};
ghost use Rattle.serde_json.specs.Find.{as_str, at};
ghost use Rattle.serde_json.specs.Read.{read};
ghost use Rattle.serde_json.specs.View.{view, items_view};
ghost use Rattle.serde_json.specs.Written.{compact_text, has_float};
ghost use Rattle.po_text.specs.Strings.{is_string};
ghost use Rattle.request_book.specs.Fields.{text_of, each_of};
ghost use Rattle.sql_columns.specs.Readings.{item_as, texts_of, string_or_null_of};
ghost use Rattle.sql_columns.specs.Written.{string_or_null};
ghost use Rattle.sql_columns.specs.declared.fault.RowFault.TheVariants.{Malformed};

use crate::fault::RowFault;
use crate::names::string_from;
use po_text::{Items, PoString, Text};
use serde_json::Value;
use std::alloc::{AllocError, Global};

// ---- reading

/// What a text is in JSON.
pub(crate) fn value_from(alloc: Global, text: &str) -> Result<Value, RowFault>
    ensures ok { IfOk result (λ v. read text.now ≡ Some (view v)) }
    ensures malformed { result ≡ Err Malformed → read text.now ≡ None }
{
    match Value::from_str(alloc, text) {
        Ok(value) => Ok(value),
        Err(e) => if e.is_memory() {
            Err(RowFault::Memory)
        } else {
            Err(RowFault::Malformed)
        },
    }
}

pub(crate) fn texts_in(alloc: Global, value: &Value) -> Result<Items<Text>, RowFault>
    ensures ok { IfOk result (λ texts. texts_of (view value.now) ≡ Some texts) }
    ensures malformed { result ≡ Err Malformed → texts_of (view value.now) ≡ None }
{
    let Some(list) = value.as_array() else {
        return Err(RowFault::Malformed);
    };
    each_text(alloc, list.as_slice())
}

fn each_text(alloc: Global, values: &[Value]) -> Result<Items<Text>, RowFault>
    ensures ok { IfOk result (λ texts. each_of as_str (items_view values.now) ≡ Some texts) }
    ensures malformed { result ≡ Err Malformed → each_of as_str (items_view values.now) ≡ None }
{
    let mut texts = Items::new(alloc);
    for value in values {
        let Some(text) = value.as_str() else {
            return Err(RowFault::Malformed);
        };
        texts.push(Text::from_text(alloc, text)?)?;
    }
    Ok(texts)
}

pub(crate) fn string_in(alloc: Global, value: &Value) -> Result<PoString, RowFault>
    ensures ok { IfOk result (λ string. text_of (view value.now) ≡ Some string) }
    ensures fits { IfOk result (λ string. is_string string ≡ true) }
    ensures malformed { result ≡ Err Malformed → text_of (view value.now) ≡ None }
{
    let Some(text) = value.as_str() else {
        return Err(RowFault::Malformed);
    };
    string_from(alloc, text)
}

pub(crate) fn string_or_null_in(alloc: Global, value: &Value) -> Result<Option<PoString>, RowFault>
    ensures ok { IfOk result (λ found. string_or_null_of (view value.now) ≡ Some found) }
    ensures fits { IfOk result (λ found. option_map_or is_string found true ≡ true) }
    ensures malformed { result ≡ Err Malformed → string_or_null_of (view value.now) ≡ None }
{
    if value.is_null() {
        Ok(None)
    } else {
        Ok(Some(string_in(alloc, value)?))
    }
}

/// The item of a list at a place.
pub(crate) fn item(list: &Value, index: usize) -> Result<&Value, RowFault>
    ensures ok { IfOk result (λ v. at index (view list.now) ≡ Some (view v.now)) }
    ensures malformed { result ≡ Err Malformed → at index (view list.now) ≡ None }
{
    match list.get(index) {
        Some(value) => Ok(value),
        None => Err(RowFault::Malformed),
    }
}

/// The texts at a place of a list.
pub(crate) fn texts_at(alloc: Global, list: &Value, index: usize) -> Result<Items<Text>, RowFault>
    ensures ok { IfOk result (λ texts. item_as texts_of index (view list.now) ≡ Some texts) }
    ensures malformed { result ≡ Err Malformed → item_as texts_of index (view list.now) ≡ None }
{
    texts_in(alloc, item(list, index)?)
}

/// The string at a place of a list, none where null stands there.
pub(crate) fn string_or_null_at(
    alloc: Global,
    list: &Value,
    index: usize,
) -> Result<Option<PoString>, RowFault>
    ensures ok { IfOk result (λ found. item_as string_or_null_of index (view list.now) ≡ Some found) }
    ensures fits { IfOk result (λ found. option_map_or is_string found true ≡ true) }
    ensures malformed { result ≡ Err Malformed → item_as string_or_null_of index (view list.now) ≡ None }
{
    string_or_null_in(alloc, item(list, index)?)
}

// ---- writing

pub(crate) fn string_or_null_value(
    alloc: Global,
    string: &Option<PoString>,
) -> Result<Value, AllocError>
    ensures { IfOk result (λ v. view v ≡ string_or_null string.now) }
{
    match string {
        Some(string) => Value::try_from_str(alloc, string.as_str()),
        None => Ok(Value::Null),
    }
}

/// The compact text of a value.
pub(crate) fn compact(alloc: Global, value: &Value) -> Result<Text, AllocError>
    requires { has_float (view value.now) ≡ false }
    ensures { IfOk result (λ text. text ≡ compact_text (view value.now)) }
{
    Ok(Text::from_string(value.to_string(alloc)?))
}
