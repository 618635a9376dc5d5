//! The columns of a language: its header, and the value of the header's plural rule.
ghost use Rattle.std.specs.Prelude.{◌≡◌, [], ◌∷◌, map, Ok, Err, Some, None, IfOk, OnOk, IfErr};
ghost use Rattle.std.specs.Option.{option_copied};
ghost use Rattle.serde_json.specs.Data.{array};
ghost use Rattle.serde_json.specs.View.{view, items_view};
ghost use Rattle.units.specs.Rules.{plural_field, rule_in};
ghost use Rattle.request_book.specs.Words.{strings};
ghost use Rattle.request_book.specs.Fields.{text_of};
ghost use Rattle.sql_columns.specs.Faults.{Gives};
ghost use Rattle.plural_expr.specs.Faults.{reading_of};
ghost use Rattle.sql_columns.specs.Readings.{comments_of, item_as, previous_of, header_with, header_of};
ghost use Rattle.sql_columns.specs.Written.{header_string, header_data, header_text, ArePrevious, IsHeaderEntry};
ghost use Rattle.sql_columns.specs.declared.fault.RowFault.TheVariants.{Malformed, Memory};

use crate::fault::RowFault;
use crate::json_columns::{JsonColumn, read_column};
use crate::previous::{previous_in, previous_value};
use crate::values::{compact, item, string_in, texts_at};
use plural_expr::{PluralFault, PluralForms};
use po_text::{Entry, Forms, Items, PoString, Previous, Text, field_value};
use request_book::texts_value;
use serde_json::Value;
use std::alloc::{AllocError, Global};

/// The column of a header entry: a compact JSON list of its translator's comments, extracted comments, references, flags, previous
/// strings and its string.
pub fn header_column(alloc: Global, header: &Entry) -> Result<Text, AllocError>
    ensures { IfOk result (λ column. column ≡ header_text header.now) }
{
    let value = header_value(alloc, header)?;
    compact(alloc, &value)
}

fn header_value(alloc: Global, header: &Entry) -> Result<Value, AllocError>
    ensures { IfOk result (λ v. view v ≡ header_data header.now) }
{
    let mut list = Vec::new(alloc);
    match put_header(alloc, &mut list, header) {
        Ok(()) => Ok(Value::Array(list)),
        Err(refused) => {
            drop(list);
            Err(refused)
        }
    }
}

/// Puts what a header's column holds into a list.
fn put_header(alloc: Global, list: &mut Vec<Value>, header: &Entry) -> Result<(), AllocError>
    requires { list.old.items ≡ [] }
    ensures { OnOk result (array (items_view list.new.items) ≡ header_data header.now) }
{
    put_comments(alloc, list, header)?;
    list.push(previous_value(alloc, &header.previous)?)?;
    list.push(Value::try_from_str(alloc, string_of(header))?)?;
    Ok(())
}

/// Puts a header's comments and flags into a list.
fn put_comments(alloc: Global, list: &mut Vec<Value>, header: &Entry) -> Result<(), AllocError>
    requires { list.old.items ≡ [] }
    ensures { OnOk result (map view list.new.items ≡ strings header.now.translator ∷ strings header.now.extracted
        ∷ strings header.now.references ∷ strings header.now.flags ∷ []) }
{
    list.push(texts_value(alloc, header.translator.as_slice())?)?;
    list.push(texts_value(alloc, header.extracted.as_slice())?)?;
    list.push(texts_value(alloc, header.references.as_slice())?)?;
    list.push(texts_value(alloc, header.flags.as_slice())?)?;
    Ok(())
}

/// The string of a header, its one form.
fn string_of(header: &Entry) -> &str
    ensures { result.now ≡ header_string header.now }
{
    match header.forms.as_slice() {
        [form, ..] => form.as_str(),
        [] => "",
    }
}

/// The header entry that a column stands for.
pub fn header_from(alloc: Global, column: &str) -> Result<Entry, RowFault>
    ensures ok { IfOk result (λ header. column.now ≡ header_text header) }
    ensures fits { IfOk result IsHeaderEntry }
    ensures back { (header : Entry) → IsHeaderEntry header → column.now ≡ header_text header → Gives result header }
{
    read_column(alloc, column)
}

impl JsonColumn for Entry {
    ghost written = { header_text };

    ghost of = { header_of };

    ghost Fits = { IsHeaderEntry };

    fn column(&self, alloc: Global) -> Result<Text, AllocError> {
        header_column(alloc, self)
    }

    fn from_value(alloc: Global, value: &Value) -> Result<Entry, RowFault> {
        header_in(alloc, value)
    }
}

fn header_in(alloc: Global, value: &Value) -> Result<Entry, RowFault>
    ensures ok { IfOk result (λ header. header_of (view value.now) ≡ Some header) }
    ensures fits { IfOk result IsHeaderEntry }
    ensures malformed { result ≡ Err Malformed → header_of (view value.now) ≡ None }
{
    let comments = comments_in(alloc, value)?;
    match strings_in(alloc, value) {
        Ok((previous, form)) => whole_header(alloc, comments, previous, form),
        Err(fault) => {
            drop(comments);
            Err(fault)
        }
    }
}

/// What stands in a header beside its comments and flags: its previous strings, and its string.
fn strings_in(alloc: Global, value: &Value) -> Result<(Previous, PoString), RowFault>
    ensures previous { IfOk result (λ parts. item_as previous_of 4 (view value.now) ≡ Some parts.0) }
    ensures form { IfOk result (λ parts. item_as text_of 5 (view value.now) ≡ Some parts.1) }
    ensures fits { IfOk result (λ parts. ArePrevious parts.0) }
    ensures malformed { result ≡ Err Malformed → (comments : HeaderComments) → comments_of (view value.now) ≡ Some comments
        → header_of (view value.now) ≡ None }
{
    let previous = previous_in(alloc, item(value, 4)?)?;
    match form_in(alloc, value) {
        Ok(form) => Ok((previous, form)),
        Err(fault) => {
            drop(previous);
            Err(fault)
        }
    }
}

/// The string of a header.
fn form_in(alloc: Global, value: &Value) -> Result<PoString, RowFault>
    ensures ok { IfOk result (λ form. item_as text_of 5 (view value.now) ≡ Some form) }
    ensures malformed { result ≡ Err Malformed → item_as text_of 5 (view value.now) ≡ None }
{
    string_in(alloc, item(value, 5)?)
}

/// The comments and flags of a header.
#[derive(Drop)]
struct HeaderComments {
    translator: Items<Text>,
    extracted: Items<Text>,
    references: Items<Text>,
    flags: Items<Text>,
}

fn comments_in(alloc: Global, value: &Value) -> Result<HeaderComments, RowFault>
    ensures ok { IfOk result (λ comments. comments_of (view value.now) ≡ Some comments) }
    ensures malformed { result ≡ Err Malformed → comments_of (view value.now) ≡ None }
{
    let translator = texts_at(alloc, value, 0)?;
    let extracted = texts_at(alloc, value, 1)?;
    let references = texts_at(alloc, value, 2)?;
    let flags = texts_at(alloc, value, 3)?;
    Ok(HeaderComments {
        translator,
        extracted,
        references,
        flags,
    })
}

/// The header of its parts: its msgid is empty, and its string is its one form.
fn whole_header(
    alloc: Global,
    comments: HeaderComments,
    previous: Previous,
    form: PoString,
) -> Result<Entry, RowFault>
    requires { ArePrevious previous }
    ensures ok { IfOk result (λ header. header ≡ header_with comments previous form) }
    ensures fits { IfOk result IsHeaderEntry }
    ensures memory { IfErr result (λ e. e ≡ Memory) }
{
    match Forms::one(alloc, form) {
        Ok(forms) => {
            let _ = forms.as_slice();
            Ok(Entry {
                translator: comments.translator,
                extracted: comments.extracted,
                references: comments.references,
                flags: comments.flags,
                previous,
                ctx: None,
                id: PoString::empty(alloc),
                plural: None,
                forms,
                obsolete: false,
            })
        }
        Err(refused) => {
            drop(comments);
            drop(previous);
            Err(RowFault::from(refused))
        }
    }
}

/// The column of a header's plural rule: the value of the header's field `Plural-Forms`, if it has one.
pub fn rule_column(header: &Entry) -> Option<&str>
    ensures { option_copied result ≡ plural_field (Some header.now) }
{
    match header.forms.as_slice() {
        [form, ..] => field_value(form.as_str(), "Plural-Forms"),
        [] => None,
    }
}

/// The plural rule that a column stands for beside its header: the header's rule, where the column is the value of the header's
/// field `Plural-Forms` and is a plural rule.
pub fn rule_from(alloc: Global, header: &Entry, column: &str) -> Result<PluralForms, RowFault>
    ensures ok { IfOk result (λ rule. rule_in (Some header.now) ≡ Ok rule) }
    ensures is_field { OnOk result (plural_field (Some header.now) ≡ Some column.now) }
    ensures back { (rule : PluralForms) → plural_field (Some header.now) ≡ Some column.now → rule_in (Some header.now) ≡ Ok rule → Gives result rule }
{
    match rule_column(header) {
        Some(field) => if field == column {
            rule_of(alloc, field)
        } else {
            Err(RowFault::Malformed)
        },
        None => Err(RowFault::Malformed),
    }
}

fn rule_of(alloc: Global, field: &str) -> Result<PluralForms, RowFault>
    ensures ok { IfOk result (λ rule. reading_of field.now ≡ Ok rule) }
    ensures back { (rule : PluralForms) → reading_of field.now ≡ Ok rule → Gives result rule }
{
    match PluralForms::parse(alloc, field) {
        Ok(rule) => Ok(rule),
        Err(fault) => match fault {
            PluralFault::Memory => Err(RowFault::Memory),
            _ => Err(RowFault::Malformed),
        },
    }
}
