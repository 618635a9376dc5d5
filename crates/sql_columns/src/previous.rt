//! The column of previous strings.
ghost use Rattle.std.specs.Prelude.{◌≡◌, Err, Some, None, IfOk};
ghost use Rattle.serde_json.specs.View.{view};
ghost use Rattle.sql_columns.specs.Faults.{Gives};
ghost use Rattle.sql_columns.specs.Readings.{previous_of};
ghost use Rattle.sql_columns.specs.Written.{previous_data, previous_text, ArePrevious};
ghost use Rattle.sql_columns.specs.declared.fault.RowFault.TheVariants.{Malformed};

use crate::fault::RowFault;
use crate::json_columns::{JsonColumn, read_column};
use crate::values::{compact, string_or_null_at, string_or_null_value};
use po_text::{Previous, Text};
use serde_json::Value;
use std::alloc::{AllocError, Global};

/// The column of previous strings: a compact JSON list of context, msgid and msgid_plural, null for each that is absent.
pub fn previous_column(alloc: Global, previous: &Previous) -> Result<Text, AllocError>
    ensures { IfOk result (λ column. column ≡ previous_text previous.now) }
{
    let value = previous_value(alloc, previous)?;
    compact(alloc, &value)
}

pub(crate) fn previous_value(alloc: Global, previous: &Previous) -> Result<Value, AllocError>
    ensures { IfOk result (λ v. view v ≡ previous_data previous.now) }
{
    let mut list = Vec::new(alloc);
    list.push(string_or_null_value(alloc, &previous.ctx)?)?;
    list.push(string_or_null_value(alloc, &previous.id)?)?;
    list.push(string_or_null_value(alloc, &previous.plural)?)?;
    Ok(Value::Array(list))
}

/// The previous strings that a column stands for.
pub fn previous_from(alloc: Global, column: &str) -> Result<Previous, RowFault>
    ensures ok { IfOk result (λ previous. column.now ≡ previous_text previous) }
    ensures fits { IfOk result ArePrevious }
    ensures back { (previous : Previous) → ArePrevious previous → column.now ≡ previous_text previous → Gives result previous }
{
    read_column(alloc, column)
}

impl JsonColumn for Previous {
    ghost written = { previous_text };

    ghost of = { previous_of };

    ghost Fits = { ArePrevious };

    fn column(&self, alloc: Global) -> Result<Text, AllocError> {
        previous_column(alloc, self)
    }

    fn from_value(alloc: Global, value: &Value) -> Result<Previous, RowFault> {
        previous_in(alloc, value)
    }
}

pub(crate) fn previous_in(alloc: Global, value: &Value) -> Result<Previous, RowFault>
    ensures ok { IfOk result (λ previous. previous_of (view value.now) ≡ Some previous) }
    ensures fits { IfOk result ArePrevious }
    ensures malformed { result ≡ Err Malformed → previous_of (view value.now) ≡ None }
{
    let ctx = string_or_null_at(alloc, value, 0)?;
    let id = string_or_null_at(alloc, value, 1)?;
    let plural = string_or_null_at(alloc, value, 2)?;
    Ok(Previous { ctx, id, plural })
}
