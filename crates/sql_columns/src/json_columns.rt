//! Columns that are compact JSON, as they are read.
ghost use Rattle.std.specs.Prelude.{◌≡◌, Option, Err, Some, None, IfOk, option_and_then};
ghost use Rattle.serde_json.specs.Data.{Data};
ghost use Rattle.serde_json.specs.Read.{read};
ghost use Rattle.serde_json.specs.View.{view};
ghost use Rattle.po_text.specs.Texts.{Text as TextValue};
ghost use Rattle.sql_columns.specs.Readings.{read_as};
ghost use Rattle.sql_columns.specs.declared.fault.RowFault.TheVariants.{Malformed};

use crate::fault::RowFault;
use crate::values::value_from;
use po_text::Text;
use serde_json::Value;
use std::alloc::{AllocError, Global};

/// A value whose column is compact JSON.
pub(crate) trait JsonColumn: Drop {
    /// Its column.
    ghost written: { Self → TextValue };

    /// The value that JSON stands for, if it stands for one.
    ghost of: { Data → Option Self };

    /// What holds of each value that is read.
    ghost Fits: { Self → Type 0 };

    /// Writes its column.
    fn column(&self, alloc: Global) -> Result<Text, AllocError>
        ensures { IfOk result (λ column. column ≡ written self.now) };

    /// Reads it of JSON.
    fn from_value(alloc: Global, value: &Value) -> Result<Self, RowFault>
        ensures ok { IfOk result (λ own. of (view value.now) ≡ Some own) }
        ensures fits { IfOk result Fits }
        ensures malformed { result ≡ Err Malformed → of (view value.now) ≡ None };
}

/// The value that a column stands for: that of its JSON, where the column is what is written for the value.
pub(crate) fn read_column<V: JsonColumn>(alloc: Global, column: &str) -> Result<V, RowFault>
    ensures ok { IfOk result (λ own. read_as V.of V.written column.now ≡ Some own) }
    ensures fits { IfOk result V.Fits }
    ensures malformed { result ≡ Err Malformed → read_as V.of V.written column.now ≡ None }
{
    let own = parsed::<V>(alloc, column)?;
    match own.column(alloc) {
        Ok(written) => {
            let same = written.as_str() == column;
            drop(written);
            if same {
                Ok(own)
            } else {
                drop(own);
                Err(RowFault::Malformed)
            }
        }
        Err(_) => {
            drop(own);
            Err(RowFault::Memory)
        }
    }
}

/// The value of the JSON of a column, which may be written in another way.
fn parsed<V: JsonColumn>(alloc: Global, column: &str) -> Result<V, RowFault>
    ensures ok { IfOk result (λ own. option_and_then V.of (read column.now) ≡ Some own) }
    ensures fits { IfOk result V.Fits }
    ensures malformed { result ≡ Err Malformed → option_and_then V.of (read column.now) ≡ None }
{
    let value = value_from(alloc, column)?;
    let own = V::from_value(alloc, &value);
    drop(value);
    own
}
