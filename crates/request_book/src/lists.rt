//! Lists of texts as JSON.
ghost use Rattle.std.specs.Prelude.{◌≡◌, IfOk};
ghost use Rattle.serde_json.specs.View.{view};
ghost use Rattle.request_book.specs.Words.{strings};

use po_text::{PoString, Text};
use serde_json::Value;
use std::alloc::{AllocError, Global};

/// The list of these texts.
pub fn texts_value(alloc: Global, texts: &[Text]) -> Result<Value, AllocError>
    ensures { IfOk result (λ v. view v ≡ strings texts.now) }
{
    let mut list = Vec::new(alloc);
    for text in texts {
        list.push(Value::try_from_str(alloc, text.as_str())?)?;
    }
    Ok(Value::Array(list))
}

/// The list of these strings.
pub fn strings_value(alloc: Global, texts: &[PoString]) -> Result<Value, AllocError>
    ensures { IfOk result (λ v. view v ≡ strings texts.now) }
{
    let mut list = Vec::new(alloc);
    for string in texts {
        list.push(Value::try_from_str(alloc, string.as_str())?)?;
    }
    Ok(Value::Array(list))
}
