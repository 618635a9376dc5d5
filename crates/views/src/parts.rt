//! Parts of JSON objects: texts, lists and what may be absent.
ghost use Rattle.std.specs.Prelude.{◌≡◌, IfOk};
ghost use Rattle.serde_json.specs.Data.{object, string};
ghost use Rattle.serde_json.specs.View.{view, members_view};
ghost use Rattle.views.specs.Parts.{text_or_null, naturals};

use po_text::PoString;
use serde_json::{Map, Value};
use std::alloc::{AllocError, Global};

/// The object with these members.
pub(crate) fn object_value(members: Map<String, Value>) -> Value
    ensures { view result ≡ object (members_view members.entries) }
{
    Value::Object(members)
}

/// A text, or null where there is none.
pub(crate) fn text_or_null(alloc: Global, text: &Option<PoString>) -> Result<Value, AllocError>
    ensures { IfOk result (λ v. view v ≡ text_or_null text.now) }
{
    match text {
        Some(text) => Value::try_from_str(alloc, text.as_str()),
        None => Ok(Value::Null),
    }
}

pub(crate) fn numbers_value(alloc: Global, numbers: &[u32]) -> Result<Value, AllocError>
    ensures { IfOk result (λ v. view v ≡ naturals numbers.now) }
{
    let mut list = Vec::new(alloc);
    for number in numbers {
        list.push(Value::from(*number))?;
    }
    Ok(Value::Array(list))
}
