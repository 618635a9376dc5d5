//! The text of a language's counts.
ghost use Rattle.std.specs.Prelude.{◌≡◌, IfOk, string_bytes};
ghost use Rattle.serde_json.specs.Data.{object};
ghost use Rattle.serde_json.specs.View.{members_view};
ghost use Rattle.request_book.specs.Words.{object_of};
ghost use Rattle.views.specs.CountsTexts.{counts_fields, counts_text_of};

use crate::parts::object_value;
use office_specification::Tally;
use serde_json::{Map, Value, put};
use std::alloc::{AllocError, Global};
use units::Memory;

/// A language's counts as compact JSON (RFC 8259), keys in byte order.
///
/// `Memory` where a growth was refused.
#[tactic(auto, using(crate::proofs::Flat::counts_are_flat), unfolding(crate::specs::CountsTexts::counts_text_of))]
pub fn counts_text(alloc: Global, counts: Tally) -> Result<String, Memory>
    ensures { IfOk result (λ text. string_bytes text ≡ counts_text_of counts) }
{
    let map = counts_map(alloc, counts)?;
    Ok(object_value(map).to_string(alloc)?)
}

fn counts_map(alloc: Global, counts: Tally) -> Result<Map<String, Value>, AllocError>
    ensures { IfOk result
        (λ map. object (members_view map.entries) ≡ object_of (counts_fields counts)) }
{
    let mut map = Map::new(alloc);
    put(&mut map, alloc, "approved", Value::from(counts.approved))?;
    put(
        &mut map,
        alloc,
        "needs-editing",
        Value::from(counts.needs_editing),
    )?;
    put(&mut map, alloc, "obsolete", Value::from(counts.obsolete))?;
    put(&mut map, alloc, "read-only", Value::from(counts.read_only))?;
    put(
        &mut map,
        alloc,
        "suggestions",
        Value::from(counts.suggestions),
    )?;
    put(
        &mut map,
        alloc,
        "translated",
        Value::from(counts.translated),
    )?;
    put(
        &mut map,
        alloc,
        "untranslated",
        Value::from(counts.untranslated),
    )?;
    Ok(map)
}
