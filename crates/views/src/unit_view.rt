//! The text of a unit as callers see it.
ghost use Rattle.std.specs.Prelude.{◌≡◌, IfOk, OnOk, codes, string_bytes};
ghost use Rattle.serde_json.specs.Data.{put as with, boolean, string, object};
ghost use Rattle.serde_json.specs.View.{view as view_of, members_view};
ghost use Rattle.request_book.specs.Words.{object_of, natural, strings, number_data};
ghost use Rattle.units.specs.Words.{state_text};
ghost use Rattle.units.specs.Units.{shown_state};
ghost use Rattle.views.specs.Parts.{text_or_null};
ghost use Rattle.views.specs.UnitTexts.{checked_source, findings_of, findings_fields, suggestion_fields, suggestions_data, unit_fields, unit_text_of};

use crate::parts::{numbers_value, object_value, text_or_null};
use checks::{Findings, Source, findings};
use plural_expr::PluralForms;
use po_text::Text;
use request_book::{strings_value, texts_value};
use serde_json::{Map, Value, put};
use std::alloc::{AllocError, Global};
use units::{Memory, Suggestion, Unit, UnitView};
use uuid::Uuid;

/// A unit as callers see it, as compact JSON (RFC 8259), keys in byte order: its key, forms, comment and suggestions, its state,
/// which is `read-only` while its template's entry has that flag, and what the checks find in its forms, enforced or not. The rule
/// is the plural rule of its language.
///
/// `Memory` where a growth was refused.
#[tactic(auto, using(crate::proofs::Flat::unit_is_flat), unfolding(crate::specs::UnitTexts::unit_text_of))]
pub fn unit_text(alloc: Global, view: &UnitView, rule: &PluralForms) -> Result<String, Memory>
    ensures { IfOk result (λ text. string_bytes text ≡ unit_text_of view.now rule.now) }
{
    let map = unit_map(alloc, view, rule)?;
    Ok(object_value(map).to_string(alloc)?)
}

fn unit_map(
    alloc: Global,
    view: &UnitView,
    rule: &PluralForms,
) -> Result<Map<String, Value>, Memory>
    ensures { IfOk result
        (λ map. object (members_view map.entries) ≡ object_of (unit_fields view.now rule.now)) }
{
    let mut map = Map::new(alloc);
    put_strings(&mut map, alloc, &view.unit)?;
    let found = findings_value(alloc, view, rule)?;
    put(&mut map, alloc, "findings", found)?;
    put_state(&mut map, alloc, view)?;
    let suggestions = suggestions_value(alloc, view.unit.suggestions.as_slice())?;
    put(&mut map, alloc, "suggestions", suggestions)?;
    Ok(map)
}

/// A unit's key, msgid_plural, forms and comment.
fn put_strings(map: &mut Map<String, Value>, alloc: Global, unit: &Unit) -> Result<(), AllocError>
    ensures { OnOk result (members_view map.new.entries
        ≡ with (codes "plural") (text_or_null unit.now.plural) (with (codes "id") (string unit.now.key.id) (with (codes "forms") (strings unit.now.forms)
        (with (codes "ctx") (text_or_null unit.now.key.ctx) (with (codes "comment") (strings unit.now.comment) (members_view map.old.entries)))))) }
{
    put(
        map,
        alloc,
        "comment",
        texts_value(alloc, unit.comment.as_slice())?,
    )?;
    put(map, alloc, "ctx", text_or_null(alloc, &unit.key.ctx)?)?;
    put(
        map,
        alloc,
        "forms",
        strings_value(alloc, unit.forms.as_slice())?,
    )?;
    put(
        map,
        alloc,
        "id",
        Value::try_from_str(alloc, unit.key.id.as_str())?,
    )?;
    put(map, alloc, "plural", text_or_null(alloc, &unit.plural)?)
}

/// Where a unit stands: whether it is obsolete, its revision, and the state that callers see.
fn put_state(map: &mut Map<String, Value>, alloc: Global, view: &UnitView) -> Result<(), AllocError>
    ensures { OnOk result (members_view map.new.entries
        ≡ with (codes "state") (string (state_text (shown_state view.now.source view.now.unit))) (with (codes "revision") (natural view.now.unit.revision)
        (with (codes "obsolete") (boolean view.now.unit.obsolete) (members_view map.old.entries)))) }
{
    put(map, alloc, "obsolete", Value::from(view.unit.obsolete))?;
    put(
        map,
        alloc,
        "revision",
        Value::from(view.unit.revision.number()),
    )?;
    let state = view.shown_state().word();
    put(map, alloc, "state", Value::try_from_str(alloc, state)?)
}

/// The flags that a unit is checked under: those of its template's entry, and none where it is obsolete.
fn checked_flags(view: &UnitView) -> &[Text]
    ensures { result.now ≡ (checked_source view.now).flags }
{
    match &view.source {
        Some(entry) if !view.unit.obsolete => entry.flags.as_slice(),
        _ => &[],
    }
}

/// What a unit is checked against.
fn checked_source(view: &UnitView) -> Source<'_>
    ensures { result ≡ checked_source view.now }
{
    Source {
        id: &view.unit.key.id,
        plural: view.unit.plural.as_ref(),
        flags: checked_flags(view),
    }
}

fn findings_value(alloc: Global, view: &UnitView, rule: &PluralForms) -> Result<Value, Memory>
    ensures { IfOk result
        (λ v. view_of v ≡ object_of (findings_fields (findings_of view.now rule.now))) }
{
    let source = checked_source(view);
    let found = findings(alloc, &source, view.unit.forms.as_slice(), rule)?;
    let map = findings_map(alloc, &found)?;
    Ok(object_value(map))
}

fn findings_map(alloc: Global, found: &Findings) -> Result<Map<String, Value>, AllocError>
    ensures { IfOk result
        (λ map. object (members_view map.entries) ≡ object_of (findings_fields found.now)) }
{
    let mut map = Map::new(alloc);
    put(
        &mut map,
        alloc,
        "line-ends",
        numbers_value(alloc, found.line_ends.as_slice())?,
    )?;
    put(
        &mut map,
        alloc,
        "placeholders",
        numbers_value(alloc, found.placeholders.as_slice())?,
    )?;
    Ok(map)
}

fn suggestions_value(alloc: Global, suggestions: &[Suggestion]) -> Result<Value, AllocError>
    ensures { IfOk result (λ v. view_of v ≡ suggestions_data suggestions.now) }
{
    let mut list = Vec::new(alloc);
    for suggestion in suggestions {
        list.push(suggestion_value(alloc, suggestion)?)?;
    }
    Ok(Value::Array(list))
}

fn suggestion_value(alloc: Global, suggestion: &Suggestion) -> Result<Value, AllocError>
    ensures { IfOk result (λ v. view_of v ≡ object_of (suggestion_fields suggestion.now)) }
{
    let map = suggestion_map(alloc, suggestion)?;
    Ok(object_value(map))
}

fn suggestion_map(alloc: Global, suggestion: &Suggestion) -> Result<Map<String, Value>, AllocError>
    ensures { IfOk result
        (λ map. object (members_view map.entries) ≡ object_of (suggestion_fields suggestion.now)) }
{
    let mut map = Map::new(alloc);
    put(
        &mut map,
        alloc,
        "forms",
        strings_value(alloc, suggestion.forms.as_slice())?,
    )?;
    put(
        &mut map,
        alloc,
        "number",
        number_value(alloc, suggestion.number)?,
    )?;
    put(
        &mut map,
        alloc,
        "suggester",
        Value::try_from_str(alloc, suggestion.suggester.as_str())?,
    )?;
    put(
        &mut map,
        alloc,
        "votes",
        Value::from(suggestion.votes.sum()),
    )?;
    Ok(map)
}

/// A request's number, hyphenated and in lower case.
fn number_value(alloc: Global, number: Uuid) -> Result<Value, AllocError>
    ensures { IfOk result (λ v. view_of v ≡ number_data number) }
{
    let mut buffer = Uuid::encode_buffer();
    let written: &str = number.hyphenated().encode_lower(&mut buffer);
    Value::try_from_str(alloc, written)
}
