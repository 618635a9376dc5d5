//! What was found for an act on a unit, with other suggestions on the unit.
ghost use Rattle.std.specs.Prelude.{◌≡◌, IfOk, option_map};
ghost use Rattle.review.specs.Parts as part;
ghost use Rattle.outcomes.specs.UnitParts as spec;

use office_specification::ActContext;
use po_text::Items;
use std::alloc::{AllocError, Global};
use units::{Suggestion, UnitView};

/// The view, with these suggestions on its unit.
fn with_these(view: UnitView, suggestions: Items<Suggestion>) -> UnitView
    ensures { result ≡ part.with_these suggestions view }
{
    let UnitView { unit, source } = view;
    let mut unit = unit;
    unit.suggestions = suggestions;
    UnitView { unit, source }
}

/// What was found, with these suggestions on the unit, if it is there.
fn showing(found: ActContext, suggestions: Items<Suggestion>) -> ActContext
    ensures { result ≡ record found { view = option_map (part.with_these suggestions) found.view } }
{
    let ActContext {
        rule,
        policy,
        role,
        view,
    } = found;
    let view = match view {
        None => {
            drop(suggestions);
            None
        }
        Some(view) => Some(with_these(view, suggestions)),
    };
    ActContext {
        rule,
        policy,
        role,
        view,
    }
}

/// What was found, if anything was, with these suggestions on the unit, if it is there.
pub(crate) fn with_suggestions(
    found: Option<ActContext>,
    suggestions: Items<Suggestion>,
) -> Option<ActContext>
    ensures { result ≡ spec.shown suggestions found }
{
    match found {
        None => {
            drop(suggestions);
            None
        }
        Some(found) => Some(showing(found, suggestions)),
    }
}

/// One suggestion, or none.
pub(crate) fn at_most_one(
    alloc: Global,
    suggestion: Option<Suggestion>,
) -> Result<Items<Suggestion>, AllocError>
    ensures { IfOk result (λ items. items ≡ part.at_most_one suggestion) }
{
    let mut items = Items::new(alloc);
    if let Some(suggestion) = suggestion {
        items.push(suggestion)?;
    }
    Ok(items)
}
