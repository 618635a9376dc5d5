//! Units after an act, and the decisions that hand them on.
ghost use Rattle.std.specs.Prelude.{◌≡◌, ◌+◌, nat_lt, if◌then◌else◌, false, IfOk};
ghost use Rattle.units.specs.Limits.{revision_limit};
ghost use Rattle.units.specs.Units.{in_state};
ghost use Rattle.review.specs.UnitStep as spec;

use crate::decision::{Decision, Values};
use po_text::{Duplicate, Forms, Items, PoString, Previous, Text};
use std::alloc::AllocError;
use units::{Key, Memory, Revision, Suggestion, Unit, UnitState, UnitView};

/// The revision after the unit's, where there is one.
pub(crate) fn next_revision(unit: &Unit) -> Option<Revision>
    ensures { result ≡ (if nat_lt revision_limit (unit.now.revision + 1) then None else Some (unit.now.revision + 1)) }
{
    unit.revision.next()
}

/// The unit's revision, which is never past the last.
pub(crate) fn revision_of(unit: &Unit) -> Revision
    ensures value { result ≡ unit.now.revision }
    ensures within { nat_lt revision_limit unit.now.revision ≡ false }
{
    let _number = unit.revision.number();
    unit.revision
}

/// A unit's key, msgid_plural and forms.
#[derive(Drop)]
struct Message {
    key: Key,
    plural: Option<PoString>,
    forms: Forms,
}

/// A unit's comment and what it was before.
#[derive(Drop)]
struct Remarks {
    comment: Items<Text>,
    previous: Previous,
}

fn message_of(unit: &Unit) -> Result<Message, AllocError>
    ensures key { IfOk result (λ m. m.key ≡ unit.now.key) }
    ensures plural { IfOk result (λ m. m.plural ≡ unit.now.plural) }
    ensures forms { IfOk result (λ m. m.forms ≡ unit.now.forms) }
{
    let forms = unit.forms.duplicate()?;
    let plural = unit.plural.duplicate()?;
    let key = unit.key.duplicate()?;
    Ok(Message { key, plural, forms })
}

fn remarks_of(unit: &Unit) -> Result<Remarks, AllocError>
    ensures comment { IfOk result (λ r. r.comment ≡ unit.now.comment) }
    ensures previous { IfOk result (λ r. r.previous ≡ unit.now.previous) }
{
    let comment = unit.comment.duplicate()?;
    let previous = unit.previous.duplicate()?;
    Ok(Remarks { comment, previous })
}

/// The unit of these parts, and of what else `unit` is.
fn put_together(
    unit: &Unit,
    message: Message,
    remarks: Remarks,
    suggestions: Items<Suggestion>,
) -> Unit
    ensures { result ≡ record unit.now { key = message.key; plural = message.plural; forms = message.forms; comment = remarks.comment; previous = remarks.previous; suggestions = suggestions } }
{
    let Message { key, plural, forms } = message;
    let Remarks { comment, previous } = remarks;
    Unit {
        key,
        plural,
        forms,
        state: unit.state,
        obsolete: unit.obsolete,
        revision: unit.revision,
        comment,
        previous,
        suggestions,
    }
}

/// A copy of the unit with these suggestions.
///
/// `AllocError` where a growth was refused.
pub fn with_suggestions(unit: &Unit, suggestions: Items<Suggestion>) -> Result<Unit, AllocError>
    ensures { IfOk result (λ u. u ≡ record unit.now { suggestions = suggestions }) }
{
    let remarks = match remarks_of(unit) {
        Ok(remarks) => remarks,
        Err(refused) => {
            drop(suggestions);
            return Err(refused);
        }
    };
    match message_of(unit) {
        Ok(message) => Ok(put_together(unit, message, remarks, suggestions)),
        Err(refused) => {
            drop(remarks);
            drop(suggestions);
            Err(refused)
        }
    }
}

/// The unit with these forms, in this state and at this revision.
pub(crate) fn with_forms(unit: Unit, forms: Forms, state: UnitState, revision: Revision) -> Unit
    ensures { result ≡ record (in_state state (record unit { forms = forms })) { revision = revision } }
{
    let mut unit = unit;
    unit.forms = forms;
    unit.revision = revision;
    unit.in_state(state)
}

/// The view with this unit, and the same template entry.
pub(crate) fn in_view(view: &UnitView, unit: Unit) -> Result<UnitView, AllocError>
    ensures { IfOk result (λ v. v ≡ record view.now { unit = unit }) }
{
    match view.source.duplicate() {
        Ok(source) => Ok(UnitView { unit, source }),
        Err(refused) => {
            drop(unit);
            Err(refused)
        }
    }
}

/// The act is done: the view has this unit.
pub(crate) fn done(view: &UnitView, unit: Unit, values: Values) -> Result<Decision, Memory>
    ensures { IfOk result (λ d. d ≡ Decision.Done (record view.now { unit = unit }) values) }
{
    let after = in_view(view, unit)?;
    Ok(Decision::Done(after, values))
}

/// The act is done, and the reply tells the unit's revision and state alone.
pub(crate) fn done_plainly(view: &UnitView, unit: Unit) -> Result<Decision, Memory>
    ensures { IfOk result (λ d. d ≡ Decision.Done (record view.now { unit = unit }) (spec.plain_values view.now unit)) }
{
    let values = Values::Plain {
        revision: unit.revision,
        state: unit.shown_state(&view.source),
    };
    done(view, unit, values)
}
