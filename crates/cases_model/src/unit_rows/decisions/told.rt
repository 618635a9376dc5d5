//! What a decision tells, and what is left.
use crate::unit_rows::words::tell_forms;
use review::{Decision, Values};
use std::alloc::AllocError;
use units::{Revision, ShownState, UnitView};

pub(super) fn tell_decision(told: &mut String, decision: &Decision) -> Result<(), AllocError> {
    match decision {
        Decision::Done(view, values) => tell_values(told, view, *values),
        Decision::Refused(refusal) => write!(told, "{refusal:?}"),
    }
}

fn tell_state(told: &mut String, revision: Revision, state: ShownState) -> Result<(), AllocError> {
    write!(told, "{} {state:?}", revision.number())
}

fn tell_values(told: &mut String, view: &UnitView, values: Values) -> Result<(), AllocError> {
    match values {
        Values::Plain { revision, state } => {
            let keeps_previous = view.unit.previous.id.is_some();
            let previous = if keeps_previous { " with previous" } else { "" };
            tell_state(told, revision, state).and(told.push_str(previous))
        }
        Values::Suggested {
            revision,
            state,
            suggestion,
            votes,
        } => {
            let number = suggestion.as_u128();
            tell_state(told, revision, state).and(write!(told, " suggestion {number} {votes}"))
        }
        Values::Voted {
            accepted,
            revision,
            state,
            votes,
        } => {
            let what = if accepted { "accepted" } else { "voted" };
            tell_state(told, revision, state).and(write!(told, " {what} {votes}"))
        }
    }
}

/// Tells the numbers of the suggestions, and the forms.
pub(super) fn tell_left(told: &mut String, view: &UnitView) -> Result<(), AllocError> {
    for suggestion in view.unit.suggestions.as_slice() {
        write!(told, "{} ", suggestion.number.as_u128())?;
    }
    tell_forms(told, view.unit.forms.as_slice())
}
