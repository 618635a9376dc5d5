//! What callers see of a unit, the flags of an entry, and empty forms.
use crate::unit_rows::parts::{entry, forms, unit};
use crate::unit_rows::stage::Stage;
use crate::unit_rows::words::state;
use crate::words::{word, yes_or_no};
use po_text::{Duplicate, Entry, Items};
use std::alloc::Global;
use units::{Revision, UnitState, UnitView, all_empty, has_flag, some_empty};

/// The unit's own entry, whose msgid was another.
const RENAMED: &str = "#| msgid \"Hi\"\nmsgid \"Hello\"\nmsgstr \"\"\n";

/// The template's entry, with this flag.
fn flagged(alloc: Global, flag: &str) -> Option<Entry> {
    let text = format!(in alloc; "#, {flag}\nmsgid \"Hello\"\nmsgstr \"\"\n").ok()?;
    entry(alloc, text.as_str())
}

/// The unit of such an entry, which needs editing since its msgid was another, in a state.
fn view_in(alloc: Global, flag: &str, state: UnitState) -> Option<UnitView> {
    let revision = Revision::try_new(1)?;
    let own = entry(alloc, RENAMED)?;
    let renamed = unit(
        alloc,
        own,
        UnitState::NeedsEditing,
        revision,
        Items::new(alloc),
    );
    Some(UnitView {
        unit: renamed.in_state(state),
        source: flagged(alloc, flag),
    })
}

/// Tells the state that a unit shows, whether it is read-only, and whether its previous msgid is kept.
fn tell_view(told: &mut String, view: &UnitView) -> Option<()> {
    let read_only = if view.is_read_only() {
        "read-only"
    } else {
        "open"
    };
    let previous = if view.unit.previous.id.is_some() {
        ", previous kept"
    } else {
        ""
    };
    write!(told, "{:?}, {read_only}{previous}", view.shown_state()).ok()
}

fn put_copy(stage: &mut Stage) -> Option<()> {
    match stage.views.last()?.duplicate() {
        Ok(copy) => stage.put(copy),
        Err(_) => None,
    }
}

/// Tells what the copy of such a unit shows.
pub(crate) fn tell_shown(
    alloc: Global,
    told: &mut String,
    stage: &mut Stage,
    words: &str,
    flag: &str,
) -> Option<()> {
    let state = state(word(words, 1))?;
    stage.put(view_in(alloc, flag, state)?)?;
    put_copy(stage)?;
    tell_view(told, stage.views.last()?)
}

/// Tells whether an entry with the flag has the other one.
pub(crate) fn tell_flag(alloc: Global, told: &mut String, words: &str, flag: &str) -> Option<()> {
    let entry = flagged(alloc, flag)?;
    let found = has_flag(entry.flags.as_slice(), word(words, 1));
    drop(entry);
    told.push_str(yes_or_no(found)).ok()
}

/// Tells whether all forms are empty, or some.
pub(crate) fn tell_empty(alloc: Global, told: &mut String, texts: &str) -> Option<()> {
    let forms = forms(alloc, texts)?;
    let all = yes_or_no(all_empty(forms.as_slice()));
    let some = yes_or_no(some_empty(forms.as_slice()));
    drop(forms);
    write!(told, "all {all}, some {some}").ok()
}
