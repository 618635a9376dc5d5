//! How many units of a language are in each state.

ghost use Rattle.std.specs.Prelude.{◌≡◌, ◌+◌, [], ◌∷◌, List, OnOk};
ghost use Rattle.std.specs.Option.{option_copied};
ghost use Rattle.po_text.specs.declared.entry.Entry.{Entry as EntryValue};
ghost use Rattle.units.specs.Units as spec;
ghost use Rattle.units.specs.Project.{entry_of};
ghost use Rattle.office_specification.specs.Tally.{counts_in};
ghost use Rattle.office_specification.specs.Counting.{none_counted, plus, one_more};

use po_text::Entry;
use std::alloc::AllocError;
use units::{ShownState, Unit, has_flag};

/// How many units of a language callers see in each state: read-only while the template's entry has that flag, else the stored
/// state. An obsolete unit counts as obsolete and as nothing else.
#[derive(Clone, Copy, Debug, PartialEq, Eq)]
pub struct Tally {
    pub approved: usize,
    pub needs_editing: usize,
    pub obsolete: usize,
    pub read_only: usize,
    /// The suggestions of the units that aren't obsolete: an obsolete one has none.
    pub suggestions: usize,
    pub translated: usize,
    pub untranslated: usize,
}

/// Whether the template's entry of a unit has the flag `read-only`.
fn is_read_only(entry: Option<&Entry>) -> bool
    ensures { result ≡ spec.is_read_only (option_copied entry.entry) }
{
    match entry {
        Some(entry) => has_flag(entry.flags.as_slice(), "read-only"),
        None => false,
    }
}

/// What callers see as the state of a unit.
fn shown_state(entry: Option<&Entry>, unit: &Unit) -> ShownState
    ensures { result ≡ spec.shown_state (option_copied entry.entry) unit.now }
{
    if is_read_only(entry) {
        ShownState::ReadOnly
    } else {
        unit.shown_state(&None)
    }
}

/// Raises a count; not past a machine word.
fn raise(count: &mut usize, by: usize) -> Result<(), AllocError>
    ensures { OnOk result (count.new ≡ count.old + by) }
{
    match count.checked_add(by) {
        Some(sum) => {
            *count = sum;
            Ok(())
        }
        None => Err(AllocError),
    }
}

impl Tally {
    /// Of no unit.
    pub fn none() -> Tally
        ensures { result ≡ none_counted }
    {
        Tally {
            approved: 0,
            needs_editing: 0,
            obsolete: 0,
            read_only: 0,
            suggestions: 0,
            translated: 0,
            untranslated: 0,
        }
    }

    /// Counts one more unit, whose entry in the template this is.
    ///
    /// `AllocError` where a count would pass a machine word, which none does in an office that keeps its rules.
    pub fn add(&mut self, entry: Option<&Entry>, unit: &Unit) -> Result<(), AllocError>
        ensures { OnOk result ((template : List EntryValue) → option_copied entry.entry ≡ entry_of template unit.now.key →
            self.new ≡ plus self.old (counts_in template (unit.now ∷ []))) }
    {
        if unit.obsolete {
            return raise(&mut self.obsolete, 1);
        }
        raise(&mut self.suggestions, unit.suggestions.as_slice().len())?;
        self.add_shown(shown_state(entry, unit))
    }

    fn add_shown(&mut self, state: ShownState) -> Result<(), AllocError>
        ensures { OnOk result (self.new ≡ one_more state self.old) }
    {
        match state {
            ShownState::Untranslated => raise(&mut self.untranslated, 1),
            ShownState::NeedsEditing => raise(&mut self.needs_editing, 1),
            ShownState::Translated => raise(&mut self.translated, 1),
            ShownState::Approved => raise(&mut self.approved, 1),
            ShownState::ReadOnly => raise(&mut self.read_only, 1),
        }
    }
}
