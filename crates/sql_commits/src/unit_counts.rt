//! What one unit counts in a tally.
ghost use Rattle.std.specs.Prelude.{◌≡◌, List, Option, IfOk};
ghost use Rattle.office_specification.specs.Counting.{none_counted, one_more};
ghost use Rattle.sql_commits.specs.Counted.{HasValues, HasValuesIf, CountsOneMore};
ghost use Rattle.sql_figures.specs.KeptTallies.{counted_at};
ghost use Rattle.tables.specs.Tallies.{counted as counts_one};
ghost use Rattle.units.specs.Project.{entry_of};
ghost use Rattle.units.specs.Units.{shown_state, stored_as_shown};
ghost use Rattle.units.specs.declared.unit.Key.{Key as KeyValue};
ghost use Rattle.units.specs.declared.unit.Unit.{Unit as UnitValue};
ghost use Rattle.po_text.specs.declared.entry.Entry.{Entry as EntryValue};

use office_specification::Tally;
use po_text::Entry;
use sql_decoding::UnitNumbers;
use std::alloc::AllocError;
use units::{ShownState, Unit, UnitState, is_read_only};

/// What a tally counts of a unit.
#[derive(Drop)]
pub struct CountedValues {
    pub state: UnitState,
    pub obsolete: bool,
    /// How many suggestions it has.
    pub suggestions: usize,
}

/// The values of a unit whose row shows these numbers, and that has so many suggestions.
pub fn values_of(numbers: &UnitNumbers, suggestions: usize) -> CountedValues
    ensures { result ≡ record { state = numbers.now.state; obsolete = numbers.now.obsolete; suggestions = suggestions } }
{
    CountedValues {
        state: numbers.state,
        obsolete: numbers.obsolete,
        suggestions,
    }
}

/// The values of a unit that has so many suggestions.
pub fn values_beside(unit: &Unit, suggestions: usize) -> CountedValues
    ensures { result ≡ record { state = unit.now.state; obsolete = unit.now.obsolete; suggestions = suggestions } }
{
    CountedValues {
        state: unit.state,
        obsolete: unit.obsolete,
        suggestions,
    }
}

/// What a unit counts, whose entry in the template this is.
pub fn counted(source: &Option<Entry>, unit: &Unit) -> Result<Tally, AllocError>
    ensures { IfOk result (λ tally. (template : List EntryValue) → source.now ≡ entry_of template unit.now.key → tally ≡ counts_one template unit.now) }
{
    let mut tally = Tally::none();
    tally.add(source.as_ref(), unit)?;
    Ok(tally)
}

/// What the unit of a key counts that has these values, and whose entry in the template this is; nothing where there is none.
pub fn counted_there(source: &Option<Entry>, there: &Option<CountedValues>) -> Tally
    ensures { (template : List EntryValue) (key : KeyValue) (unit : Option UnitValue) → source.now ≡ entry_of template key → HasValuesIf key unit there.now → result ≡ counted_at template unit }
{
    match there {
        Some(values) => counted_so(source, values),
        None => Tally::none(),
    }
}

/// What a unit counts that has these values, and whose entry in the template this is.
pub fn counted_so(source: &Option<Entry>, values: &CountedValues) -> Tally
    ensures { (template : List EntryValue) (unit : UnitValue) → source.now ≡ entry_of template unit.key → HasValues unit values.now → result ≡ counts_one template unit }
{
    if values.obsolete {
        let mut tally = Tally::none();
        tally.obsolete = 1;
        tally
    } else {
        shown_once(shown(source, values.state), values.suggestions)
    }
}

/// What a suggestion more on a unit counts: nothing where the unit is obsolete.
pub fn one_suggestion(obsolete: bool) -> Tally
    ensures { CountsOneMore obsolete result }
{
    if obsolete {
        Tally::none()
    } else {
        let mut tally = Tally::none();
        tally.suggestions = 1;
        tally
    }
}

/// What a unit counts that is shown in this state, and that has this many suggestions.
fn shown_once(state: ShownState, suggestions: usize) -> Tally
    ensures { result ≡ one_more state (record none_counted { suggestions = suggestions }) }
{
    let mut tally = Tally::none();
    tally.suggestions = suggestions;
    match state {
        ShownState::Untranslated => tally.untranslated = 1,
        ShownState::NeedsEditing => tally.needs_editing = 1,
        ShownState::Translated => tally.translated = 1,
        ShownState::Approved => tally.approved = 1,
        ShownState::ReadOnly => tally.read_only = 1,
    }
    tally
}

/// What callers see as the state of a unit, whose entry in the template this is.
fn shown(source: &Option<Entry>, state: UnitState) -> ShownState
    ensures { (unit : UnitValue) → unit.state ≡ state → result ≡ shown_state source.now unit }
{
    if is_read_only(source) {
        ShownState::ReadOnly
    } else {
        stored_shown(state)
    }
}

/// What callers see of a stored state, where the template doesn't make the unit read-only.
fn stored_shown(state: UnitState) -> ShownState
    ensures { result ≡ stored_as_shown state }
{
    match state {
        UnitState::Untranslated => ShownState::Untranslated,
        UnitState::NeedsEditing => ShownState::NeedsEditing,
        UnitState::Translated => ShownState::Translated,
        UnitState::Approved => ShownState::Approved,
    }
}
