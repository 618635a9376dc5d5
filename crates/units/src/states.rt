//! What roles may do, what units show and which forms they need.
ghost use Rattle.std.specs.Prelude.{◌≡◌, if◌then◌else◌};
ghost use Rattle.std.specs.Option.{option_copied};
ghost use Rattle.units.specs.Units as spec;

use crate::unit::{Role, ShownState, Unit, UnitState, UnitView};
use plural_expr::PluralForms;
use po_text::{Entry, PoString, Previous, Text};

impl Role {
    /// Whether this role has fewer rights than another: a guest has the fewest, then come translator, reviewer and
    /// manager.
    pub fn is_below(self, least: Role) -> bool
        ensures { result ≡ spec.is_below self least }
    {
        rank(self) < rank(least)
    }
}

fn rank(role: Role) -> u8
    ensures { result ≡ spec.rank role }
{
    match role {
        Role::Guest => 0,
        Role::Translator => 1,
        Role::Reviewer => 2,
        Role::Manager => 3,
    }
}

/// No previous strings: what a unit has that doesn't need editing.
pub fn no_previous() -> Previous
    ensures { result ≡ spec.no_previous }
{
    Previous {
        ctx: None,
        id: None,
        plural: None,
    }
}

/// Whether a flag is among these.
pub fn has_flag(flags: &[Text], flag: &str) -> bool
    ensures { result ≡ spec.has_flag flags.now flag.now }
{
    flags.iter().any(|other| flag == other.as_str())
}

/// How many forms a unit with this msgid_plural needs: as many as the language's plural rule counts, or one where
/// there is no msgid_plural. (GNU gettext manual, "Plural forms".)
pub fn forms_needed(rule: &PluralForms, plural: Option<&PoString>) -> u32
    ensures { result ≡ spec.forms_needed rule.now (option_copied plural.entry) }
{
    match plural {
        None => 1,
        Some(_) => rule.count(),
    }
}

/// Whether no form has a translation.
pub fn all_empty(forms: &[PoString]) -> bool
    ensures { result ≡ spec.all_empty forms.now }
{
    forms.iter().all(|form| form.as_str().is_empty())
}

/// Whether a form still lacks a translation.
pub fn some_empty(forms: &[PoString]) -> bool
    ensures { result ≡ spec.some_empty forms.now }
{
    forms.iter().any(|form| form.as_str().is_empty())
}

/// Whether the template's entry, if there is one, has the flag `read-only`.
pub fn is_read_only(source: &Option<Entry>) -> bool
    ensures { result ≡ spec.is_read_only source.now }
{
    match source {
        None => false,
        Some(entry) => has_flag(entry.flags.as_slice(), "read-only"),
    }
}

impl UnitView {
    /// Whether the template's entry has the flag `read-only`.
    pub fn is_read_only(&self) -> bool
        ensures { result ≡ spec.is_read_only self.now.source }
    {
        is_read_only(&self.source)
    }

    /// The state that callers see: read-only while the template's entry has that flag, else the stored one.
    pub fn shown_state(&self) -> ShownState
        ensures { result ≡ spec.shown_state self.now.source self.now.unit }
    {
        self.unit.shown_state(&self.source)
    }
}

fn stored_as_shown(state: UnitState) -> ShownState
    ensures { result ≡ spec.stored_as_shown state }
{
    match state {
        UnitState::Untranslated => ShownState::Untranslated,
        UnitState::NeedsEditing => ShownState::NeedsEditing,
        UnitState::Translated => ShownState::Translated,
        UnitState::Approved => ShownState::Approved,
    }
}

impl Unit {
    /// The state that callers see: read-only while the template's entry has that flag, else the stored one.
    pub fn shown_state(&self, source: &Option<Entry>) -> ShownState
        ensures { result ≡ spec.shown_state source.now self.now }
    {
        if is_read_only(source) {
            ShownState::ReadOnly
        } else {
            stored_as_shown(self.state)
        }
    }

    /// The unit in a state. Previous strings are kept only while the unit needs editing.
    pub fn in_state(self, state: UnitState) -> Unit
        ensures { result ≡ spec.in_state state self }
    {
        let mut unit = self;
        unit.state = state;
        unit.previous = kept_previous(state, unit.previous);
        unit
    }
}

fn kept_previous(state: UnitState, previous: Previous) -> Previous
    ensures { result ≡ spec.kept_previous state previous }
{
    if state == UnitState::NeedsEditing {
        previous
    } else {
        drop(previous);
        no_previous()
    }
}
