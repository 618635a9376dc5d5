//! The words of a row.
use po_text::PoString;
use std::alloc::AllocError;
use units::{Revision, UnitState};

/// Two forms, of which the first serves one.
pub(crate) const TWO: &str = "nplurals=2; plural=n != 1;";

pub(crate) fn revision(word: &str) -> Option<Revision> {
    Revision::try_new(word.parse::<u64>().ok()?)
}

pub(crate) fn state(word: &str) -> Option<UnitState> {
    match word {
        "untranslated" => Some(UnitState::Untranslated),
        "needs-editing" => Some(UnitState::NeedsEditing),
        "translated" => Some(UnitState::Translated),
        "approved" => Some(UnitState::Approved),
        _ => None,
    }
}

/// Tells forms, each behind a stroke.
pub(crate) fn tell_forms(told: &mut String, forms: &[PoString]) -> Result<(), AllocError> {
    for form in forms {
        write!(told, "|{}", form.as_str())?;
    }
    Ok(())
}
