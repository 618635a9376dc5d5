//! Whether a template keeps the rules of one.

ghost use Rattle.std.specs.Prelude.{◌≡◌, ◌↔◌, ◌&&◌, [], ◌∷◌, true, not, codes, All};
ghost use Rattle.po_text.specs.Entries.{is_header};
ghost use Rattle.units.specs.Projects.{IsTemplateEntry};
ghost use Rattle.units.specs.Units.{has_flag};
ghost use Rattle.rule_tests.specs.Parts.{IsUntouched};

use crate::unit_rules::{has_no_previous, hold_all};
use po_text::{Entry, Forms};
use units::has_flag;

/// Whether an entry can only be a header.
pub(crate) fn is_header(entry: &Entry) -> bool
    ensures { result ≡ is_header entry.now }
{
    entry.ctx.is_none() && entry.id.as_str().is_empty() && entry.plural.is_none() && !entry.obsolete
}

/// Whether the only form is empty.
fn is_one_empty(forms: &Forms) -> bool
    ensures { (result ≡ true) ↔ (forms.now ≡ [] ∷ []) }
{
    match forms.as_slice() {
        [form] => form.as_str().is_empty(),
        _ => false,
    }
}

/// Whether no translator worked on an entry.
fn is_untouched(entry: &Entry) -> bool
    ensures { (result ≡ true) ↔ IsUntouched entry.now }
{
    let bare = entry.translator.as_slice().is_empty();
    hold_all(
        is_one_empty(&entry.forms),
        bare,
        has_no_previous(&entry.previous),
    )
}

/// Whether an entry is current, no header's and not fuzzy.
fn is_plain(entry: &Entry) -> bool
    ensures { result ≡ (not entry.now.obsolete && (not (is_header entry.now) && not (has_flag entry.now.flags (codes "fuzzy")))) }
{
    hold_all(
        !entry.obsolete,
        !is_header(entry),
        !has_flag(entry.flags.as_slice(), "fuzzy"),
    )
}

/// Whether an entry may be one of a template.
fn is_template_entry(entry: &Entry) -> bool
    ensures { (result ≡ true) ↔ IsTemplateEntry entry.now }
{
    hold_all(is_plain(entry), is_untouched(entry), true)
}

/// Whether all entries may be those of a template.
pub(crate) fn are_template_entries(entries: &[Entry]) -> bool
    ensures { (result ≡ true) ↔ All IsTemplateEntry entries.now }
{
    for entry in entries {
        if !is_template_entry(entry) {
            return false;
        }
    }
    true
}
