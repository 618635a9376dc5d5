//! What the PO texts of office acts spell.

ghost use Rattle.std.specs.Prelude.{◌≡◌, IfOk, find};
ghost use Rattle.std.specs.Option.{option_copied};
ghost use Rattle.po_text.specs.Entries.{is_header};
ghost use Rattle.po_read.specs.Plain.{reading_of};
ghost use Rattle.po_read.specs.Spells.{limits};
ghost use Rattle.units.specs.Rules.{plural_field, rule_in};
ghost use Rattle.outcomes.specs.Settled.{told};

use plural_expr::{PluralFault, PluralForms};
use po_lex::{FaultKind, PoFault};
use po_read::read;
use po_text::{Catalogue, Entry, Text, field_value};
use std::alloc::{AllocError, Global};
use template_update::is_header;
use units::Memory;

/// The catalogue of a PO text, or its first fault.
pub(crate) fn read_text(alloc: Global, po: &Text) -> Result<Result<Catalogue, PoFault>, Memory>
    ensures { IfOk result (λ found. reading_of limits po.now ≡ told found) }
{
    match read(alloc, po.as_str().as_bytes()) {
        Ok(catalogue) => Ok(Ok(catalogue)),
        Err(fault) => match fault.kind {
            FaultKind::Memory => Err(Memory::from(AllocError)),
            _ => Ok(Err(fault)),
        },
    }
}

/// The header entry.
pub(crate) fn header_of(entries: &[Entry]) -> Option<&Entry>
    ensures { option_copied result ≡ find is_header entries.now }
{
    for entry in entries {
        if is_header(entry) {
            return Some(entry);
        }
    }
    None
}

/// The value of the header's field `Plural-Forms`.
fn plural_field<'a>(header: Option<&'a Entry>) -> Option<&'a str>
    ensures { option_copied result ≡ plural_field (option_copied header.entry) }
{
    match header {
        None => None,
        Some(entry) => match entry.forms.as_slice() {
            [form, ..] => field_value(form.as_str(), "Plural-Forms"),
            [] => None,
        },
    }
}

/// The header's plural rule, or its fault; no fault where the header or the field is missing.
pub(crate) fn rule_of(
    alloc: Global,
    header: Option<&Entry>,
) -> Result<Result<PluralForms, Option<PluralFault>>, Memory>
    ensures { IfOk result (λ rule. rule ≡ rule_in (option_copied header.entry)) }
{
    let Some(field) = plural_field(header) else {
        return Ok(Err(None));
    };
    match PluralForms::parse(alloc, field) {
        Ok(rule) => Ok(Ok(rule)),
        Err(fault) => match fault {
            PluralFault::Memory => Err(Memory::from(AllocError)),
            fault => Ok(Err(Some(fault))),
        },
    }
}
