//! The entries of an export: the template's, each with its unit, and those of obsolete units.
ghost use Rattle.std.specs.Prelude.{◌≡◌, ◌&&◌, [], true, IfOk, IfErr, OnOk, Some, None, unwrap_or, if◌then◌else◌};
ghost use Rattle.po_text.specs.Strings.{is_string};
ghost use Rattle.sql_columns.specs.Readings.{previous_read};
ghost use Rattle.units.specs.Units.{no_previous as nothing_previous};
ghost use Rattle.sql_schema.specs.Keys.{text_at};
ghost use Rattle.sql_meaning.specs.Values as values;
ghost use Rattle.sql_meaning.specs.Meaning as meaning;
ghost use Rattle.sql_decoding.specs.ShownEntries.{flags_behind, message_shown, obsolete_shown, is_translated_row, has_own, is_message_row, is_obsolete_row};
ghost use Rattle.sql_decoding.specs.RowTests.{holds_text, holds_text_or_null, is_key, IsUnread};

use crate::columns::{key_at, plural_at, previous_at, texts_at};
use crate::faults::Failure;
use crate::integers::integer_at;
use crate::texts::text_at;
use crate::units_read::template_entry;
use po_text::{Entry, Forms, Items, PoString, Previous, Text};
use sqlite::Row;
use std::alloc::{AllocError, Global};
use units::{Key, UnitState, all_empty};

/// What an entry has of its unit.
#[derive(Drop)]
struct Own {
    forms: Forms,
    state: UnitState,
    comment: Items<Text>,
    previous: Previous,
}

/// It is read from four columns.
fn own_in(
    alloc: Global,
    row: &Row,
    forms: usize,
    state: usize,
    comment: usize,
    previous: usize,
) -> Result<Own, Failure>
    ensures shown { IfOk result (λ own. own ≡ record {
      forms = values.texts_at forms row.now;
      state = values.state_at state row.now;
      comment = values.texts_at comment row.now;
      previous = unwrap_or (previous_read (text_at previous row.now)) nothing_previous;
    }) }
    ensures stands { OnOk result (has_own forms state comment previous row.now ≡ true) }
    ensures unread { IfErr result (IsUnread (has_own forms state comment previous row.now)) }
{
    let forms = text_at(alloc, row, forms)?;
    let state = integer_at(row, state)?;
    let comment = texts_at(alloc, row, comment)?;
    let previous = previous_at(alloc, row, previous)?;
    Ok(Own {
        forms,
        state,
        comment,
        previous,
    })
}

/// Flags, with `fuzzy` first exactly where the stored state is needs editing.
fn flags_with(
    alloc: Global,
    state: UnitState,
    flags: Items<Text>,
) -> Result<Items<Text>, AllocError>
    ensures { IfOk result (λ all. all ≡ flags_behind state flags) }
{
    if state != UnitState::NeedsEditing {
        return Ok(flags);
    }
    let fuzzy = Text::from_text(alloc, "fuzzy")?;
    let mut all = flags.into_vec();
    all.insert(0, fuzzy)?;
    Ok(Items::from_vec(all))
}

/// An entry with what it has of its unit.
fn with_own(alloc: Global, entry: Entry, own: Own) -> Result<Entry, Failure>
    ensures shown { IfOk result (λ made. made ≡ record entry {
      translator = own.comment;
      flags = flags_behind own.state entry.flags;
      previous = own.previous;
      forms = own.forms;
    }) }
    ensures unread { IfErr result (IsUnread true) }
{
    let flags = flags_with(alloc, own.state, entry.flags)?;
    Ok(Entry {
        translator: own.comment,
        extracted: entry.extracted,
        references: entry.references,
        flags,
        previous: own.previous,
        ctx: entry.ctx,
        id: entry.id,
        plural: entry.plural,
        forms: own.forms,
        obsolete: entry.obsolete,
    })
}

/// The template's entry of a row, with the unit that stands beside it.
pub fn message_in(alloc: Global, row: &Row) -> Result<Entry, Failure>
    ensures shown { IfOk result (λ entry. entry ≡ message_shown row.now) }
    ensures stands { OnOk result (is_message_row row.now ≡ true) }
    ensures unread { IfErr result (IsUnread (is_message_row row.now)) }
{
    let entry = template_entry(alloc, row)?;
    let own = own_in(alloc, row, 6, 7, 8, 9)?;
    with_own(alloc, entry, own)
}

/// The msgid_plural and the key of an obsolete unit.
fn message_of(alloc: Global, row: &Row) -> Result<(Option<PoString>, Key), Failure>
    ensures shown { IfOk result (λ v. v ≡ (values.text_or_null_at 0 row.now, meaning.key_at 5 row.now)) }
    ensures stands { OnOk result ((holds_text_or_null is_string 0 row.now && holds_text is_key 5 row.now) ≡ true) }
    ensures unread { IfErr result (IsUnread (holds_text_or_null is_string 0 row.now && holds_text is_key 5 row.now)) }
{
    let plural = plural_at(alloc, row, 0)?;
    let key = key_at(alloc, row, 5)?;
    Ok((plural, key))
}

/// The entry of the row of an obsolete unit, if the unit has a nonempty form.
pub fn obsolete_in(alloc: Global, row: &Row) -> Result<Option<Entry>, Failure>
    ensures shown { IfOk result (λ entry. entry ≡ (if is_translated_row row.now then Some (obsolete_shown row.now) else None)) }
    ensures stands { OnOk result (is_obsolete_row row.now ≡ true) }
    ensures unread { IfErr result (IsUnread (is_obsolete_row row.now)) }
{
    let (plural, key) = message_of(alloc, row)?;
    let own = own_in(alloc, row, 1, 2, 3, 4)?;
    if all_empty(own.forms.as_slice()) {
        return Ok(None);
    }
    let flags = flags_with(alloc, own.state, Items::new(alloc))?;
    Ok(Some(Entry {
        translator: own.comment,
        extracted: Items::new(alloc),
        references: Items::new(alloc),
        flags,
        previous: own.previous,
        ctx: key.ctx,
        id: key.id,
        plural,
        forms: own.forms,
        obsolete: true,
    }))
}
