//! A unit with its suggestions and their votes, and the template's entry of a key, as their rows are read.
ghost use Rattle.std.specs.Prelude.{◌≡◌, ◌&&◌, [], ◌∷◌, ◌++◌, true, IfOk, IfErr, OnOk, map, unwrap_or};
ghost use Rattle.std.specs.List.{list_all};
ghost use Rattle.sql_columns.specs.Readings.{previous_read};
ghost use Rattle.units.specs.Units.{no_previous as nothing_previous};
ghost use Rattle.sql_schema.specs.Keys.{text_at};
ghost use Rattle.sql_meaning.specs.Shown.{shown_votes, shown_entry, shown_unit};
ghost use Rattle.sql_decoding.specs.ShownContexts.{suggestion_shown};
ghost use Rattle.sql_decoding.specs.TablesRead.{with_votes};
ghost use Rattle.sql_decoding.specs.RowTests.{is_entry, has_unit_texts, has_unit_numbers, is_unit, is_suggestion, is_suggestion_with_votes, is_vote_on, IsUnread, is_entry_row};
ghost use Rattle.tables.specs.declared.faults.Lost.TheVariants.{Memory};
ghost use Rattle.std.specs.FinMap as maps;
ghost use Rattle.sql_meaning.specs.Values as values;
ghost use Rattle.sql_meaning.specs.Meaning as meaning;

use crate::columns::{key_at, plural_at, previous_at, texts_at};
use crate::faults::Failure;
use crate::integers::integer_at;
use crate::texts::text_at;
use po_text::{Duplicate, Entry, Forms, Items, PoString, Previous, Text};
use sql_statements::unit_rows::SuggestionRows;
use sqlite::Row;
use std::alloc::Global;
use units::{Key, Revision, Suggestion, Unit, UnitState, Votes, no_previous};

// ---- the template's entry

/// The columns of an entry.
#[derive(Drop)]
struct EntryColumns {
    plural: Option<PoString>,
    extracted: Items<Text>,
    references: Items<Text>,
    flags: Items<Text>,
}

fn entry_columns(alloc: Global, row: &Row) -> Result<EntryColumns, Failure>
    ensures shown { IfOk result (λ c. c ≡ record {
      plural = values.text_or_null_at 0 row.now;
      extracted = values.texts_at 1 row.now;
      references = values.texts_at 2 row.now;
      flags = values.texts_at 3 row.now;
    }) }
    ensures stands { OnOk result (is_entry row.now ≡ true) }
    ensures unread { IfErr result (IsUnread (is_entry row.now)) }
{
    let plural = plural_at(alloc, row, 0)?;
    let extracted = texts_at(alloc, row, 1)?;
    let references = texts_at(alloc, row, 2)?;
    let flags = texts_at(alloc, row, 3)?;
    Ok(EntryColumns {
        plural,
        extracted,
        references,
        flags,
    })
}

/// A key, and the forms of what nobody has translated.
fn untranslated(alloc: Global, key: &Key) -> Result<(Key, Forms), Failure>
    ensures shown { IfOk result (λ v. v ≡ (key.now, [] ∷ [])) }
    ensures memory { IfErr result (λ failure. failure.lost ≡ Memory) }
{
    let forms = Forms::one(alloc, PoString::empty(alloc))?;
    Ok((key.duplicate()?, forms))
}

/// The template's entry of a key.
pub fn entry_in(alloc: Global, key: &Key, row: &Row) -> Result<Entry, Failure>
    ensures shown { IfOk result (λ v. v ≡ shown_entry key.now row.now) }
    ensures stands { OnOk result (is_entry row.now ≡ true) }
    ensures unread { IfErr result (IsUnread (is_entry row.now)) }
{
    let columns = entry_columns(alloc, row)?;
    match untranslated(alloc, key) {
        Ok((key, forms)) => Ok(Entry {
            translator: Items::new(alloc),
            extracted: columns.extracted,
            references: columns.references,
            flags: columns.flags,
            previous: no_previous(),
            ctx: key.ctx,
            id: key.id,
            plural: columns.plural,
            forms,
            obsolete: false,
        }),
        Err(failure) => {
            drop(columns);
            Err(failure)
        }
    }
}

// ---- suggestions

/// Puts in the vote of a row.
pub fn put_vote(alloc: Global, votes: &mut Votes, row: &Row) -> Result<(), Failure>
    ensures shown { OnOk result (votes.new ≡ maps.insert votes.old (text_at 0 row.now) (values.vote_at 1 row.now)) }
    ensures stands { OnOk result (is_vote_on row.now ≡ true) }
    ensures unread { IfErr result (IsUnread (is_vote_on row.now)) }
{
    let voter = text_at(alloc, row, 0)?;
    let value = integer_at(row, 1)?;
    votes.insert(voter, value)?;
    Ok(())
}

/// The votes of rows.
fn votes_in(alloc: Global, rows: &[Row]) -> Result<Votes, Failure>
    ensures shown { IfOk result (λ v. v ≡ shown_votes rows.now) }
    ensures stands { OnOk result (list_all is_vote_on rows.now ≡ true) }
    ensures unread { IfErr result (IsUnread (list_all is_vote_on rows.now)) }
{
    let mut votes = Votes::new(alloc);
    for row in rows {
        put_vote(alloc, &mut votes, row)?;
    }
    Ok(votes)
}

/// The suggestion of a row, with these votes on it.
pub fn suggestion_with(alloc: Global, row: &Row, votes: Votes) -> Result<Suggestion, Failure>
    ensures shown { IfOk result (λ v. v ≡ with_votes votes row.now) }
    ensures stands { OnOk result (is_suggestion row.now ≡ true) }
    ensures unread { IfErr result (IsUnread (is_suggestion row.now)) }
{
    let number = text_at(alloc, row, 0)?;
    let suggester = text_at(alloc, row, 2)?;
    let forms = text_at(alloc, row, 3)?;
    Ok(Suggestion {
        number,
        suggester,
        forms,
        votes,
    })
}

/// A suggestion with the votes on it.
pub(crate) fn suggestion_in(alloc: Global, rows: &SuggestionRows) -> Result<Suggestion, Failure>
    ensures shown { IfOk result (λ v. v ≡ suggestion_shown rows.now) }
    ensures stands { OnOk result (is_suggestion_with_votes rows.now ≡ true) }
    ensures unread { IfErr result (IsUnread (is_suggestion_with_votes rows.now)) }
{
    let votes = votes_in(alloc, rows.votes.as_slice())?;
    suggestion_with(alloc, &rows.suggestion, votes)
}

/// Puts the suggestion of a row behind those before it.
fn push_suggestion(
    alloc: Global,
    all: &mut Items<Suggestion>,
    rows: &SuggestionRows,
) -> Result<(), Failure>
    ensures shown { OnOk result (all.new ≡ all.old ++ suggestion_shown rows.now ∷ []) }
    ensures stands { OnOk result (is_suggestion_with_votes rows.now ≡ true) }
    ensures unread { IfErr result (IsUnread (is_suggestion_with_votes rows.now)) }
{
    let suggestion = suggestion_in(alloc, rows)?;
    all.push(suggestion)?;
    Ok(())
}

/// The suggestions of rows.
fn suggestions_in(alloc: Global, rows: &[SuggestionRows]) -> Result<Items<Suggestion>, Failure>
    ensures shown { IfOk result (λ v. v ≡ map suggestion_shown rows.now) }
    ensures stands { OnOk result (list_all is_suggestion_with_votes rows.now ≡ true) }
    ensures unread { IfErr result (IsUnread (list_all is_suggestion_with_votes rows.now)) }
{
    let mut all = Items::new(alloc);
    for row in rows {
        push_suggestion(alloc, &mut all, row)?;
    }
    Ok(all)
}

/// Puts the suggestion of a row behind those before it, without the votes on it.
fn push_without_votes(alloc: Global, all: &mut Items<Suggestion>, row: &Row) -> Result<(), Failure>
    ensures shown { OnOk result (all.new ≡ all.old ++ with_votes maps.empty row.now ∷ []) }
    ensures stands { OnOk result (is_suggestion row.now ≡ true) }
    ensures unread { IfErr result (IsUnread (is_suggestion row.now)) }
{
    let suggestion = suggestion_with(alloc, row, Votes::new(alloc))?;
    all.push(suggestion)?;
    Ok(())
}

/// The suggestions of rows, without the votes on them.
pub fn suggestions_without_votes(alloc: Global, rows: &[Row]) -> Result<Items<Suggestion>, Failure>
    ensures shown { IfOk result (λ v. v ≡ map (with_votes maps.empty) rows.now) }
    ensures stands { OnOk result (list_all is_suggestion rows.now ≡ true) }
    ensures unread { IfErr result (IsUnread (list_all is_suggestion rows.now)) }
{
    let mut all = Items::new(alloc);
    for row in rows {
        push_without_votes(alloc, &mut all, row)?;
    }
    Ok(all)
}

// ---- the unit

/// The columns of a unit that are texts.
#[derive(Drop)]
struct UnitTexts {
    plural: Option<PoString>,
    forms: Forms,
    comment: Items<Text>,
    previous: Previous,
}

fn unit_texts(alloc: Global, row: &Row) -> Result<UnitTexts, Failure>
    ensures shown { IfOk result (λ c. c ≡ record {
      plural = values.text_or_null_at 0 row.now;
      forms = values.texts_at 1 row.now;
      comment = values.texts_at 5 row.now;
      previous = unwrap_or (previous_read (text_at 6 row.now)) nothing_previous;
    }) }
    ensures stands { OnOk result (has_unit_texts row.now ≡ true) }
    ensures unread { IfErr result (IsUnread (has_unit_texts row.now)) }
{
    let plural = plural_at(alloc, row, 0)?;
    let forms = text_at(alloc, row, 1)?;
    let comment = texts_at(alloc, row, 5)?;
    let previous = previous_at(alloc, row, 6)?;
    Ok(UnitTexts {
        plural,
        forms,
        comment,
        previous,
    })
}

/// The columns of a unit that are numbers.
#[derive(Drop)]
pub struct UnitNumbers {
    pub state: UnitState,
    pub obsolete: bool,
    pub revision: Revision,
}

/// The numbers that a unit's row shows.
pub fn unit_numbers(row: &Row) -> Result<UnitNumbers, Failure>
    ensures shown { IfOk result (λ c. c ≡ record {
      state = values.state_at 2 row.now;
      obsolete = values.flag_at 3 row.now;
      revision = values.natural_at 4 row.now;
    }) }
    ensures stands { OnOk result (has_unit_numbers row.now ≡ true) }
    ensures unread { IfErr result (IsUnread (has_unit_numbers row.now)) }
{
    Ok(UnitNumbers {
        state: integer_at(row, 2)?,
        obsolete: integer_at(row, 3)?,
        revision: integer_at(row, 4)?,
    })
}

/// The unit of a key, with these suggestions.
pub fn unit_with(
    alloc: Global,
    key: &Key,
    row: &Row,
    suggestions: Items<Suggestion>,
) -> Result<Unit, Failure>
    ensures shown { IfOk result (λ v. v ≡ shown_unit key.now suggestions row.now) }
    ensures stands { OnOk result (is_unit row.now ≡ true) }
    ensures unread { IfErr result (IsUnread (is_unit row.now)) }
{
    let numbers = unit_numbers(row)?;
    let texts = unit_texts(alloc, row)?;
    let key = key.duplicate()?;
    Ok(Unit {
        key,
        plural: texts.plural,
        forms: texts.forms,
        state: numbers.state,
        obsolete: numbers.obsolete,
        revision: numbers.revision,
        comment: texts.comment,
        previous: texts.previous,
        suggestions,
    })
}

/// The unit of a key, with the suggestions of these rows.
pub(crate) fn unit_in(
    alloc: Global,
    key: &Key,
    row: &Row,
    suggestions: &[SuggestionRows],
) -> Result<Unit, Failure>
    ensures shown { IfOk result (λ v. v ≡ shown_unit key.now (map suggestion_shown suggestions.now) row.now) }
    ensures stands { OnOk result ((list_all is_suggestion_with_votes suggestions.now && is_unit row.now) ≡ true) }
    ensures unread { IfErr result (IsUnread ((list_all is_suggestion_with_votes suggestions.now && is_unit row.now))) }
{
    let suggestions = suggestions_in(alloc, suggestions)?;
    unit_with(alloc, key, row, suggestions)
}

// ---- the template

/// The template's entry of a row.
pub fn template_entry(alloc: Global, row: &Row) -> Result<Entry, Failure>
    ensures shown { IfOk result (λ entry. entry ≡ shown_entry (meaning.key_at 4 row.now) row.now) }
    ensures stands { OnOk result (is_entry_row row.now ≡ true) }
    ensures unread { IfErr result (IsUnread (is_entry_row row.now)) }
{
    let key = key_at(alloc, row, 4)?;
    entry_in(alloc, &key, row)
}
