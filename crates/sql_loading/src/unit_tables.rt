//! The votes and the suggestions of whole tables, each at hand where its suggestion or its unit is read.
ghost use Rattle.std.specs.Prelude.{◌≡◌, ◌&&◌, ℕ, Bool, true, List, [], ◌∷◌, ◌++◌, IfOk, IfErr, OnOk, if◌then◌else◌, string_bytes};
ghost use Rattle.std.specs.List.{list_all};
ghost use Rattle.std.specs.Ordering.{is_eq};
ghost use Rattle.std.specs.FinMap as maps;
ghost use Rattle.po_text.specs.Texts.{Text};
ghost use Rattle.sql_schema.specs.Keys.{text_at, has_text};
ghost use Rattle.sql_meaning.specs.Values.{vote_at};
ghost use Rattle.sql_meaning.specs.OfficeShown.{votes_shown, is_of_unit, suggestions_shown};
ghost use Rattle.sql_decoding.specs.TablesRead.{votes_of, suggestions_of, with_own_votes, suggestions_among, by_texts, two_bytes};
ghost use Rattle.sql_decoding.specs.RowTests.{holds_text, any_text, has_place, is_suggestion, is_suggestion_row, is_vote_row, IsUnread};

use po_text::{Duplicate, Items};
use sql_decoding::{Failure, put_vote, suggestion_with, text_in};
use sql_statements::whole_office::UnitTables;
use sqlite::Row;
use std::alloc::{AllocError, Global};
use std::collections::BTreeMap;
use units::{Suggestion, Votes};

// ---- votes

/// Puts the vote of a row among those on its suggestion.
fn put_vote_on(alloc: Global, all: &mut BTreeMap<String, Votes>, row: &Row) -> Result<(), Failure>
    ensures shown { OnOk result ((number : Text) → votes_of all.new number
        ≡ (if has_text 2 number row.now then maps.insert (votes_of all.old number) (text_at 0 row.now) (vote_at 1 row.now) else votes_of all.old number)) }
    ensures stands { OnOk result (is_vote_row row.now ≡ true) }
    ensures unread { IfErr result (IsUnread (is_vote_row row.now)) }
{
    let number = text_in(row, 2)?;
    let mut own = match all.remove(number.as_str()) {
        Some(votes) => votes,
        None => Votes::new(alloc),
    };
    put_vote(alloc, &mut own, row)?;
    all.insert(number, own)?;
    Ok(())
}

/// The votes of rows, under the texts of their suggestions' numbers.
///
/// `Memory` where a growth was refused, and `Disk` only where a row stands for no vote.
pub fn votes_by_number(alloc: Global, rows: &[Row]) -> Result<BTreeMap<String, Votes>, Failure>
    ensures shown { IfOk result (λ all. (number : Text) → votes_of all number ≡ votes_shown rows.now number) }
    ensures stands { OnOk result (list_all is_vote_row rows.now ≡ true) }
    ensures unread { IfErr result (IsUnread (list_all is_vote_row rows.now)) }
{
    let mut all = BTreeMap::new(alloc);
    for row in rows {
        put_vote_on(alloc, &mut all, row)?;
    }
    Ok(all)
}

/// A copy of the votes on a number.
fn votes_on(alloc: Global, all: &BTreeMap<String, Votes>, number: &str) -> Result<Votes, AllocError>
    ensures { IfOk result (λ votes. votes ≡ votes_of all.now number.now) }
{
    match all.get(number) {
        Some(votes) => votes.duplicate(),
        None => Ok(Votes::new(alloc)),
    }
}

// ---- suggestions

/// The suggestion of a row, with those of all votes that are on it.
fn suggestion_of(
    alloc: Global,
    votes: &BTreeMap<String, Votes>,
    row: &Row,
) -> Result<Suggestion, Failure>
    ensures shown { IfOk result (λ v. v ≡ with_own_votes votes.now row.now) }
    ensures stands { OnOk result (is_suggestion row.now ≡ true) }
    ensures unread { IfErr result (IsUnread (is_suggestion row.now)) }
{
    let number = text_in(row, 0)?;
    let votes = votes_on(alloc, votes, number.as_str())?;
    suggestion_with(alloc, row, votes)
}

/// Two columns: a unit's language, and the text of its key.
fn unit_columns(row: &Row, lang: usize, key: usize) -> Result<(String, String), Failure>
    ensures lang { IfOk result (λ unit. string_bytes unit.0 ≡ text_at lang row.now) }
    ensures key { IfOk result (λ unit. string_bytes unit.1 ≡ text_at key row.now) }
    ensures stands { OnOk result ((holds_text any_text lang row.now && holds_text any_text key row.now) ≡ true) }
    ensures unread { IfErr result (λ failure. (first second : List ℕ → Bool) → IsUnread (holds_text first lang row.now && holds_text second key row.now) failure) }
{
    let lang = text_in(row, lang)?;
    let key = text_in(row, key)?;
    Ok((lang, key))
}

/// Puts a suggestion behind the others on a unit.
fn put_behind(
    alloc: Global,
    all: &mut BTreeMap<(String, String), Items<Suggestion>>,
    unit: (String, String),
    suggestion: Suggestion,
) -> Result<(), AllocError>
    ensures { OnOk result ((lang key : Text) → suggestions_of all.new lang key
        ≡ (if is_eq (by_texts (lang, key) (two_bytes unit)) then suggestions_of all.old lang key ++ suggestion ∷ [] else suggestions_of all.old lang key)) }
{
    let mut own = match all.remove(&unit) {
        Some(own) => own,
        None => Items::new(alloc),
    };
    own.push(suggestion)?;
    all.insert(unit, own)?;
    Ok(())
}

/// Puts the suggestion of a row behind the others on its unit.
fn put_suggestion(
    alloc: Global,
    all: &mut BTreeMap<(String, String), Items<Suggestion>>,
    votes: &BTreeMap<String, Votes>,
    row: &Row,
) -> Result<(), Failure>
    ensures shown { OnOk result ((lang key : Text) → suggestions_of all.new lang key
        ≡ (if is_of_unit lang key row.now then suggestions_of all.old lang key ++ with_own_votes votes.now row.now ∷ [] else suggestions_of all.old lang key)) }
    ensures stands { OnOk result (is_suggestion_row row.now ≡ true) }
    ensures unread { IfErr result (IsUnread (is_suggestion_row row.now)) }
{
    let unit = unit_columns(row, 4, 5)?;
    let suggestion = suggestion_of(alloc, votes, row)?;
    put_behind(alloc, all, unit, suggestion)?;
    Ok(())
}

/// The suggestions of rows, under their units' languages and keys.
fn suggestions_by_unit(
    alloc: Global,
    votes: &BTreeMap<String, Votes>,
    rows: &[Row],
) -> Result<BTreeMap<(String, String), Items<Suggestion>>, Failure>
    ensures shown { IfOk result (λ all. (lang key : Text) → suggestions_of all lang key ≡ suggestions_among votes.now rows.now lang key) }
    ensures stands { OnOk result (list_all is_suggestion_row rows.now ≡ true) }
    ensures unread { IfErr result (IsUnread (list_all is_suggestion_row rows.now)) }
{
    let mut all = BTreeMap::new(alloc);
    for row in rows {
        put_suggestion(alloc, &mut all, votes, row)?;
    }
    Ok(all)
}

/// All suggestions, each with its votes, under their units' languages and keys.
pub(crate) fn all_suggestions(
    alloc: Global,
    rows: &UnitTables,
) -> Result<BTreeMap<(String, String), Items<Suggestion>>, Failure>
    ensures shown { IfOk result (λ all. (lang key : Text) → suggestions_of all lang key ≡ suggestions_shown rows.now lang key) }
    ensures stands { OnOk result ((list_all is_vote_row rows.now.votes.items && list_all is_suggestion_row rows.now.suggestions.items) ≡ true) }
    ensures unread { IfErr result (IsUnread ((list_all is_vote_row rows.now.votes.items && list_all is_suggestion_row rows.now.suggestions.items))) }
{
    let votes = votes_by_number(alloc, rows.votes.as_slice())?;
    suggestions_by_unit(alloc, &votes, rows.suggestions.as_slice())
}

/// A copy of the suggestions on the unit of a row.
pub(crate) fn suggestions_on(
    alloc: Global,
    all: &BTreeMap<(String, String), Items<Suggestion>>,
    row: &Row,
) -> Result<Items<Suggestion>, Failure>
    ensures shown { IfOk result (λ own. own ≡ suggestions_of all.now (text_at 7 row.now) (text_at 8 row.now)) }
    ensures unread { IfErr result (IsUnread (has_place row.now)) }
{
    let unit = unit_columns(row, 7, 8)?;
    match all.get(&unit) {
        Some(own) => Ok(own.duplicate()?),
        None => Ok(Items::new(alloc)),
    }
}
