//! What takes the rows of walks over a language's units, over the suggestions on them, and over all votes, and tests them.
ghost use Rattle.std.specs.Prelude.{◌≡◌, ◌+◌, ◌&&◌, ◌↔◌, true, not, cond, [], ◌∷◌, IfOk, IfErr, OnOk};
ghost use Rattle.sqlite.specs.Order.{Row as RowValue};
ghost use Rattle.office_maps.specs.OfficeIn.{lent_project, place_of};
ghost use Rattle.sql_meaning.specs.Meaning.{key_at};
ghost use Rattle.sql_meaning.specs.OfficeShown.{place_shown};
ghost use Rattle.sql_meaning.specs.Values.{flag_at, natural_at, texts_at};
ghost use Rattle.sql_decoding.specs.RowTests.{IsUnread, any_text, holds_text, is_suggestion_row, is_unit_row, is_vote_row};
ghost use Rattle.office_specification.specs.Counting.{none_counted};
ghost use Rattle.sql_adoption.specs.TookUnits.{TookUnits, with_counts};
ghost use Rattle.sql_adoption.specs.WalkedUnits.{unit_alone, IsKeptSuggestion, IsKeptUnit, MayHave, forms_with};

use office_maps::{Place, ProjectMaps};
use office_specification::Tally;
use plural_expr::PluralForms;
use po_text::Items;
use rule_tests::{fits_entry, is_placed};
use sql_decoding::{Failure, natural_in, put_vote, suggestion_with, text_in, unit_with};
use sql_loading::place_in;
use sql_streams::RowSink;
use sqlite::Row;
use std::alloc::{AllocError, Global};
use units::{SUGGESTION_LIMIT, UNIT_LIMIT, Unit, Votes};

/// What was told of a language's units: whether they keep the rules; and if so how many there are, how many of them aren't obsolete, and what they
/// count.
#[derive(Drop)]
pub(crate) struct Told {
    pub(crate) kept: bool,
    pub(crate) units: usize,
    pub(crate) current: usize,
    pub(crate) tally: Tally,
}

impl Told {
    /// Of no unit.
    pub(crate) fn nothing() -> Told
        ensures kept { result.kept ≡ true }
        ensures units { result.units ≡ 0 }
        ensures current { result.current ≡ 0 }
        ensures tally { result.tally ≡ none_counted }
    {
        Told {
            kept: true,
            units: 0,
            current: 0,
            tally: Tally::none(),
        }
    }
}

/// How many a row tells in a column.
fn told_at(row: &Row, at: usize) -> usize
    ensures { result ≡ natural_at at row.now }
{
    natural_in(row, at).unwrap_or(0)
}

/// A unit that a row shows, at its place, with how many suggestions are on it.
#[derive(Drop)]
struct Shown {
    place: Place,
    unit: Unit,
    suggestions: usize,
}

/// The unit of a row.
fn shown_in(alloc: Global, row: &Row) -> Result<Shown, Failure>
    ensures place { IfOk result (λ shown. place_of shown.place ≡ place_shown row.now) }
    ensures unit { IfOk result (λ shown. shown.unit ≡ unit_alone row.now) }
    ensures suggestions { IfOk result (λ shown. shown.suggestions ≡ natural_at 9 row.now) }
    ensures stands { OnOk result (is_unit_row row.now ≡ true) }
    ensures unread { IfErr result (IsUnread (is_unit_row row.now)) }
{
    let place = place_in(alloc, row)?;
    let unit = unit_with(alloc, &place.key.key, row, Items::new(alloc))?;
    let suggestions = told_at(row, 9);
    Ok(Shown {
        place,
        unit,
        suggestions,
    })
}

/// Whether so many suggestions may be on a unit.
fn may_have(unit: &Unit, suggestions: usize) -> bool
    ensures { (result ≡ true) ↔ MayHave unit.now suggestions }
{
    if unit.obsolete {
        suggestions == 0
    } else {
        suggestions <= SUGGESTION_LIMIT
    }
}

/// Whether all three hold.
fn hold_all(first: bool, second: bool, third: bool) -> bool
    ensures { result ≡ (first && (second && third)) }
{
    first && second && third
}

/// Whether a unit keeps the rules without its suggestions, and so many of these may be on it.
fn is_kept(project: &ProjectMaps<'_>, shown: &Shown) -> bool
    ensures { (row : RowValue) → place_of shown.now.place ≡ place_shown row → shown.now.unit ≡ unit_alone row → shown.now.suggestions ≡ natural_at 9 row
        → (result ≡ true) ↔ IsKeptUnit (lent_project project.now) row }
{
    let placed = is_placed(project, &shown.place, &shown.unit);
    let fits = fits_entry(project, &shown.place, &shown.unit);
    let few = may_have(&shown.unit, shown.suggestions);
    hold_all(placed, fits, few)
}

/// Counts suggestions.
///
/// `AllocError` where their number would pass a machine word.
fn add_suggestions(tally: &mut Tally, count: usize) -> Result<(), AllocError>
    ensures { OnOk result (tally.new ≡ record tally.old { suggestions = tally.old.suggestions + count }) }
{
    match tally.suggestions.checked_add(count) {
        Some(sum) => {
            tally.suggestions = sum;
            Ok(())
        }
        None => Err(AllocError),
    }
}

/// Counts a unit with its suggestions.
fn count(project: &ProjectMaps<'_>, shown: &Shown, tally: &mut Tally) -> Result<(), AllocError>
    ensures { OnOk result ((row : RowValue) → place_of shown.now.place ≡ place_shown row → shown.now.unit ≡ unit_alone row → shown.now.suggestions ≡ natural_at 9 row
        → tally.new ≡ with_counts (lent_project project.now).template tally.old row) }
{
    let entry = project.domain.template.entry_of(&shown.place.key);
    tally.add(entry, &shown.unit)?;
    if shown.unit.obsolete {
        return Ok(());
    }
    add_suggestions(tally, shown.suggestions)
}

/// How many units aren't obsolete, with one more.
///
/// `AllocError` where the number would pass a machine word.
fn current_with(current: usize, unit: &Unit) -> Result<usize, AllocError>
    ensures { IfOk result (λ n. n ≡ current + cond (not unit.now.obsolete) 1 0) }
{
    if unit.obsolete {
        return Ok(current);
    }
    match current.checked_add(1) {
        Some(sum) => Ok(sum),
        None => Err(AllocError),
    }
}

/// Notes a unit, if it keeps the rules and those before did, and they aren't too many.
fn note(project: &ProjectMaps<'_>, shown: &Shown, told: &mut Told) -> Result<(), AllocError>
    ensures { OnOk result ((row : RowValue) → place_of shown.now.place ≡ place_shown row → shown.now.unit ≡ unit_alone row → shown.now.suggestions ≡ natural_at 9 row → is_unit_row row ≡ true
        → TookUnits (lent_project project.now) told.old (row ∷ []) told.new) }
{
    if !told.kept {
        return Ok(());
    }
    let kept = is_kept(project, shown);
    if !kept {
        told.kept = false;
        return Ok(());
    }
    let units = told.units;
    if units >= UNIT_LIMIT {
        told.kept = false;
        return Ok(());
    }
    let current = current_with(told.current, &shown.unit)?;
    told.current = current;
    told.units = units + 1;
    count(project, shown, &mut told.tally)
}

/// Takes the rows of a language's units, each with how many suggestions are on it.
///
/// A row is refused with `Memory` where a growth was, and else only where it stands for no unit.
#[derive(Drop)]
pub(crate) struct Units<'a> {
    pub(crate) alloc: Global,
    pub(crate) project: &'a ProjectMaps<'a>,
    pub(crate) told: Told,
}

impl<'a> RowSink for Units<'a> {
    ghost use Rattle.std.specs.Prelude.{◌≡◌, ◌≢◌, false};
    ghost use Rattle.tables.specs.declared.faults.Lost.TheVariants.{Memory};
    ghost use Rattle.office_maps.specs.OfficeIn.{lent_project};
    ghost use Rattle.sql_decoding.specs.RowTests.{is_unit_row};
    ghost use Rattle.sql_adoption.specs.TookUnits.{TakesUnits, takes_none, takes_more};

    type Refusal = Failure;

    ghost Took = { λ a rows b. TakesUnits (lent_project a.project.now) a.told rows (lent_project b.project.now) b.told };

    ghost Refuses = { λ a row failure b. failure.lost ≢ Memory → is_unit_row row ≡ false };

    ghost none = { λ s. takes_none (lent_project s.project.now) s.told };

    ghost more = { λ a b c xs ys one two. takes_more (lent_project a.project.now) (lent_project b.project.now) (lent_project c.project.now) a.told b.told c.told xs ys one two };

    fn take(&mut self, row: &Row) -> Result<(), Failure> {
        let shown = shown_in(self.alloc, row)?;
        note(self.project, &shown, &mut self.told)?;
        drop(shown);
        Ok(())
    }
}

// ---- suggestions

/// Tests that a row shows a unit's language and key.
fn hold_unit(row: &Row) -> Result<(), Failure>
    ensures stands { OnOk result ((holds_text any_text 4 row.now && holds_text any_text 5 row.now) ≡ true) }
    ensures unread { IfErr result (IsUnread (holds_text any_text 4 row.now && holds_text any_text 5 row.now)) }
{
    let lang = text_in(row, 4)?;
    drop(lang);
    let key = text_in(row, 5)?;
    drop(key);
    Ok(())
}

/// Whether both hold.
fn both(one: bool, other: bool) -> bool
    ensures { result ≡ (one && other) }
{
    one && other
}

/// How many forms a unit needs that has so many plurals, one or none.
fn forms_with(rule: &PluralForms, plurals: usize) -> u32
    ensures { result ≡ forms_with rule.now plurals }
{
    if plurals == 0 { 1 } else { rule.count() }
}

/// Whether a suggestion's row shows the forms that its unit needs, under the plural rule of its language.
fn has_its_forms(alloc: Global, rule: &PluralForms, row: &Row) -> Result<bool, Failure>
    ensures told { IfOk result (λ has. (has ≡ true) ↔ IsKeptSuggestion rule.now row.now) }
    ensures stands { OnOk result (is_suggestion_row row.now ≡ true) }
    ensures unread { IfErr result (IsUnread (is_suggestion_row row.now)) }
{
    hold_unit(row)?;
    let suggestion = suggestion_with(alloc, row, Votes::new(alloc))?;
    let count = forms_with(rule, told_at(row, 6));
    let has = suggestion.forms.as_slice().len() == count as usize;
    drop(suggestion);
    Ok(has)
}

/// Takes the rows of the suggestions on a language's units, each with how many plurals its unit has, and tells whether each has the forms that its unit needs.
///
/// A row is refused with `Memory` where a growth was, and else only where it stands for no suggestion.
#[derive(Drop)]
pub(crate) struct Suggestions<'a> {
    pub(crate) alloc: Global,
    pub(crate) rule: &'a PluralForms,
    pub(crate) kept: bool,
}

impl<'a> RowSink for Suggestions<'a> {
    ghost use Rattle.std.specs.Prelude.{◌≡◌, ◌≢◌, false};
    ghost use Rattle.tables.specs.declared.faults.Lost.TheVariants.{Memory};
    ghost use Rattle.sql_adoption.specs.TookSuggestions.{TakesSuggestions, suggestions_none, suggestions_more};
    ghost use Rattle.sql_decoding.specs.RowTests.{is_suggestion_row};

    type Refusal = Failure;

    ghost Took = { λ a rows b. TakesSuggestions a.rule.now a.kept rows b.rule.now b.kept };

    ghost Refuses = { λ a row failure b. failure.lost ≢ Memory → is_suggestion_row row ≡ false };

    ghost none = { λ s. suggestions_none s.rule.now s.kept };

    ghost more = { λ a b c xs ys one two. suggestions_more a.rule.now b.rule.now c.rule.now a.kept b.kept c.kept xs ys one two };

    fn take(&mut self, row: &Row) -> Result<(), Failure> {
        let has = has_its_forms(self.alloc, self.rule, row)?;
        self.kept = both(self.kept, has);
        Ok(())
    }
}

// ---- votes

/// Tests that a row stands for a vote.
fn hold_vote(alloc: Global, row: &Row) -> Result<(), Failure>
    ensures stands { OnOk result (is_vote_row row.now ≡ true) }
    ensures unread { IfErr result (IsUnread (is_vote_row row.now)) }
{
    let number = text_in(row, 2)?;
    drop(number);
    let mut votes = Votes::new(alloc);
    put_vote(alloc, &mut votes, row)?;
    drop(votes);
    Ok(())
}

/// Takes the rows of votes.
///
/// A row is refused with `Memory` where a growth was, and else only where it stands for no vote.
#[derive(Drop)]
pub(crate) struct VoteRows {
    pub(crate) alloc: Global,
}

impl RowSink for VoteRows {
    ghost use Rattle.std.specs.Prelude.{◌≡◌, ◌≢◌, true, false, All};
    ghost use Rattle.std.proofs.lemmas.List.Elements.{All-nil, All-append};
    ghost use Rattle.tables.specs.declared.faults.Lost.TheVariants.{Memory};
    ghost use Rattle.sql_decoding.specs.RowTests.{is_vote_row};

    type Refusal = Failure;

    ghost Took = { λ a rows b. All (λ row. is_vote_row row ≡ true) rows };

    ghost Refuses = { λ a row failure b. failure.lost ≢ Memory → is_vote_row row ≡ false };

    ghost none = { λ s. All-nil (λ row. is_vote_row row ≡ true) };

    ghost more = { λ a b c xs ys one two. All-append (λ row. is_vote_row row ≡ true) xs ys one two };

    fn take(&mut self, row: &Row) -> Result<(), Failure> {
        hold_vote(self.alloc, row)
    }
}

// ---- no row

/// Tells whether there was no row.
#[derive(Drop)]
pub(crate) struct NoRow {
    pub(crate) none: bool,
}

impl RowSink for NoRow {
    ghost use Rattle.std.specs.Prelude.{false};
    ghost use Rattle.sql_adoption.specs.Told.{TellsAll, tells_none, tells_more};

    type Refusal = Failure;

    ghost Took = { λ a rows b. TellsAll (λ row. false) a.none rows b.none };

    ghost Refuses = { λ a row failure b. ⊥ };

    ghost none = { λ s. tells_none (λ row. false) s.none };

    ghost more = { λ a b c xs ys one two. tells_more (λ row. false) a.none b.none c.none xs ys one two };

    fn take(&mut self, row: &Row) -> Result<(), Failure> {
        let _ = row;
        self.none = false;
        Ok(())
    }
}
