//! Tallies inside a transaction: how many units of each language are in each state.
ghost use Rattle.std.specs.Prelude.{◌≡◌, ◌≢◌, ◌+◌, ◌-◌, pos, IfOk, IfErr, IsTrue};
ghost use Rattle.sqlite.specs.Held.{state};
ghost use Rattle.sqlite.specs.State.{HasCleanDisk};
ghost use Rattle.sql_schema.specs.Layouts.{by_domain};
ghost use Rattle.sql_schema.specs.Inside.{IsSteadyOver, IsInsideOf, IsReadOf};
ghost use Rattle.sql_changes.specs.OnDomains.{SparesDomains};
ghost use Rattle.tables.specs.Tallies.{moved as moves};
ghost use Rattle.tables.specs.declared.faults.Lost.TheVariants.{Disk};
ghost use Rattle.sql_commits.specs.Counted.{ShowsMoving, ShowsValues};
ghost use Rattle.sql_commits.specs.Figures.{PutsTally, FollowsView, FollowsOwnRow, FollowsOneMore};
ghost use Rattle.sql_figures.specs.Figures.{with_tallies, moved_at, FiguresFollow};
ghost use Rattle.sql_decoding.specs.DiskFailures.{FailsTruly};

use crate::unit_counts::{
    CountedValues, counted, counted_so, counted_there, one_suggestion, values_beside, values_of,
};
use office_specification::Tally;
use sql_decoding::{Failure, needed, tally_in, unit_numbers};
use sql_keepable::key_fits;
use sql_statements::domain_suggestions::places_of;
use sql_statements::domain_units::find_domain_unit;
use sql_statements::tallies::{TallyRow, find_tally, put_tally};
use sqlite::{Alter, Transaction};
use std::alloc::Global;
use tables::Lost;
use units::{Key, Lang, Name, Unit, UnitView};

/// The last count that a column holds.
const LAST_COUNT: usize = 9_223_372_036_854_775_807;

/// The column of a count; one that no column holds is refused.
fn count_column(count: usize) -> Result<i64, Failure>
    ensures column { IfOk result (λ column. column ≡ pos count) }
    ensures told { IfErr result (λ failure. failure.lost ≢ Disk) }
{
    if count <= LAST_COUNT {
        Ok(count as i64)
    } else {
        Err(Failure {
            lost: Lost::Refused,
        })
    }
}

/// Writes a language's tally: anew if it has none, and else in the place of the one that is there.
pub fn put_tally_of<S: Alter>(
    tx: &mut Transaction<'_, S>,
    domain: &Name,
    lang: &Lang,
    tally: Tally,
) -> Result<(), Failure>
    requires steady { IsSteadyOver by_domain (state S.Store tx.old.conn.now) }
    ensures same_reference { tx.new.conn.ghost_name ≡ tx.old.conn.ghost_name }
    ensures put { IsInsideOf by_domain (state S.Store tx.old.conn.now) (state S.Store tx.new.conn.now) result (PutsTally domain.now lang.now tally) }
    ensures disk { FailsTruly (state S.Store tx.old.conn.now) (state S.Store tx.new.conn.now) result }
{
    let row = TallyRow {
        domain: domain.as_str(),
        lang: lang.as_str(),
        untranslated: count_column(tally.untranslated)?,
        needs_editing: count_column(tally.needs_editing)?,
        translated: count_column(tally.translated)?,
        approved: count_column(tally.approved)?,
        read_only: count_column(tally.read_only)?,
        suggestions: count_column(tally.suggestions)?,
        obsolete: count_column(tally.obsolete)?,
    };
    put_tally(tx, row).map_err(Failure::from)
}

/// Writes the tallies of languages.
pub fn put_tallies<S: Alter>(
    tx: &mut Transaction<'_, S>,
    domain: &Name,
    tallies: &[(Lang, Tally)],
) -> Result<(), Failure>
    requires steady { IsSteadyOver by_domain (state S.Store tx.old.conn.now) }
    requires open { HasCleanDisk (state S.Store tx.old.conn.now) → IsTrue (state S.Store tx.old.conn.now).is_open }
    ensures same_reference { tx.new.conn.ghost_name ≡ tx.old.conn.ghost_name }
    ensures spares { IsInsideOf by_domain (state S.Store tx.old.conn.now) (state S.Store tx.new.conn.now) result SparesDomains }
    ensures figures { IsInsideOf by_domain (state S.Store tx.old.conn.now) (state S.Store tx.new.conn.now) result (FiguresFollow (with_tallies domain.now tallies.now)) }
    ensures disk { FailsTruly (state S.Store tx.old.conn.now) (state S.Store tx.new.conn.now) result }
{
    for tallied in tallies {
        put_tally_of(tx, domain, &tallied.0, tallied.1)?;
    }
    Ok(())
}

/// Moves a language's tally by what the unit that is there counts, and what its new view does. An act doesn't change the template, so the new
/// view's entry is the old one's. A language that has no tally is refused: another program has written the file.
pub fn move_tally<S: Alter>(
    tx: &mut Transaction<'_, S>,
    alloc: Global,
    domain: &Name,
    lang: &Lang,
    view: &UnitView,
) -> Result<(), Failure>
    requires steady { IsSteadyOver by_domain (state S.Store tx.old.conn.now) }
    ensures same_reference { tx.new.conn.ghost_name ≡ tx.old.conn.ghost_name }
    ensures spares { IsInsideOf by_domain (state S.Store tx.old.conn.now) (state S.Store tx.new.conn.now) result SparesDomains }
    ensures figures { IsInsideOf by_domain (state S.Store tx.old.conn.now) (state S.Store tx.new.conn.now) result (FollowsView domain.now lang.now view.now) }
    ensures disk { FailsTruly (state S.Store tx.old.conn.now) (state S.Store tx.new.conn.now) result }
{
    let there = values_there(tx, alloc, domain, lang, &view.unit.key)?;
    let was = counted_there(&view.source, &there);
    let is = counted(&view.source, &view.unit)?;
    put_difference(tx, domain, lang, was, is)
}

/// Moves a language's tally by what the unit that is there counts, and what it does with the values of its new view and the suggestions that
/// it has. These are looked at only where they begin or cease to count.
pub fn move_row_tally<S: Alter>(
    tx: &mut Transaction<'_, S>,
    alloc: Global,
    domain: &Name,
    lang: &Lang,
    view: &UnitView,
) -> Result<(), Failure>
    requires steady { IsSteadyOver by_domain (state S.Store tx.old.conn.now) }
    ensures same_reference { tx.new.conn.ghost_name ≡ tx.old.conn.ghost_name }
    ensures spares { IsInsideOf by_domain (state S.Store tx.old.conn.now) (state S.Store tx.new.conn.now) result SparesDomains }
    ensures figures { IsInsideOf by_domain (state S.Store tx.old.conn.now) (state S.Store tx.new.conn.now) result (FollowsOwnRow domain.now lang.now view.now) }
    ensures disk { FailsTruly (state S.Store tx.old.conn.now) (state S.Store tx.new.conn.now) result }
{
    let there = values_to_move(tx, alloc, domain, lang, &view.unit)?;
    match there {
        Some(values) => {
            let was = counted_so(&view.source, &values);
            let is = counted_so(&view.source, &values_beside(&view.unit, values.suggestions));
            put_difference(tx, domain, lang, was, is)
        }
        None => Ok(()),
    }
}

/// Counts a suggestion more in a language's tally, unless the unit that is there is obsolete.
pub fn count_suggestion<S: Alter>(
    tx: &mut Transaction<'_, S>,
    alloc: Global,
    domain: &Name,
    lang: &Lang,
    key: &Key,
) -> Result<(), Failure>
    requires steady { IsSteadyOver by_domain (state S.Store tx.old.conn.now) }
    ensures same_reference { tx.new.conn.ghost_name ≡ tx.old.conn.ghost_name }
    ensures spares { IsInsideOf by_domain (state S.Store tx.old.conn.now) (state S.Store tx.new.conn.now) result SparesDomains }
    ensures figures { IsInsideOf by_domain (state S.Store tx.old.conn.now) (state S.Store tx.new.conn.now) result (FollowsOneMore domain.now lang.now key.now) }
    ensures disk { FailsTruly (state S.Store tx.old.conn.now) (state S.Store tx.new.conn.now) result }
{
    key_fits(key);
    let text = key.text(alloc)?;
    let found = find_domain_unit(tx, domain.as_str(), lang.as_str(), text.as_str())?;
    match found {
        Some(row) => {
            let numbers = needed(unit_numbers(&row))?;
            put_difference(
                tx,
                domain,
                lang,
                Tally::none(),
                one_suggestion(numbers.obsolete),
            )
        }
        None => Ok(()),
    }
}

/// Moves a language's tally from what one unit counted to what another counts. Where both count the same, nothing is read or written.
fn put_difference<S: Alter>(
    tx: &mut Transaction<'_, S>,
    domain: &Name,
    lang: &Lang,
    was: Tally,
    is: Tally,
) -> Result<(), Failure>
    requires steady { IsSteadyOver by_domain (state S.Store tx.old.conn.now) }
    requires open { HasCleanDisk (state S.Store tx.old.conn.now) → IsTrue (state S.Store tx.old.conn.now).is_open }
    ensures same_reference { tx.new.conn.ghost_name ≡ tx.old.conn.ghost_name }
    ensures spares { IsInsideOf by_domain (state S.Store tx.old.conn.now) (state S.Store tx.new.conn.now) result SparesDomains }
    ensures figures { IsInsideOf by_domain (state S.Store tx.old.conn.now) (state S.Store tx.new.conn.now) result (FiguresFollow (moved_at domain.now lang.now was is)) }
    ensures disk { FailsTruly (state S.Store tx.old.conn.now) (state S.Store tx.new.conn.now) result }
{
    if was == is {
        Ok(())
    } else {
        put_moved(tx, domain, lang, was, is)
    }
}

/// Puts a language's tally without what one unit counted and with what another counts.
fn put_moved<S: Alter>(
    tx: &mut Transaction<'_, S>,
    domain: &Name,
    lang: &Lang,
    was: Tally,
    is: Tally,
) -> Result<(), Failure>
    requires steady { IsSteadyOver by_domain (state S.Store tx.old.conn.now) }
    ensures same_reference { tx.new.conn.ghost_name ≡ tx.old.conn.ghost_name }
    ensures spares { IsInsideOf by_domain (state S.Store tx.old.conn.now) (state S.Store tx.new.conn.now) result SparesDomains }
    ensures figures { IsInsideOf by_domain (state S.Store tx.old.conn.now) (state S.Store tx.new.conn.now) result (FiguresFollow (moved_at domain.now lang.now was is)) }
    ensures disk { FailsTruly (state S.Store tx.old.conn.now) (state S.Store tx.new.conn.now) result }
{
    let found = find_tally(tx, domain.as_str(), lang.as_str())?;
    match found {
        Some(row) => {
            let tally = needed(tally_in(&row))?;
            let after = moved(tally, was, is)?;
            put_tally_of(tx, domain, lang, after)
        }
        None => Err(Failure {
            lost: Lost::Refused,
        }),
    }
}

/// What a tally counts of the unit of a key, if there is one. Of its suggestions the places are read, and no forms.
fn values_there<S: Alter>(
    tx: &mut Transaction<'_, S>,
    alloc: Global,
    domain: &Name,
    lang: &Lang,
    key: &Key,
) -> Result<Option<CountedValues>, Failure>
    requires steady { IsSteadyOver by_domain (state S.Store tx.old.conn.now) }
    ensures same_reference { tx.new.conn.ghost_name ≡ tx.old.conn.ghost_name }
    ensures found { IsReadOf by_domain (state S.Store tx.old.conn.now) (state S.Store tx.new.conn.now) result (ShowsValues domain.now lang.now key.now) }
    ensures disk { FailsTruly (state S.Store tx.old.conn.now) (state S.Store tx.new.conn.now) result }
{
    key_fits(key);
    let text = key.text(alloc)?;
    let found = find_domain_unit(tx, domain.as_str(), lang.as_str(), text.as_str())?;
    let places = places_of(tx, domain.as_str(), lang.as_str(), text.as_str())?;
    match found {
        Some(row) => {
            let numbers = needed(unit_numbers(&row))?;
            Ok(Some(values_of(&numbers, places.len())))
        }
        None => Ok(None),
    }
}

/// What a tally counts of the unit that is there at a unit's key, if there is one. Where both are obsolete, or neither is, suggestions move no
/// count: none is looked at then, and none counted.
fn values_to_move<S: Alter>(
    tx: &mut Transaction<'_, S>,
    alloc: Global,
    domain: &Name,
    lang: &Lang,
    unit: &Unit,
) -> Result<Option<CountedValues>, Failure>
    requires steady { IsSteadyOver by_domain (state S.Store tx.old.conn.now) }
    ensures same_reference { tx.new.conn.ghost_name ≡ tx.old.conn.ghost_name }
    ensures found { IsReadOf by_domain (state S.Store tx.old.conn.now) (state S.Store tx.new.conn.now) result (ShowsMoving domain.now lang.now unit.now) }
    ensures disk { FailsTruly (state S.Store tx.old.conn.now) (state S.Store tx.new.conn.now) result }
{
    key_fits(&unit.key);
    let text = unit.key.text(alloc)?;
    let found = find_domain_unit(tx, domain.as_str(), lang.as_str(), text.as_str())?;
    match found {
        Some(row) => {
            let numbers = needed(unit_numbers(&row))?;
            if numbers.obsolete == unit.obsolete {
                Ok(Some(values_of(&numbers, 0)))
            } else {
                let places = places_of(tx, domain.as_str(), lang.as_str(), text.as_str())?;
                Ok(Some(values_of(&numbers, places.len())))
            }
        }
        None => Ok(None),
    }
}

/// A count without what one unit counted and with what another counts. It is refused where it counts less than the first, since another
/// program has written the file, and where it passes a word.
fn moved_count(before: usize, was: usize, is: usize) -> Result<usize, Failure>
    ensures count { IfOk result (λ count. count ≡ before + is - was) }
    ensures told { IfErr result (λ failure. failure.lost ≢ Disk) }
{
    match before.checked_sub(was) {
        Some(rest) => match rest.checked_add(is) {
            Some(count) => Ok(count),
            None => Err(Failure {
                lost: Lost::Refused,
            }),
        },
        None => Err(Failure {
            lost: Lost::Refused,
        }),
    }
}

/// A tally without what one unit counted and with what another counts.
fn moved(before: Tally, was: Tally, is: Tally) -> Result<Tally, Failure>
    ensures tally { IfOk result (λ tally. tally ≡ moves before was is) }
    ensures told { IfErr result (λ failure. failure.lost ≢ Disk) }
{
    Ok(Tally {
        approved: moved_count(before.approved, was.approved, is.approved)?,
        needs_editing: moved_count(before.needs_editing, was.needs_editing, is.needs_editing)?,
        obsolete: moved_count(before.obsolete, was.obsolete, is.obsolete)?,
        read_only: moved_count(before.read_only, was.read_only, is.read_only)?,
        suggestions: moved_count(before.suggestions, was.suggestions, is.suggestions)?,
        translated: moved_count(before.translated, was.translated, is.translated)?,
        untranslated: moved_count(before.untranslated, was.untranslated, is.untranslated)?,
    })
}
