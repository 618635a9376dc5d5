//! A unit inside a transaction: its row, its suggestions, and the votes on them.
ghost use Rattle.std.specs.Prelude.{◌≡◌, ◌<◌, ◌^◌, map, IfOk, IsTrue, codes};
ghost use Rattle.std.specs.FinMap as maps;
ghost use Rattle.sqlite.specs.Held.{state};
ghost use Rattle.sqlite.specs.State.{HasCleanDisk};
ghost use Rattle.sql_schema.specs.Layouts.{by_domain};
ghost use Rattle.sql_schema.specs.Inside.{IsSteadyOver, IsInsideOf, OnRows};
ghost use Rattle.sql_schema.specs.Keys.{first_texts};
ghost use Rattle.sql_changes.specs.OnDomains.{OnDomain};
ghost use Rattle.sql_meaning.specs.Cells.{vote_cells};
ghost use Rattle.sql_changes.specs.UnitWrites.{AddsNumberedSuggestion, AddsNumberedSuggestions, PutsUnitRow, WritesNumberedUnit};
ghost use Rattle.sql_commits.specs.Rows.{PutsUnitOf};
ghost use Rattle.sql_commits.specs.Columns.{columns_of_unit};
ghost use Rattle.sql_commits.specs.Votes.{AddsSummed, PutsVotesOn};
ghost use Rattle.sql_figures.specs.Figures.{FiguresStay};
ghost use Rattle.sql_commits.specs.Figures.{AddsWithSum};
ghost use Rattle.units.specs.Units.{vote_sum};
ghost use Rattle.sql_meaning.specs.Written.{PutsRows};
ghost use Rattle.sql_laws.specs.DiskErrors.{BlamesTruly};
ghost use Rattle.sql_decoding.specs.DiskFailures.{FailsTruly};

use po_text::Text;
use sql_columns::{
    flag_column, forms_column, number_column, plural_column, previous_column, revision_column,
    state_column, texts_column, vote_column,
};
use sql_decoding::Failure;
use sql_statements::domain_suggestions::{
    SuggestionRow, add_domain_suggestion, clear_domain_suggestions,
};
use sql_statements::domain_units::{UnitRow, put_domain_unit};
use sql_statements::domain_votes::put_domain_vote;
use sql_statements::vote_sums::put_sum;
use sqlite::{Alter, Error, Transaction};
use std::alloc::{AllocError, Global};
use units::{Lang, Name, Suggestion, Unit, Votes};

/// Writes a unit of a domain: its row in the place of the one that is there, and its suggestions in the place of those that are there.
pub fn write_unit<S: Alter>(
    tx: &mut Transaction<'_, S>,
    alloc: Global,
    domain: &Name,
    lang: &Lang,
    unit: &Unit,
) -> Result<(), Failure>
    requires steady { IsSteadyOver by_domain (state S.Store tx.old.conn.now) }
    ensures same_reference { tx.new.conn.ghost_name ≡ tx.old.conn.ghost_name }
    ensures put { IsInsideOf by_domain (state S.Store tx.old.conn.now) (state S.Store tx.new.conn.now) result (OnDomain domain.now (WritesNumberedUnit lang.now unit.now)) }
    ensures figures { IsInsideOf by_domain (state S.Store tx.old.conn.now) (state S.Store tx.new.conn.now) result FiguresStay }
    ensures disk { FailsTruly (state S.Store tx.old.conn.now) (state S.Store tx.new.conn.now) result }
{
    let columns = columns_of(alloc, unit)?;
    write_columns(tx, alloc, domain.as_str(), lang.as_str(), unit, &columns)
}

/// Writes the row of a unit of a domain, in the place of the one that is there. Its suggestions stay.
pub fn write_row<S: Alter>(
    tx: &mut Transaction<'_, S>,
    alloc: Global,
    domain: &Name,
    lang: &Lang,
    unit: &Unit,
) -> Result<(), Failure>
    requires steady { IsSteadyOver by_domain (state S.Store tx.old.conn.now) }
    ensures same_reference { tx.new.conn.ghost_name ≡ tx.old.conn.ghost_name }
    ensures put { IsInsideOf by_domain (state S.Store tx.old.conn.now) (state S.Store tx.new.conn.now) result (OnDomain domain.now (PutsUnitRow lang.now unit.now)) }
    ensures figures { IsInsideOf by_domain (state S.Store tx.old.conn.now) (state S.Store tx.new.conn.now) result FiguresStay }
    ensures row { IsInsideOf by_domain (state S.Store tx.old.conn.now) (state S.Store tx.new.conn.now) result (PutsUnitOf domain.now lang.now unit.now) }
    ensures disk { FailsTruly (state S.Store tx.old.conn.now) (state S.Store tx.new.conn.now) result }
{
    let columns = columns_of(alloc, unit)?;
    put_row(tx, domain.as_str(), lang.as_str(), unit, &columns)
}

/// The columns of a unit that take memory.
#[derive(Drop)]
struct UnitColumns {
    key: Text,
    forms: Text,
    comment: Text,
    previous: Text,
}

fn columns_of(alloc: Global, unit: &Unit) -> Result<UnitColumns, AllocError>
    ensures { IfOk result (λ columns. columns ≡ columns_of_unit unit.now) }
{
    Ok(UnitColumns {
        key: unit.key.text(alloc)?,
        forms: forms_column(alloc, &unit.forms)?,
        comment: texts_column(alloc, &unit.comment)?,
        previous: previous_column(alloc, &unit.previous)?,
    })
}

/// Writes the row and the suggestions of a unit that has these columns.
fn write_columns<S: Alter>(
    tx: &mut Transaction<'_, S>,
    alloc: Global,
    domain: &str,
    lang: &str,
    unit: &Unit,
    columns: &UnitColumns,
) -> Result<(), Failure>
    requires columns { columns.now ≡ columns_of_unit unit.now }
    requires steady { IsSteadyOver by_domain (state S.Store tx.old.conn.now) }
    ensures same_reference { tx.new.conn.ghost_name ≡ tx.old.conn.ghost_name }
    ensures put { IsInsideOf by_domain (state S.Store tx.old.conn.now) (state S.Store tx.new.conn.now) result (OnDomain domain.now (WritesNumberedUnit lang.now unit.now)) }
    ensures figures { IsInsideOf by_domain (state S.Store tx.old.conn.now) (state S.Store tx.new.conn.now) result FiguresStay }
    ensures disk { FailsTruly (state S.Store tx.old.conn.now) (state S.Store tx.new.conn.now) result }
{
    put_row(tx, domain, lang, unit, columns)?;
    clear_domain_suggestions(tx, domain, lang, columns.key.as_str())?;
    add_suggestions(
        tx,
        alloc,
        domain,
        lang,
        columns.key.as_str(),
        unit.suggestions.as_slice(),
    )
}

/// Writes the row of a unit that has these columns.
fn put_row<S: Alter>(
    tx: &mut Transaction<'_, S>,
    domain: &str,
    lang: &str,
    unit: &Unit,
    columns: &UnitColumns,
) -> Result<(), Failure>
    requires columns { columns.now ≡ columns_of_unit unit.now }
    requires steady { IsSteadyOver by_domain (state S.Store tx.old.conn.now) }
    ensures same_reference { tx.new.conn.ghost_name ≡ tx.old.conn.ghost_name }
    ensures put { IsInsideOf by_domain (state S.Store tx.old.conn.now) (state S.Store tx.new.conn.now) result (OnDomain domain.now (PutsUnitRow lang.now unit.now)) }
    ensures figures { IsInsideOf by_domain (state S.Store tx.old.conn.now) (state S.Store tx.new.conn.now) result FiguresStay }
    ensures row { IsInsideOf by_domain (state S.Store tx.old.conn.now) (state S.Store tx.new.conn.now) result (PutsUnitOf domain.now lang.now unit.now) }
    ensures disk { FailsTruly (state S.Store tx.old.conn.now) (state S.Store tx.new.conn.now) result }
{
    put_domain_unit(
        tx,
        UnitRow {
            domain,
            lang,
            key: columns.key.as_str(),
            plural: plural_column(&unit.plural),
            forms: columns.forms.as_str(),
            state: state_column(unit.state),
            obsolete: flag_column(unit.obsolete),
            revision: revision_column(unit.revision),
            comment: columns.comment.as_str(),
            previous: columns.previous.as_str(),
        },
    )
    .map_err(Failure::from)
}

/// Adds a unit's suggestions, from the first place on.
fn add_suggestions<S: Alter>(
    tx: &mut Transaction<'_, S>,
    alloc: Global,
    domain: &str,
    lang: &str,
    key: &str,
    suggestions: &[Suggestion],
) -> Result<(), Failure>
    requires steady { IsSteadyOver by_domain (state S.Store tx.old.conn.now) }
    requires open { HasCleanDisk (state S.Store tx.old.conn.now) → IsTrue (state S.Store tx.old.conn.now).is_open }
    ensures same_reference { tx.new.conn.ghost_name ≡ tx.old.conn.ghost_name }
    ensures put { IsInsideOf by_domain (state S.Store tx.old.conn.now) (state S.Store tx.new.conn.now) result (OnDomain domain.now (AddsNumberedSuggestions lang.now key.now suggestions.now)) }
    ensures figures { IsInsideOf by_domain (state S.Store tx.old.conn.now) (state S.Store tx.new.conn.now) result FiguresStay }
    ensures disk { FailsTruly (state S.Store tx.old.conn.now) (state S.Store tx.new.conn.now) result }
{
    for (place, suggestion) in suggestions.iter().enumerate() {
        add_suggestion(tx, alloc, domain, lang, key, place, suggestion)?;
    }
    Ok(())
}

/// Adds a suggestion, whose number must be new, at a place where none is, its sum, and the votes on it.
pub fn add_suggestion<S: Alter>(
    tx: &mut Transaction<'_, S>,
    alloc: Global,
    domain: &str,
    lang: &str,
    key: &str,
    place: usize,
    suggestion: &Suggestion,
) -> Result<(), Failure>
    requires fits { place < 2 ^ 63 }
    requires steady { IsSteadyOver by_domain (state S.Store tx.old.conn.now) }
    ensures same_reference { tx.new.conn.ghost_name ≡ tx.old.conn.ghost_name }
    ensures put { IsInsideOf by_domain (state S.Store tx.old.conn.now) (state S.Store tx.new.conn.now) result (OnDomain domain.now (AddsNumberedSuggestion lang.now key.now place suggestion.now)) }
    ensures figures { IsInsideOf by_domain (state S.Store tx.old.conn.now) (state S.Store tx.new.conn.now) result FiguresStay }
    ensures disk { FailsTruly (state S.Store tx.old.conn.now) (state S.Store tx.new.conn.now) result }
{
    let number = number_column(alloc, suggestion.number)?;
    let forms = forms_column(alloc, &suggestion.forms)?;
    let row = SuggestionRow {
        number: number.as_str(),
        domain,
        lang,
        key,
        place: place as i64,
        suggester: suggestion.suggester.as_str(),
        forms: forms.as_str(),
    };
    add_summed(tx, row, &suggestion.votes)?;
    put_votes(tx, domain, number.as_str(), &suggestion.votes)
}

/// Adds the row of a suggestion, and the sum of the votes on it.
fn add_summed<S: Alter>(
    tx: &mut Transaction<'_, S>,
    row: SuggestionRow<'_>,
    votes: &Votes,
) -> Result<(), Error>
    requires steady { IsSteadyOver by_domain (state S.Store tx.old.conn.now) }
    ensures same_reference { tx.new.conn.ghost_name ≡ tx.old.conn.ghost_name }
    ensures added { IsInsideOf by_domain (state S.Store tx.old.conn.now) (state S.Store tx.new.conn.now) result
        (AddsSummed row.entry.domain.now row.entry.number.now row.entry.lang.now row.entry.key.now row.entry.place row.entry.suggester.now row.entry.forms.now) }
    ensures summed { IsInsideOf by_domain (state S.Store tx.old.conn.now) (state S.Store tx.new.conn.now) result (AddsWithSum row.entry.number.now (vote_sum votes.now)) }
    ensures disk { BlamesTruly (state S.Store tx.old.conn.now) (state S.Store tx.new.conn.now) result }
{
    add_domain_suggestion(tx, row)?;
    put_sum(tx, row.number, votes.sum())
}

/// Writes the votes on the suggestion of this number, which is there.
fn put_votes<S: Alter>(
    tx: &mut Transaction<'_, S>,
    domain: &str,
    number: &str,
    votes: &Votes,
) -> Result<(), Failure>
    requires steady { IsSteadyOver by_domain (state S.Store tx.old.conn.now) }
    requires open { HasCleanDisk (state S.Store tx.old.conn.now) → IsTrue (state S.Store tx.old.conn.now).is_open }
    ensures same_reference { tx.new.conn.ghost_name ≡ tx.old.conn.ghost_name }
    ensures put { IsInsideOf by_domain (state S.Store tx.old.conn.now) (state S.Store tx.new.conn.now) result
        (PutsVotesOn domain.now number.now (maps.entries votes.now)) }
    ensures rows { IsInsideOf by_domain (state S.Store tx.old.conn.now) (state S.Store tx.new.conn.now) result (OnRows (PutsRows (codes "d_vote") first_texts (map (vote_cells number.now) (maps.entries votes.now)))) }
    ensures disk { FailsTruly (state S.Store tx.old.conn.now) (state S.Store tx.new.conn.now) result }
{
    for vote in votes.as_slice() {
        put_domain_vote(tx, number, vote.0.as_str(), vote_column(vote.1))?;
    }
    Ok(())
}
