//! What an act writes of a unit, inside a transaction: the whole of it, its row alone, a suggestion more, or a vote; with the tally and the sums.
ghost use Rattle.std.specs.Prelude.{◌≡◌, ◌≢◌, ◌<◌, ◌^◌, IfOk, IfErr};
ghost use Rattle.sqlite.specs.Held.{state};
ghost use Rattle.sql_schema.specs.Layouts.{by_domain};
ghost use Rattle.sql_schema.specs.Inside.{IsSteadyOver, IsInsideOf, IsInOrder, Then};
ghost use Rattle.sql_changes.specs.OnDomains.{OnDomain};
ghost use Rattle.sql_changes.specs.UnitWrites.{AddsLast, PutsUnitRow, WritesNumberedUnit, WritesOfUnit, WritesVote};
ghost use Rattle.sql_commits.specs.Figures.{PutsSum, FollowsOwnRow, FollowsSuggestionAt, FollowsView, FollowsVoteAt, FollowsWrite};
ghost use Rattle.sql_commits.specs.Votes.{ArePlacesBefore, IsPlaceBehind, PutsVoteRow};
ghost use Rattle.sql_figures.specs.Figures.{FiguresStay};
ghost use Rattle.tables.specs.declared.faults.Lost.TheVariants.{Disk};
ghost use Rattle.units.specs.Units.{key_text};
ghost use Rattle.sql_laws.specs.DiskErrors.{BlamesTruly};
ghost use Rattle.sql_decoding.specs.DiskFailures.{FailsTruly};

use crate::tallies::{count_suggestion, move_row_tally, move_tally};
use crate::unit_writes::{add_suggestion, write_row, write_unit};
use office_specification::UnitWrite;
use sql_columns::{number_column, vote_column};
use sql_decoding::{Failure, natural_in};
use sql_statements::domain_suggestions::{find_domain_place, places_of};
use sql_statements::domain_votes::{put_domain_vote, take_domain_vote};
use sql_statements::vote_sums::put_sum;
use sqlite::{Alter, Error, Row, Transaction};
use std::alloc::Global;
use tables::Lost;
use units::{Key, Lang, Name, Suggestion, UnitView, VoteValue};
use uuid::Uuid;

/// Writes what an act writes of the unit at a key of a domain, with what follows of sums and tallies.
pub fn write_of_unit<S: Alter>(
    tx: &mut Transaction<'_, S>,
    alloc: Global,
    domain: &Name,
    lang: &Lang,
    key: &Key,
    write: &UnitWrite,
) -> Result<(), Failure>
    requires steady { IsSteadyOver by_domain (state S.Store tx.old.conn.now) }
    ensures same_reference { tx.new.conn.ghost_name ≡ tx.old.conn.ghost_name }
    ensures put { IsInsideOf by_domain (state S.Store tx.old.conn.now) (state S.Store tx.new.conn.now) result (OnDomain domain.now (WritesOfUnit lang.now key.now write.now)) }
    ensures figures { IsInsideOf by_domain (state S.Store tx.old.conn.now) (state S.Store tx.new.conn.now) result (FollowsWrite domain.now lang.now key.now write.now) }
    ensures disk { FailsTruly (state S.Store tx.old.conn.now) (state S.Store tx.new.conn.now) result }
{
    match write {
        UnitWrite::Whole(view) => write_view(tx, alloc, domain, lang, view),
        UnitWrite::Row(view) => write_view_row(tx, alloc, domain, lang, view),
        UnitWrite::Suggested(suggestion) => {
            write_suggestion(tx, alloc, domain, lang, key, suggestion)
        }
        UnitWrite::Voted(number, voter, value, sum) => {
            let vote = CastVote {
                number: *number,
                voter,
                value: *value,
                sum: *sum,
            };
            write_vote(tx, alloc, domain, lang, key, vote)
        }
    }
}

/// Writes a unit's new view, and moves its language's tally.
fn write_view<S: Alter>(
    tx: &mut Transaction<'_, S>,
    alloc: Global,
    domain: &Name,
    lang: &Lang,
    view: &UnitView,
) -> Result<(), Failure>
    requires steady { IsSteadyOver by_domain (state S.Store tx.old.conn.now) }
    ensures same_reference { tx.new.conn.ghost_name ≡ tx.old.conn.ghost_name }
    ensures put { IsInsideOf by_domain (state S.Store tx.old.conn.now) (state S.Store tx.new.conn.now) result (OnDomain domain.now (WritesNumberedUnit lang.now view.now.unit)) }
    ensures figures { IsInsideOf by_domain (state S.Store tx.old.conn.now) (state S.Store tx.new.conn.now) result (FollowsView domain.now lang.now view.now) }
    ensures disk { FailsTruly (state S.Store tx.old.conn.now) (state S.Store tx.new.conn.now) result }
{
    move_tally(tx, alloc, domain, lang, view)?;
    write_unit(tx, alloc, domain, lang, &view.unit)
}

/// Writes the row of a unit's new view, and moves its language's tally. The suggestions on the unit stay.
fn write_view_row<S: Alter>(
    tx: &mut Transaction<'_, S>,
    alloc: Global,
    domain: &Name,
    lang: &Lang,
    view: &UnitView,
) -> Result<(), Failure>
    requires steady { IsSteadyOver by_domain (state S.Store tx.old.conn.now) }
    ensures same_reference { tx.new.conn.ghost_name ≡ tx.old.conn.ghost_name }
    ensures put { IsInsideOf by_domain (state S.Store tx.old.conn.now) (state S.Store tx.new.conn.now) result (OnDomain domain.now (PutsUnitRow lang.now view.now.unit)) }
    ensures figures { IsInsideOf by_domain (state S.Store tx.old.conn.now) (state S.Store tx.new.conn.now) result (FollowsOwnRow domain.now lang.now view.now) }
    ensures disk { FailsTruly (state S.Store tx.old.conn.now) (state S.Store tx.new.conn.now) result }
{
    move_row_tally(tx, alloc, domain, lang, view)?;
    write_row(tx, alloc, domain, lang, &view.unit)
}

// ---- a suggestion

/// Writes a suggestion behind the last on a unit, and counts it.
fn write_suggestion<S: Alter>(
    tx: &mut Transaction<'_, S>,
    alloc: Global,
    domain: &Name,
    lang: &Lang,
    key: &Key,
    suggestion: &Suggestion,
) -> Result<(), Failure>
    requires steady { IsSteadyOver by_domain (state S.Store tx.old.conn.now) }
    ensures same_reference { tx.new.conn.ghost_name ≡ tx.old.conn.ghost_name }
    ensures put { IsInsideOf by_domain (state S.Store tx.old.conn.now) (state S.Store tx.new.conn.now) result (OnDomain domain.now (AddsLast lang.now (key_text key.now) suggestion.now)) }
    ensures figures { IsInsideOf by_domain (state S.Store tx.old.conn.now) (state S.Store tx.new.conn.now) result (FollowsSuggestionAt domain.now lang.now key.now suggestion.now) }
    ensures disk { FailsTruly (state S.Store tx.old.conn.now) (state S.Store tx.new.conn.now) result }
{
    count_suggestion(tx, alloc, domain, lang, key)?;
    let text = key.text(alloc)?;
    add_last(
        tx,
        alloc,
        domain.as_str(),
        lang.as_str(),
        text.as_str(),
        suggestion,
    )
}

/// Adds a suggestion behind the last on a unit.
fn add_last<S: Alter>(
    tx: &mut Transaction<'_, S>,
    alloc: Global,
    domain: &str,
    lang: &str,
    key: &str,
    suggestion: &Suggestion,
) -> Result<(), Failure>
    requires steady { IsSteadyOver by_domain (state S.Store tx.old.conn.now) }
    ensures same_reference { tx.new.conn.ghost_name ≡ tx.old.conn.ghost_name }
    ensures put { IsInsideOf by_domain (state S.Store tx.old.conn.now) (state S.Store tx.new.conn.now) result (OnDomain domain.now (AddsLast lang.now key.now suggestion.now)) }
    ensures figures { IsInsideOf by_domain (state S.Store tx.old.conn.now) (state S.Store tx.new.conn.now) result FiguresStay }
    ensures disk { FailsTruly (state S.Store tx.old.conn.now) (state S.Store tx.new.conn.now) result }
{
    let places = places_of(tx, domain, lang, key)?;
    let place = next_place(places.as_slice())?;
    add_suggestion(tx, alloc, domain, lang, key, place, suggestion)
}

/// The last place that a column holds.
const LAST_PLACE: usize = 9_223_372_036_854_775_807;

/// The place behind those that these rows show in their order; the first where there are none.
fn next_place(places: &[Row]) -> Result<usize, Failure>
    ensures fits { IfOk result (λ place. place < 2 ^ 63) }
    ensures behind { IfOk result (λ place. IsInOrder 0 places.now → ArePlacesBefore place places.now) }
    ensures told { IfErr result (λ failure. failure.lost ≢ Disk) }
{
    match places.last() {
        Some(row) => place_behind(row),
        None => Ok(0),
    }
}

/// The place behind the one that a row shows. One that is no natural number, or that has none behind it, is refused: another program has
/// written the file.
fn place_behind(row: &Row) -> Result<usize, Failure>
    ensures fits { IfOk result (λ place. place < 2 ^ 63) }
    ensures next { IfOk result (λ place. IsPlaceBehind row.now place) }
    ensures told { IfErr result (λ failure. failure.lost ≢ Disk) }
{
    match natural_in(row, 0) {
        Some(place) => {
            if place < LAST_PLACE {
                Ok(place + 1)
            } else {
                Err(Failure {
                    lost: Lost::Refused,
                })
            }
        }
        None => Err(Failure {
            lost: Lost::Refused,
        }),
    }
}

// ---- a vote

/// A vote on a suggestion, and what the votes on it then come to.
#[derive(Clone, Copy)]
struct CastVote<'a> {
    /// The suggestion's number.
    number: Uuid,
    voter: &'a Name,
    /// None, where the voter's vote is taken away.
    value: Option<VoteValue>,
    sum: i64,
}

/// Writes a voter's vote on a suggestion on a unit, in the place of the one that is there, or takes that away; and the sum that the votes on
/// it then come to. Where the suggestion isn't on the unit nothing is written.
fn write_vote<S: Alter>(
    tx: &mut Transaction<'_, S>,
    alloc: Global,
    domain: &Name,
    lang: &Lang,
    key: &Key,
    vote: CastVote<'_>,
) -> Result<(), Failure>
    requires steady { IsSteadyOver by_domain (state S.Store tx.old.conn.now) }
    ensures same_reference { tx.new.conn.ghost_name ≡ tx.old.conn.ghost_name }
    ensures put { IsInsideOf by_domain (state S.Store tx.old.conn.now) (state S.Store tx.new.conn.now) result (OnDomain domain.now (WritesVote lang.now (key_text key.now) vote.entry.number vote.entry.voter.now vote.entry.value)) }
    ensures figures { IsInsideOf by_domain (state S.Store tx.old.conn.now) (state S.Store tx.new.conn.now) result (FollowsVoteAt domain.now lang.now key.now vote.entry.number vote.entry.voter.now vote.entry.value vote.entry.sum) }
    ensures disk { FailsTruly (state S.Store tx.old.conn.now) (state S.Store tx.new.conn.now) result }
{
    let number = number_column(alloc, vote.number)?;
    let key = key.text(alloc)?;
    let found = find_domain_place(
        tx,
        domain.as_str(),
        lang.as_str(),
        key.as_str(),
        number.as_str(),
    )?;
    match found {
        Some(row) => {
            drop(row);
            put_vote_and_sum(
                tx,
                number.as_str(),
                vote.voter.as_str(),
                vote.value,
                vote.sum,
            )
            .map_err(Failure::from)
        }
        None => Ok(()),
    }
}

/// Puts or takes away a voter's vote on the suggestion of a number, which is there, and puts its sum.
fn put_vote_and_sum<S: Alter>(
    tx: &mut Transaction<'_, S>,
    number: &str,
    voter: &str,
    value: Option<VoteValue>,
    sum: i64,
) -> Result<(), Error>
    requires steady { IsSteadyOver by_domain (state S.Store tx.old.conn.now) }
    ensures same_reference { tx.new.conn.ghost_name ≡ tx.old.conn.ghost_name }
    ensures put { IsInsideOf by_domain (state S.Store tx.old.conn.now) (state S.Store tx.new.conn.now) result (Then (PutsVoteRow number.now voter.now value) (PutsSum number.now sum)) }
    ensures disk { BlamesTruly (state S.Store tx.old.conn.now) (state S.Store tx.new.conn.now) result }
{
    put_vote_row(tx, number, voter, value)?;
    put_sum(tx, number, sum)
}

/// Puts a voter's vote on the suggestion of a number, which is there, in the place of the one that is there; or takes that away.
fn put_vote_row<S: Alter>(
    tx: &mut Transaction<'_, S>,
    number: &str,
    voter: &str,
    value: Option<VoteValue>,
) -> Result<(), Error>
    requires steady { IsSteadyOver by_domain (state S.Store tx.old.conn.now) }
    ensures same_reference { tx.new.conn.ghost_name ≡ tx.old.conn.ghost_name }
    ensures put { IsInsideOf by_domain (state S.Store tx.old.conn.now) (state S.Store tx.new.conn.now) result (PutsVoteRow number.now voter.now value) }
    ensures disk { BlamesTruly (state S.Store tx.old.conn.now) (state S.Store tx.new.conn.now) result }
{
    match value {
        Some(value) => put_domain_vote(tx, number, voter, vote_column(value)),
        None => take_domain_vote(tx, number, voter),
    }
}
