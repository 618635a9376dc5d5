//! What is asked of the tables in one transaction.
ghost use Rattle.std.specs.Prelude.{◌≡◌};
ghost use Rattle.sqlite.specs.Held.{state};
ghost use Rattle.sql_laws.specs.DiskErrors.{BlamesTruly};
ghost use Rattle.sql_statements.specs.Answers.{ShowsMember, ShowsPolicy, ShowsRecord};
ghost use Rattle.sql_statements.specs.DomainAnswers.{ShowsDomainSuggestions, ShowsTally};
ghost use Rattle.sql_schema.specs.Inside.{IsSteadyOver, IsReadOf};
ghost use Rattle.sql_statements.specs.RecordsInOrder.{ShowsPlace};
ghost use Rattle.sql_statements.specs.DomainUnitRows.{ShowsDomainOfficeRows, ShowsDomainUnitRows, ShowsDomainUnitAlone, ShowsDomainContextRows, ShowsDomainContextAlone, ShowsOneDomainSuggestion, ShowsWithDomainVotes, ShowsEachWithDomainVotes};
ghost use Rattle.sql_schema.specs.Layouts.{by_domain};

use crate::look_ups::Question;
use sql_statements::domain_languages::find_domain_language;
use sql_statements::domain_suggestions::{domain_suggestions_of, find_domain_suggestion};
use sql_statements::domain_template::find_domain_entry;
use sql_statements::domain_units::find_domain_unit;
use sql_statements::domain_votes::domain_votes_on;
use sql_statements::policy::find_policy;
use sql_statements::records::{find_place, find_record};
use sql_statements::tallies::find_tally;
use sql_statements::team::find_member;
use sql_statements::unit_rows::{ContextRows, OfficeRows, SuggestionRows, UnitRows};
use sqlite::{Alter, Error, Row, Transaction};
use std::alloc::Global;

/// The record of a request. None, where no record has the number.
#[derive(Drop)]
pub(crate) struct RecordOf<'a> {
    pub(crate) number: &'a str,
}

impl Question for RecordOf<'_> {
    type Answer = Option<Row>;

    ghost Shows = { λ q. ShowsRecord q.number.now };

    fn ask<S: Alter>(self, tx: &mut Transaction<'_, S>) -> Result<Option<Row>, Error> {
        find_record(tx, self.number)
    }
}

/// The place of a record in the order in which the office took them. None, where no record has the number.
#[derive(Drop)]
pub(crate) struct PlaceOf<'a> {
    pub(crate) number: &'a str,
}

impl Question for PlaceOf<'_> {
    type Answer = Option<Row>;

    ghost Shows = { λ q. ShowsPlace q.number.now };

    fn ask<S: Alter>(self, tx: &mut Transaction<'_, S>) -> Result<Option<Row>, Error> {
        find_place(tx, self.number)
    }
}

/// The role of a member of the team. None, where the team has nobody of that name.
#[derive(Drop)]
pub(crate) struct MemberOf<'a> {
    pub(crate) name: &'a str,
}

impl Question for MemberOf<'_> {
    type Answer = Option<Row>;

    ghost Shows = { λ q. ShowsMember q.name.now };

    fn ask<S: Alter>(self, tx: &mut Transaction<'_, S>) -> Result<Option<Row>, Error> {
        find_member(tx, self.name)
    }
}

/// The policy. None, where it wasn't written.
#[derive(Drop)]
pub(crate) struct PolicyHeld;

impl Question for PolicyHeld {
    type Answer = Option<Row>;

    ghost Shows = { λ _. ShowsPolicy };

    fn ask<S: Alter>(self, tx: &mut Transaction<'_, S>) -> Result<Option<Row>, Error> {
        find_policy(tx)
    }
}

/// The tally of a domain's language. None, where there is no such language.
#[derive(Drop)]
pub(crate) struct TallyOf<'a> {
    pub(crate) domain: &'a str,
    pub(crate) lang: &'a str,
}

impl Question for TallyOf<'_> {
    type Answer = Option<Row>;

    ghost Shows = { λ q. ShowsTally q.domain.now q.lang.now };

    fn ask<S: Alter>(self, tx: &mut Transaction<'_, S>) -> Result<Option<Row>, Error> {
        find_tally(tx, self.domain, self.lang)
    }
}

/// The rows of the office that a look at a unit of a domain takes.
fn office_part<'a, S: Alter>(
    tx: &mut Transaction<'_, S>,
    domain: &'a str,
    lang: &'a str,
    name: &'a str,
) -> Result<OfficeRows, Error>
    requires steady { IsSteadyOver by_domain (state S.Store tx.old.conn.now) }
    ensures same_reference { tx.new.conn.ghost_name ≡ tx.old.conn.ghost_name }
    ensures found { IsReadOf by_domain (state S.Store tx.old.conn.now) (state S.Store tx.new.conn.now) result
        (ShowsDomainOfficeRows domain.now lang.now name.now) }
    ensures disk { BlamesTruly (state S.Store tx.old.conn.now) (state S.Store tx.new.conn.now) result }
{
    let language = find_domain_language(tx, domain, lang)?;
    let policy = find_policy(tx)?;
    let role = find_member(tx, name)?;
    Ok(OfficeRows {
        language,
        policy,
        role,
    })
}

/// A suggestion with the votes on it.
fn with_votes<S: Alter>(
    tx: &mut Transaction<'_, S>,
    suggestion: Row,
) -> Result<SuggestionRows, Error>
    requires steady { IsSteadyOver by_domain (state S.Store tx.old.conn.now) }
    ensures same_reference { tx.new.conn.ghost_name ≡ tx.old.conn.ghost_name }
    ensures found { IsReadOf by_domain (state S.Store tx.old.conn.now) (state S.Store tx.new.conn.now) result
        (ShowsWithDomainVotes suggestion) }
    ensures disk { BlamesTruly (state S.Store tx.old.conn.now) (state S.Store tx.new.conn.now) result }
{
    let number = suggestion.get::<String>(0)?;
    let votes = domain_votes_on(tx, &number)?;
    Ok(SuggestionRows { suggestion, votes })
}

/// The suggestions on a domain's unit, each with the votes on it.
fn suggestions_with_votes<'a, S: Alter>(
    tx: &mut Transaction<'_, S>,
    domain: &'a str,
    lang: &'a str,
    key: &'a str,
) -> Result<Vec<SuggestionRows>, Error>
    requires steady { IsSteadyOver by_domain (state S.Store tx.old.conn.now) }
    ensures same_reference { tx.new.conn.ghost_name ≡ tx.old.conn.ghost_name }
    ensures found { IsReadOf by_domain (state S.Store tx.old.conn.now) (state S.Store tx.new.conn.now) result
        (λ db rows. ShowsEachWithDomainVotes domain.now lang.now key.now db rows.items) }
    ensures disk { BlamesTruly (state S.Store tx.old.conn.now) (state S.Store tx.new.conn.now) result }
{
    let suggestions = domain_suggestions_of(tx, domain, lang, key)?;
    let mut all = Vec::new(*suggestions.allocator());
    for suggestion in suggestions {
        all.push(with_votes(tx, suggestion)?)?;
    }
    Ok(all)
}

/// The rows of a domain's unit that a look at it takes.
fn unit_part<'a, S: Alter>(
    tx: &mut Transaction<'_, S>,
    domain: &'a str,
    lang: &'a str,
    key: &'a str,
) -> Result<UnitRows, Error>
    requires steady { IsSteadyOver by_domain (state S.Store tx.old.conn.now) }
    ensures same_reference { tx.new.conn.ghost_name ≡ tx.old.conn.ghost_name }
    ensures found { IsReadOf by_domain (state S.Store tx.old.conn.now) (state S.Store tx.new.conn.now) result
        (ShowsDomainUnitRows domain.now lang.now key.now) }
    ensures disk { BlamesTruly (state S.Store tx.old.conn.now) (state S.Store tx.new.conn.now) result }
{
    let unit = find_domain_unit(tx, domain, lang, key)?;
    let entry = find_domain_entry(tx, domain, key)?;
    let suggestions = suggestions_with_votes(tx, domain, lang, key)?;
    Ok(UnitRows {
        unit,
        entry,
        suggestions,
    })
}

/// What a caller sees of a domain's unit: the office's rows, the unit's, and the votes on each of its suggestions.
#[derive(Drop)]
pub(crate) struct ViewOf<'a> {
    pub(crate) domain: &'a str,
    pub(crate) lang: &'a str,
    pub(crate) key: &'a str,
    pub(crate) name: &'a str,
}

impl Question for ViewOf<'_> {
    type Answer = ContextRows;

    ghost Shows = { λ q. ShowsDomainContextRows q.domain.now q.lang.now q.key.now q.name.now };

    fn ask<S: Alter>(self, tx: &mut Transaction<'_, S>) -> Result<ContextRows, Error> {
        let office = office_part(tx, self.domain, self.lang, self.name)?;
        let unit = unit_part(tx, self.domain, self.lang, self.key)?;
        Ok(ContextRows { office, unit })
    }
}

/// The rows of a domain's unit without its suggestions, none of which is read.
fn unit_alone<'a, S: Alter>(
    tx: &mut Transaction<'_, S>,
    alloc: Global,
    domain: &'a str,
    lang: &'a str,
    key: &'a str,
) -> Result<UnitRows, Error>
    requires steady { IsSteadyOver by_domain (state S.Store tx.old.conn.now) }
    ensures same_reference { tx.new.conn.ghost_name ≡ tx.old.conn.ghost_name }
    ensures found { IsReadOf by_domain (state S.Store tx.old.conn.now) (state S.Store tx.new.conn.now) result
        (ShowsDomainUnitAlone domain.now lang.now key.now) }
    ensures disk { BlamesTruly (state S.Store tx.old.conn.now) (state S.Store tx.new.conn.now) result }
{
    let unit = find_domain_unit(tx, domain, lang, key)?;
    let entry = find_domain_entry(tx, domain, key)?;
    Ok(UnitRows {
        unit,
        entry,
        suggestions: Vec::new(alloc),
    })
}

/// What a caller sees of a domain's unit but for its suggestions: the office's rows, and the unit's.
#[derive(Drop)]
pub(crate) struct UnitOf<'a> {
    pub(crate) alloc: Global,
    pub(crate) domain: &'a str,
    pub(crate) lang: &'a str,
    pub(crate) key: &'a str,
    pub(crate) name: &'a str,
}

impl Question for UnitOf<'_> {
    type Answer = ContextRows;

    ghost Shows = { λ q. ShowsDomainContextAlone q.domain.now q.lang.now q.key.now q.name.now };

    fn ask<S: Alter>(self, tx: &mut Transaction<'_, S>) -> Result<ContextRows, Error> {
        let office = office_part(tx, self.domain, self.lang, self.name)?;
        let unit = unit_alone(tx, self.alloc, self.domain, self.lang, self.key)?;
        Ok(ContextRows { office, unit })
    }
}

/// What a look at a domain's unit takes of it: its row, its template's entry, and its suggestions with the votes on each.
#[derive(Drop)]
pub(crate) struct UnitRowsOf<'a> {
    pub(crate) domain: &'a str,
    pub(crate) lang: &'a str,
    pub(crate) key: &'a str,
}

impl Question for UnitRowsOf<'_> {
    type Answer = UnitRows;

    ghost Shows = { λ q. ShowsDomainUnitRows q.domain.now q.lang.now q.key.now };

    fn ask<S: Alter>(self, tx: &mut Transaction<'_, S>) -> Result<UnitRows, Error> {
        unit_part(tx, self.domain, self.lang, self.key)
    }
}

/// The same but for its suggestions, which aren't read.
#[derive(Drop)]
pub(crate) struct UnitAloneOf<'a> {
    pub(crate) alloc: Global,
    pub(crate) domain: &'a str,
    pub(crate) lang: &'a str,
    pub(crate) key: &'a str,
}

impl Question for UnitAloneOf<'_> {
    type Answer = UnitRows;

    ghost Shows = { λ q. ShowsDomainUnitAlone q.domain.now q.lang.now q.key.now };

    fn ask<S: Alter>(self, tx: &mut Transaction<'_, S>) -> Result<UnitRows, Error> {
        unit_alone(tx, self.alloc, self.domain, self.lang, self.key)
    }
}

/// The suggestions on a domain's unit, in the order of their places; no vote on them is read.
#[derive(Drop)]
pub(crate) struct SuggestionsOn<'a> {
    pub(crate) domain: &'a str,
    pub(crate) lang: &'a str,
    pub(crate) key: &'a str,
}

impl Question for SuggestionsOn<'_> {
    type Answer = Vec<Row>;

    ghost Shows = { λ q db rows. ShowsDomainSuggestions q.domain.now q.lang.now q.key.now db rows.items };

    fn ask<S: Alter>(self, tx: &mut Transaction<'_, S>) -> Result<Vec<Row>, Error> {
        domain_suggestions_of(tx, self.domain, self.lang, self.key)
    }
}

/// The suggestion of a number on a domain's unit, with the votes on it. None, where it isn't there.
fn suggestion_part<'a, S: Alter>(
    tx: &mut Transaction<'_, S>,
    domain: &'a str,
    lang: &'a str,
    key: &'a str,
    number: &'a str,
) -> Result<Option<SuggestionRows>, Error>
    requires steady { IsSteadyOver by_domain (state S.Store tx.old.conn.now) }
    ensures same_reference { tx.new.conn.ghost_name ≡ tx.old.conn.ghost_name }
    ensures found { IsReadOf by_domain (state S.Store tx.old.conn.now) (state S.Store tx.new.conn.now) result
        (ShowsOneDomainSuggestion domain.now lang.now key.now number.now) }
    ensures disk { BlamesTruly (state S.Store tx.old.conn.now) (state S.Store tx.new.conn.now) result }
{
    let found = find_domain_suggestion(tx, domain, lang, key, number)?;
    match found {
        Some(suggestion) => Ok(Some(with_votes(tx, suggestion)?)),
        None => Ok(None),
    }
}

/// The suggestion of a number on a domain's unit, with the votes on it; no other suggestion or vote is read. None, where it isn't there.
#[derive(Drop)]
pub(crate) struct SuggestionOn<'a> {
    pub(crate) domain: &'a str,
    pub(crate) lang: &'a str,
    pub(crate) key: &'a str,
    pub(crate) number: &'a str,
}

impl Question for SuggestionOn<'_> {
    type Answer = Option<SuggestionRows>;

    ghost Shows = { λ q. ShowsOneDomainSuggestion q.domain.now q.lang.now q.key.now q.number.now };

    fn ask<S: Alter>(self, tx: &mut Transaction<'_, S>) -> Result<Option<SuggestionRows>, Error> {
        suggestion_part(tx, self.domain, self.lang, self.key, self.number)
    }
}
