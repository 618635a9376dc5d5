//! The table of the suggestions of all domains.
//!
//! Where a suggestion is looked up by its number, `+` before its unit's columns keeps the query to the index of numbers (SQLite, "The SQLite
//! Query Optimizer Overview"): that of units and places has more of the columns that are asked for, and would lead through all
//! suggestions on the unit.
ghost use Rattle.std.specs.Prelude.{◌≡◌, ◌∷◌, [], codes};
ghost use Rattle.sqlite.specs.Held.{state};
ghost use Rattle.sqlite.specs.declared.types.Value.TheVariants.{Int, Text};
ghost use Rattle.sql_laws.specs.DiskErrors.{BlamesTruly};
ghost use Rattle.sql_schema.specs.Errors.{RefusesNoRead};
ghost use Rattle.sql_schema.specs.Layouts.{by_domain, rows_named};
ghost use Rattle.sql_schema.specs.SeenRows.{seen_in};
ghost use Rattle.sql_schema.specs.Inside.{IsSteadyOver, IsInsideOf, HoldsValues, IsReadOf};
ghost use Rattle.sql_schema.specs.Keys.{first_text};
ghost use Rattle.sql_statements.specs.Added.{AddsRow};
ghost use Rattle.sql_statements.specs.DomainCleared.{ClearsDomainUnit};
ghost use Rattle.sql_statements.specs.DomainAnswers.{ShowsDomainSuggestions, ShowsPlaces, ShowsSuggestionOf, ShowsPlaceOf};
ghost use Rattle.sql_statements.specs.Tables.{ShowsSuggestionsIn};

use sqlite::{Alter, Error, Row, Transaction, params};

/// The row of a suggestion, each column by its name.
#[derive(Clone, Copy)]
pub struct SuggestionRow<'a> {
    /// That of the request that made it.
    pub number: &'a str,
    /// The domain, language and key of the unit that it is on.
    pub domain: &'a str,
    pub lang: &'a str,
    pub key: &'a str,
    /// Its place among those on the unit.
    pub place: i64,
    pub suggester: &'a str,
    pub forms: &'a str,
}

/// Takes the suggestions on a unit of a domain away, and with them the votes on them and their sums.
pub fn clear_domain_suggestions<'a, S: Alter>(
    tx: &mut Transaction<'_, S>,
    domain: &'a str,
    lang: &'a str,
    key: &'a str,
) -> Result<(), Error>
    requires steady { IsSteadyOver by_domain (state S.Store tx.old.conn.now) }
    ensures same_reference { tx.new.conn.ghost_name ≡ tx.old.conn.ghost_name }
    ensures cleared { IsInsideOf by_domain (state S.Store tx.old.conn.now) (state S.Store tx.new.conn.now) result (ClearsDomainUnit domain.now lang.now key.now) }
    ensures disk { BlamesTruly (state S.Store tx.old.conn.now) (state S.Store tx.new.conn.now) result }
{
    tx.execute(
        "DELETE FROM d_suggestion WHERE domain = ?1 AND lang = ?2 AND key = ?3",
        params![domain, lang, key],
    )
    .and(Ok(()))
}

/// Adds the row of a suggestion. The unit must be there, and the record of the suggestion's number; a suggestion of that number, or at
/// that place, is an error, and nothing is written.
pub fn add_domain_suggestion<S: Alter>(
    tx: &mut Transaction<'_, S>,
    row: SuggestionRow<'_>,
) -> Result<(), Error>
    requires steady { IsSteadyOver by_domain (state S.Store tx.old.conn.now) }
    ensures same_reference { tx.new.conn.ghost_name ≡ tx.old.conn.ghost_name }
    ensures added { IsInsideOf by_domain (state S.Store tx.old.conn.now) (state S.Store tx.new.conn.now) result
        (AddsRow (codes "d_suggestion") first_text (HoldsValues (Text row.entry.number.now ∷ Text row.entry.domain.now ∷ Text row.entry.lang.now ∷ Text row.entry.key.now ∷ Int row.entry.place ∷ Text row.entry.suggester.now ∷ Text row.entry.forms.now ∷ []))) }
    ensures disk { BlamesTruly (state S.Store tx.old.conn.now) (state S.Store tx.new.conn.now) result }
{
    tx.execute(
        "INSERT INTO d_suggestion (number, domain, lang, key, place, suggester, forms) VALUES (?1, ?2, ?3, ?4, ?5, ?6, ?7)",
        params![
            row.number,
            row.domain,
            row.lang,
            row.key,
            row.place,
            row.suggester,
            row.forms
        ],
    )
    .and(Ok(()))
}

/// The suggestions on a unit of a domain, in the order of their places: each one's number, place, suggester and forms.
pub fn domain_suggestions_of<'a, S: Alter>(
    tx: &mut Transaction<'_, S>,
    domain: &'a str,
    lang: &'a str,
    key: &'a str,
) -> Result<Vec<Row>, Error>
    requires steady { IsSteadyOver by_domain (state S.Store tx.old.conn.now) }
    ensures same_reference { tx.new.conn.ghost_name ≡ tx.old.conn.ghost_name }
    ensures found { IsReadOf by_domain (state S.Store tx.old.conn.now) (state S.Store tx.new.conn.now) result
        (λ db rows. ShowsDomainSuggestions domain.now lang.now key.now db rows.items) }
    ensures disk { BlamesTruly (state S.Store tx.old.conn.now) (state S.Store tx.new.conn.now) result }
    ensures errors { RefusesNoRead (state S.Store tx.old.conn.now) (state S.Store tx.new.conn.now) result }
{
    tx.query_all(
        "SELECT number, place, suggester, forms FROM d_suggestion WHERE domain = ?1 AND lang = ?2 AND key = ?3 ORDER BY place",
        params![domain, lang, key],
    )
}

/// The places of the suggestions on a unit of a domain, in order.
pub fn places_of<'a, S: Alter>(
    tx: &mut Transaction<'_, S>,
    domain: &'a str,
    lang: &'a str,
    key: &'a str,
) -> Result<Vec<Row>, Error>
    requires steady { IsSteadyOver by_domain (state S.Store tx.old.conn.now) }
    ensures same_reference { tx.new.conn.ghost_name ≡ tx.old.conn.ghost_name }
    ensures found { IsReadOf by_domain (state S.Store tx.old.conn.now) (state S.Store tx.new.conn.now) result
        (λ db rows. ShowsPlaces domain.now lang.now key.now db rows.items) }
    ensures disk { BlamesTruly (state S.Store tx.old.conn.now) (state S.Store tx.new.conn.now) result }
    ensures errors { RefusesNoRead (state S.Store tx.old.conn.now) (state S.Store tx.new.conn.now) result }
{
    tx.query_all(
        "SELECT place FROM d_suggestion WHERE domain = ?1 AND lang = ?2 AND key = ?3 ORDER BY place",
        params![domain, lang, key],
    )
}

/// The suggestion of a number on a unit of a domain: number, place, suggester and forms. None, where no suggestion of this number is on
/// the unit.
pub fn find_domain_suggestion<'a, S: Alter>(
    tx: &mut Transaction<'_, S>,
    domain: &'a str,
    lang: &'a str,
    key: &'a str,
    number: &'a str,
) -> Result<Option<Row>, Error>
    requires steady { IsSteadyOver by_domain (state S.Store tx.old.conn.now) }
    ensures same_reference { tx.new.conn.ghost_name ≡ tx.old.conn.ghost_name }
    ensures found { IsReadOf by_domain (state S.Store tx.old.conn.now) (state S.Store tx.new.conn.now) result
        (ShowsSuggestionOf domain.now lang.now key.now number.now) }
    ensures disk { BlamesTruly (state S.Store tx.old.conn.now) (state S.Store tx.new.conn.now) result }
    ensures errors { RefusesNoRead (state S.Store tx.old.conn.now) (state S.Store tx.new.conn.now) result }
{
    let mut rows = tx.query_all(
        "SELECT number, place, suggester, forms FROM d_suggestion WHERE number = ?1 AND +domain = ?2 AND +lang = ?3 AND +key = ?4",
        params![number, domain, lang, key],
    )?;
    Ok(rows.pop())
}

/// The place of the suggestion of a number on a unit of a domain. None, where no suggestion of this number is on the unit.
pub fn find_domain_place<'a, S: Alter>(
    tx: &mut Transaction<'_, S>,
    domain: &'a str,
    lang: &'a str,
    key: &'a str,
    number: &'a str,
) -> Result<Option<Row>, Error>
    requires steady { IsSteadyOver by_domain (state S.Store tx.old.conn.now) }
    ensures same_reference { tx.new.conn.ghost_name ≡ tx.old.conn.ghost_name }
    ensures found { IsReadOf by_domain (state S.Store tx.old.conn.now) (state S.Store tx.new.conn.now) result
        (ShowsPlaceOf domain.now lang.now key.now number.now) }
    ensures disk { BlamesTruly (state S.Store tx.old.conn.now) (state S.Store tx.new.conn.now) result }
    ensures errors { RefusesNoRead (state S.Store tx.old.conn.now) (state S.Store tx.new.conn.now) result }
{
    let mut rows = tx.query_all(
        "SELECT place FROM d_suggestion WHERE number = ?1 AND +domain = ?2 AND +lang = ?3 AND +key = ?4",
        params![number, domain, lang, key],
    )?;
    Ok(rows.pop())
}

/// A domain's suggestions by language, key and place: each one's number, place, suggester, forms, language and key.
pub(crate) fn all_domain_suggestions<S: Alter>(
    tx: &mut Transaction<'_, S>,
    domain: &str,
) -> Result<Vec<Row>, Error>
    requires steady { IsSteadyOver by_domain (state S.Store tx.old.conn.now) }
    ensures same_reference { tx.new.conn.ghost_name ≡ tx.old.conn.ghost_name }
    ensures found { IsReadOf by_domain (state S.Store tx.old.conn.now) (state S.Store tx.new.conn.now) result
        (λ db rows. ShowsSuggestionsIn (seen_in domain.now (rows_named db)) rows.items) }
    ensures disk { BlamesTruly (state S.Store tx.old.conn.now) (state S.Store tx.new.conn.now) result }
    ensures errors { RefusesNoRead (state S.Store tx.old.conn.now) (state S.Store tx.new.conn.now) result }
{
    tx.query_all(
        "SELECT number, place, suggester, forms, lang, key FROM d_suggestion WHERE domain = ?1 ORDER BY lang, key, place",
        params![domain],
    )
}
