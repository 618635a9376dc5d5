//! The table of the units of all domains.
ghost use Rattle.std.specs.Prelude.{◌≡◌, codes};
ghost use Rattle.sqlite.specs.Held.{state, state as state_of};
ghost use Rattle.sql_laws.specs.DiskErrors.{BlamesTruly};
ghost use Rattle.sql_schema.specs.Errors.{RefusesNoRead};
ghost use Rattle.sql_schema.specs.Layouts.{by_domain, rows_named};
ghost use Rattle.sql_schema.specs.SeenRows.{seen_in};
ghost use Rattle.sql_schema.specs.Inside.{IsSteadyOver, IsInsideOf, PutsRow, HoldsValues, IsReadOf};
ghost use Rattle.sql_schema.specs.Keys.{first_three};
ghost use Rattle.sql_statements.specs.DomainAnswers.{ShowsDomainUnit, ShowsLanguageUnits};
ghost use Rattle.sql_statements.specs.DomainRenewed.{UnapprovesDomainUnits};
ghost use Rattle.sql_statements.specs.Tables.{ShowsUnitsIn};
ghost use Rattle.std.specs.Option.{option_copied};
ghost use Rattle.sql_schema.specs.Rows.{d_unit_row};

use sqlite::{Alter, Error, Row, Transaction, params};

/// The row of a unit, each column by its name.
#[derive(Clone, Copy)]
pub struct UnitRow<'a> {
    pub domain: &'a str,
    pub lang: &'a str,
    pub key: &'a str,
    /// NULL, where there is none.
    pub plural: Option<&'a str>,
    pub forms: &'a str,
    pub state: i64,
    pub obsolete: i64,
    pub revision: i64,
    pub comment: &'a str,
    pub previous: &'a str,
}

/// The unit of a key in a domain's language: plural, forms, state, whether it is obsolete, revision, comment and previous texts. None,
/// where there is no such unit.
pub fn find_domain_unit<'a, S: Alter>(
    tx: &mut Transaction<'_, S>,
    domain: &'a str,
    lang: &'a str,
    key: &'a str,
) -> Result<Option<Row>, Error>
    requires steady { IsSteadyOver by_domain (state S.Store tx.old.conn.now) }
    ensures same_reference { tx.new.conn.ghost_name ≡ tx.old.conn.ghost_name }
    ensures found { IsReadOf by_domain (state S.Store tx.old.conn.now) (state S.Store tx.new.conn.now) result
        (ShowsDomainUnit domain.now lang.now key.now) }
    ensures disk { BlamesTruly (state S.Store tx.old.conn.now) (state S.Store tx.new.conn.now) result }
    ensures errors { RefusesNoRead (state S.Store tx.old.conn.now) (state S.Store tx.new.conn.now) result }
{
    let mut rows = tx.query_all(
        "SELECT plural, forms, state, obsolete, revision, comment, previous FROM d_unit WHERE domain = ?1 AND lang = ?2 AND key = ?3",
        params![domain, lang, key],
    )?;
    Ok(rows.pop())
}

/// Writes the row of a unit: anew if its domain's language has none of its key, and else in the place of the one that is there.
pub fn put_domain_unit<S: Alter>(tx: &mut Transaction<'_, S>, row: UnitRow<'_>) -> Result<(), Error>
    requires steady { IsSteadyOver by_domain (state_of S.Store tx.old.conn.now) }
    ensures same_reference { tx.new.conn.ghost_name ≡ tx.old.conn.ghost_name }
    ensures put { IsInsideOf by_domain (state_of S.Store tx.old.conn.now) (state_of S.Store tx.new.conn.now) result
        (PutsRow (codes "d_unit") first_three (HoldsValues (d_unit_row row.entry.domain.now row.entry.lang.now row.entry.key.now (option_copied row.entry.plural) row.entry.forms.now row.entry.state row.entry.obsolete row.entry.revision row.entry.comment.now row.entry.previous.now))) }
    ensures disk { BlamesTruly (state_of S.Store tx.old.conn.now) (state_of S.Store tx.new.conn.now) result }
{
    tx.execute(
        "INSERT INTO d_unit (domain, lang, key, plural, forms, state, obsolete, revision, comment, previous) VALUES (?1, ?2, ?3, ?4, ?5, ?6, ?7, ?8, ?9, ?10) ON CONFLICT (domain, lang, key) DO UPDATE SET plural = excluded.plural, forms = excluded.forms, state = excluded.state, obsolete = excluded.obsolete, revision = excluded.revision, comment = excluded.comment, previous = excluded.previous",
        params![
            row.domain,
            row.lang,
            row.key,
            row.plural,
            row.forms,
            row.state,
            row.obsolete,
            row.revision,
            row.comment,
            row.previous
        ],
    )
    .and(Ok(()))
}

/// A domain's units by language and key: each one's plural, forms, state, whether it is obsolete, revision, comment, previous texts,
/// language and key.
pub(crate) fn all_domain_units<S: Alter>(
    tx: &mut Transaction<'_, S>,
    domain: &str,
) -> Result<Vec<Row>, Error>
    requires steady { IsSteadyOver by_domain (state S.Store tx.old.conn.now) }
    ensures same_reference { tx.new.conn.ghost_name ≡ tx.old.conn.ghost_name }
    ensures found { IsReadOf by_domain (state S.Store tx.old.conn.now) (state S.Store tx.new.conn.now) result
        (λ db rows. ShowsUnitsIn (seen_in domain.now (rows_named db)) rows.items) }
    ensures disk { BlamesTruly (state S.Store tx.old.conn.now) (state S.Store tx.new.conn.now) result }
    ensures errors { RefusesNoRead (state S.Store tx.old.conn.now) (state S.Store tx.new.conn.now) result }
{
    tx.query_all(
        "SELECT plural, forms, state, obsolete, revision, comment, previous, lang, key FROM d_unit WHERE domain = ?1 ORDER BY lang, key",
        params![domain],
    )
}

/// The units of a domain's language by key: each one's plural, forms, state, whether it is obsolete, revision, comment, previous texts
/// and key.
pub fn units_of_language<'a, S: Alter>(
    tx: &mut Transaction<'_, S>,
    domain: &'a str,
    lang: &'a str,
) -> Result<Vec<Row>, Error>
    requires steady { IsSteadyOver by_domain (state S.Store tx.old.conn.now) }
    ensures same_reference { tx.new.conn.ghost_name ≡ tx.old.conn.ghost_name }
    ensures found { IsReadOf by_domain (state S.Store tx.old.conn.now) (state S.Store tx.new.conn.now) result
        (λ db rows. ShowsLanguageUnits domain.now lang.now db rows.items) }
    ensures disk { BlamesTruly (state S.Store tx.old.conn.now) (state S.Store tx.new.conn.now) result }
    ensures errors { RefusesNoRead (state S.Store tx.old.conn.now) (state S.Store tx.new.conn.now) result }
{
    tx.query_all(
        "SELECT plural, forms, state, obsolete, revision, comment, previous, key FROM d_unit WHERE domain = ?1 AND lang = ?2 ORDER BY key",
        params![domain, lang],
    )
}

/// Makes each approved unit, of each domain's languages and also an obsolete one, a translated one at its next revision. No revision may
/// be the last that 64 bits hold.
pub fn unapprove_domain_units<S: Alter>(tx: &mut Transaction<'_, S>) -> Result<(), Error>
    requires steady { IsSteadyOver by_domain (state S.Store tx.old.conn.now) }
    ensures same_reference { tx.new.conn.ghost_name ≡ tx.old.conn.ghost_name }
    ensures unapproved { IsInsideOf by_domain (state S.Store tx.old.conn.now) (state S.Store tx.new.conn.now) result UnapprovesDomainUnits }
    ensures disk { BlamesTruly (state S.Store tx.old.conn.now) (state S.Store tx.new.conn.now) result }
{
    tx.execute(
        "UPDATE d_unit SET state = 2, revision = revision + 1 WHERE state = 3",
        &[],
    )
    .and(Ok(()))
}
