//! The table of the languages of all domains.
ghost use Rattle.std.specs.Prelude.{◌≡◌, ◌∷◌, [], codes};
ghost use Rattle.sqlite.specs.Held.{state};
ghost use Rattle.sqlite.specs.declared.types.Value.TheVariants.{Text};
ghost use Rattle.sql_laws.specs.DiskErrors.{BlamesTruly};
ghost use Rattle.sql_schema.specs.Errors.{RefusesNoRead};
ghost use Rattle.sql_schema.specs.Layouts.{by_domain, rows_named};
ghost use Rattle.sql_schema.specs.SeenRows.{seen_in};
ghost use Rattle.sql_schema.specs.Inside.{IsSteadyOver, IsInsideOf, PutsRow, HoldsValues, IsReadOf};
ghost use Rattle.sql_schema.specs.Keys.{key_texts};
ghost use Rattle.sql_statements.specs.DomainAnswers.{ShowsDomainLanguage};
ghost use Rattle.sql_statements.specs.Tables.{ShowsLanguagesIn};

use sqlite::{Alter, Error, Row, Transaction, params};

/// Writes a language of a domain: its code, which must be new there, its header and its plural rule.
pub fn put_domain_language<'a, S: Alter>(
    tx: &mut Transaction<'_, S>,
    domain: &'a str,
    lang: &'a str,
    header: &'a str,
    plural: &'a str,
) -> Result<(), Error>
    requires steady { IsSteadyOver by_domain (state S.Store tx.old.conn.now) }
    ensures same_reference { tx.new.conn.ghost_name ≡ tx.old.conn.ghost_name }
    ensures put { IsInsideOf by_domain (state S.Store tx.old.conn.now) (state S.Store tx.new.conn.now) result
        (PutsRow (codes "d_language") (key_texts (1 ∷ 2 ∷ [])) (HoldsValues (Text domain.now ∷ Text lang.now ∷ Text header.now ∷ Text plural.now ∷ []))) }
    ensures disk { BlamesTruly (state S.Store tx.old.conn.now) (state S.Store tx.new.conn.now) result }
{
    tx.execute(
        "INSERT INTO d_language (domain, lang, header, plural) VALUES (?1, ?2, ?3, ?4)",
        params![domain, lang, header, plural],
    )
    .and(Ok(()))
}

/// The header and the plural rule of a domain's language. None, where the domain has no such language.
pub fn find_domain_language<'a, S: Alter>(
    tx: &mut Transaction<'_, S>,
    domain: &'a str,
    lang: &'a str,
) -> Result<Option<Row>, Error>
    requires steady { IsSteadyOver by_domain (state S.Store tx.old.conn.now) }
    ensures same_reference { tx.new.conn.ghost_name ≡ tx.old.conn.ghost_name }
    ensures found { IsReadOf by_domain (state S.Store tx.old.conn.now) (state S.Store tx.new.conn.now) result
        (ShowsDomainLanguage domain.now lang.now) }
    ensures disk { BlamesTruly (state S.Store tx.old.conn.now) (state S.Store tx.new.conn.now) result }
    ensures errors { RefusesNoRead (state S.Store tx.old.conn.now) (state S.Store tx.new.conn.now) result }
{
    let mut rows = tx.query_all(
        "SELECT header, plural FROM d_language WHERE domain = ?1 AND lang = ?2",
        params![domain, lang],
    )?;
    Ok(rows.pop())
}

/// A domain's languages by code: each one's header, plural rule and code.
pub(crate) fn all_domain_languages<S: Alter>(
    tx: &mut Transaction<'_, S>,
    domain: &str,
) -> Result<Vec<Row>, Error>
    requires steady { IsSteadyOver by_domain (state S.Store tx.old.conn.now) }
    ensures same_reference { tx.new.conn.ghost_name ≡ tx.old.conn.ghost_name }
    ensures found { IsReadOf by_domain (state S.Store tx.old.conn.now) (state S.Store tx.new.conn.now) result
        (λ db rows. ShowsLanguagesIn (seen_in domain.now (rows_named db)) rows.items) }
    ensures disk { BlamesTruly (state S.Store tx.old.conn.now) (state S.Store tx.new.conn.now) result }
    ensures errors { RefusesNoRead (state S.Store tx.old.conn.now) (state S.Store tx.new.conn.now) result }
{
    tx.query_all(
        "SELECT header, plural, lang FROM d_language WHERE domain = ?1 ORDER BY lang",
        params![domain],
    )
}
