//! The table of the templates of all domains.
ghost use Rattle.std.specs.Prelude.{◌≡◌, ◌∷◌, [], codes};
ghost use Rattle.sqlite.specs.Held.{state};
ghost use Rattle.sqlite.specs.declared.types.Value.TheVariants.{Int, Text};
ghost use Rattle.sql_laws.specs.DiskErrors.{BlamesTruly};
ghost use Rattle.sql_schema.specs.Errors.{RefusesNoRead};
ghost use Rattle.sql_schema.specs.Layouts.{by_domain, rows_named};
ghost use Rattle.sql_schema.specs.SeenRows.{seen_in};
ghost use Rattle.sql_schema.specs.Inside.{IsSteadyOver, IsInsideOf, PutsRow, HoldsValues, IsReadOf};
ghost use Rattle.sql_schema.specs.Keys.{has_text, domain_place};
ghost use Rattle.sql_statements.specs.Taken.{TakesRows};
ghost use Rattle.sql_statements.specs.DomainEntries.{is_entry_of};
ghost use Rattle.sql_statements.specs.DomainAnswers.{ShowsDomainEntry};
ghost use Rattle.sql_statements.specs.Tables.{ShowsTemplateIn};
ghost use Rattle.std.specs.Option.{option_copied};
ghost use Rattle.sql_schema.specs.Rows.{text_or_null};

use sqlite::{Alter, Error, Row, Transaction, params};

/// The row of a template's entry, each column by its name.
#[derive(Clone, Copy)]
pub struct EntryRow<'a> {
    pub domain: &'a str,
    /// Its place in the template.
    pub place: i64,
    pub key: &'a str,
    /// NULL, where there is none.
    pub plural: Option<&'a str>,
    pub extracted: &'a str,
    pub refs: &'a str,
    pub flags: &'a str,
}

/// Takes each entry out of a domain's template.
pub fn empty_domain_template<S: Alter>(
    tx: &mut Transaction<'_, S>,
    domain: &str,
) -> Result<(), Error>
    requires steady { IsSteadyOver by_domain (state S.Store tx.old.conn.now) }
    ensures same_reference { tx.new.conn.ghost_name ≡ tx.old.conn.ghost_name }
    ensures taken { IsInsideOf by_domain (state S.Store tx.old.conn.now) (state S.Store tx.new.conn.now) result
        (TakesRows (codes "d_template") (has_text 1 domain.now)) }
    ensures disk { BlamesTruly (state S.Store tx.old.conn.now) (state S.Store tx.new.conn.now) result }
{
    tx.execute("DELETE FROM d_template WHERE domain = ?1", params![domain])
        .and(Ok(()))
}

/// Takes the entry of a key out of a domain's template, where it has one.
pub fn take_domain_entry<'a, S: Alter>(
    tx: &mut Transaction<'_, S>,
    domain: &'a str,
    key: &'a str,
) -> Result<(), Error>
    requires steady { IsSteadyOver by_domain (state S.Store tx.old.conn.now) }
    ensures same_reference { tx.new.conn.ghost_name ≡ tx.old.conn.ghost_name }
    ensures taken { IsInsideOf by_domain (state S.Store tx.old.conn.now) (state S.Store tx.new.conn.now) result
        (TakesRows (codes "d_template") (is_entry_of domain.now key.now)) }
    ensures disk { BlamesTruly (state S.Store tx.old.conn.now) (state S.Store tx.new.conn.now) result }
{
    tx.execute(
        "DELETE FROM d_template WHERE domain = ?1 AND key = ?2",
        params![domain, key],
    )
    .and(Ok(()))
}

/// The entry of a key in a domain's template: plural, extracted comments, references and flags. None, where the template has no such
/// entry.
pub fn find_domain_entry<'a, S: Alter>(
    tx: &mut Transaction<'_, S>,
    domain: &'a str,
    key: &'a str,
) -> Result<Option<Row>, Error>
    requires steady { IsSteadyOver by_domain (state S.Store tx.old.conn.now) }
    ensures same_reference { tx.new.conn.ghost_name ≡ tx.old.conn.ghost_name }
    ensures found { IsReadOf by_domain (state S.Store tx.old.conn.now) (state S.Store tx.new.conn.now) result
        (ShowsDomainEntry domain.now key.now) }
    ensures disk { BlamesTruly (state S.Store tx.old.conn.now) (state S.Store tx.new.conn.now) result }
    ensures errors { RefusesNoRead (state S.Store tx.old.conn.now) (state S.Store tx.new.conn.now) result }
{
    let mut rows = tx.query_all(
        "SELECT plural, extracted, refs, flags FROM d_template WHERE domain = ?1 AND key = ?2",
        params![domain, key],
    )?;
    Ok(rows.pop())
}

/// Writes the row of an entry of a domain's template, where its place and its key must be new.
pub fn put_domain_entry<S: Alter>(
    tx: &mut Transaction<'_, S>,
    row: EntryRow<'_>,
) -> Result<(), Error>
    requires steady { IsSteadyOver by_domain (state S.Store tx.old.conn.now) }
    ensures same_reference { tx.new.conn.ghost_name ≡ tx.old.conn.ghost_name }
    ensures put { IsInsideOf by_domain (state S.Store tx.old.conn.now) (state S.Store tx.new.conn.now) result
        (PutsRow (codes "d_template") domain_place (HoldsValues (Text row.entry.domain.now ∷ Int row.entry.place ∷ Text row.entry.key.now ∷ text_or_null (option_copied row.entry.plural) ∷ Text row.entry.extracted.now ∷ Text row.entry.refs.now ∷ Text row.entry.flags.now ∷ []))) }
    ensures disk { BlamesTruly (state S.Store tx.old.conn.now) (state S.Store tx.new.conn.now) result }
{
    tx.execute(
        "INSERT INTO d_template (domain, place, key, plural, extracted, refs, flags) VALUES (?1, ?2, ?3, ?4, ?5, ?6, ?7)",
        params![
            row.domain,
            row.place,
            row.key,
            row.plural,
            row.extracted,
            row.refs,
            row.flags
        ],
    )
    .and(Ok(()))
}

/// A domain's template by place: each entry's plural, extracted comments, references, flags, key and place.
pub fn all_domain_entries<S: Alter>(
    tx: &mut Transaction<'_, S>,
    domain: &str,
) -> Result<Vec<Row>, Error>
    requires steady { IsSteadyOver by_domain (state S.Store tx.old.conn.now) }
    ensures same_reference { tx.new.conn.ghost_name ≡ tx.old.conn.ghost_name }
    ensures found { IsReadOf by_domain (state S.Store tx.old.conn.now) (state S.Store tx.new.conn.now) result
        (λ db rows. ShowsTemplateIn (seen_in domain.now (rows_named db)) rows.items) }
    ensures disk { BlamesTruly (state S.Store tx.old.conn.now) (state S.Store tx.new.conn.now) result }
    ensures errors { RefusesNoRead (state S.Store tx.old.conn.now) (state S.Store tx.new.conn.now) result }
{
    tx.query_all(
        "SELECT plural, extracted, refs, flags, key, place FROM d_template WHERE domain = ?1 ORDER BY place",
        params![domain],
    )
}
