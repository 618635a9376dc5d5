//! The table of tallies: what each language of each domain counts.
ghost use Rattle.std.specs.Prelude.{◌≡◌, ◌∷◌, [], codes};
ghost use Rattle.sqlite.specs.Held.{state};
ghost use Rattle.sqlite.specs.declared.types.Value.TheVariants.{Int, Text};
ghost use Rattle.sql_laws.specs.DiskErrors.{BlamesTruly};
ghost use Rattle.sql_schema.specs.Errors.{RefusesNoRead};
ghost use Rattle.sql_schema.specs.Layouts.{by_domain};
ghost use Rattle.sql_schema.specs.Inside.{IsSteadyOver, IsInsideOf, PutsRow, HoldsValues, IsReadOf};
ghost use Rattle.sql_schema.specs.Keys.{key_texts};
ghost use Rattle.sql_statements.specs.DomainAnswers.{ShowsTally, ShowsTallies};
ghost use Rattle.sql_statements.specs.DomainRenewed.{UnapprovesTallies};

use sqlite::{Alter, Error, Row, Transaction, params};

/// The row of a tally, each column by its name.
#[derive(Clone, Copy)]
pub struct TallyRow<'a> {
    pub domain: &'a str,
    pub lang: &'a str,
    pub untranslated: i64,
    pub needs_editing: i64,
    pub translated: i64,
    pub approved: i64,
    pub read_only: i64,
    pub suggestions: i64,
    pub obsolete: i64,
}

/// The tally of a domain's language: untranslated, needing editing, translated, approved, read-only, suggestions and obsolete. None,
/// where there is no such language.
pub fn find_tally<'a, S: Alter>(
    tx: &mut Transaction<'_, S>,
    domain: &'a str,
    lang: &'a str,
) -> Result<Option<Row>, Error>
    requires steady { IsSteadyOver by_domain (state S.Store tx.old.conn.now) }
    ensures same_reference { tx.new.conn.ghost_name ≡ tx.old.conn.ghost_name }
    ensures found { IsReadOf by_domain (state S.Store tx.old.conn.now) (state S.Store tx.new.conn.now) result
        (ShowsTally domain.now lang.now) }
    ensures disk { BlamesTruly (state S.Store tx.old.conn.now) (state S.Store tx.new.conn.now) result }
    ensures errors { RefusesNoRead (state S.Store tx.old.conn.now) (state S.Store tx.new.conn.now) result }
{
    let mut rows = tx.query_all(
        "SELECT untranslated, needs_editing, translated, approved, read_only, suggestions, obsolete FROM d_tally WHERE domain = ?1 AND lang = ?2",
        params![domain, lang],
    )?;
    Ok(rows.pop())
}

/// Writes the tally of a domain's language: anew if it has none, and else in the place of the one that is there.
pub fn put_tally<S: Alter>(tx: &mut Transaction<'_, S>, row: TallyRow<'_>) -> Result<(), Error>
    requires steady { IsSteadyOver by_domain (state S.Store tx.old.conn.now) }
    ensures same_reference { tx.new.conn.ghost_name ≡ tx.old.conn.ghost_name }
    ensures put { IsInsideOf by_domain (state S.Store tx.old.conn.now) (state S.Store tx.new.conn.now) result
        (PutsRow (codes "d_tally") (key_texts (1 ∷ 2 ∷ [])) (HoldsValues (Text row.entry.domain.now ∷ Text row.entry.lang.now ∷ Int row.entry.untranslated ∷ Int row.entry.needs_editing ∷ Int row.entry.translated ∷ Int row.entry.approved ∷ Int row.entry.read_only ∷ Int row.entry.suggestions ∷ Int row.entry.obsolete ∷ []))) }
    ensures disk { BlamesTruly (state S.Store tx.old.conn.now) (state S.Store tx.new.conn.now) result }
{
    tx.execute(
        "INSERT INTO d_tally (domain, lang, untranslated, needs_editing, translated, approved, read_only, suggestions, obsolete) VALUES (?1, ?2, ?3, ?4, ?5, ?6, ?7, ?8, ?9) ON CONFLICT (domain, lang) DO UPDATE SET untranslated = excluded.untranslated, needs_editing = excluded.needs_editing, translated = excluded.translated, approved = excluded.approved, read_only = excluded.read_only, suggestions = excluded.suggestions, obsolete = excluded.obsolete",
        params![
            row.domain,
            row.lang,
            row.untranslated,
            row.needs_editing,
            row.translated,
            row.approved,
            row.read_only,
            row.suggestions,
            row.obsolete
        ],
    )
    .and(Ok(()))
}

/// A domain's tallies by language: each one's untranslated, needing editing, translated, approved, read-only, suggestions, obsolete and
/// language.
pub fn all_tallies<S: Alter>(tx: &mut Transaction<'_, S>, domain: &str) -> Result<Vec<Row>, Error>
    requires steady { IsSteadyOver by_domain (state S.Store tx.old.conn.now) }
    ensures same_reference { tx.new.conn.ghost_name ≡ tx.old.conn.ghost_name }
    ensures found { IsReadOf by_domain (state S.Store tx.old.conn.now) (state S.Store tx.new.conn.now) result
        (λ db rows. ShowsTallies domain.now db rows.items) }
    ensures disk { BlamesTruly (state S.Store tx.old.conn.now) (state S.Store tx.new.conn.now) result }
    ensures errors { RefusesNoRead (state S.Store tx.old.conn.now) (state S.Store tx.new.conn.now) result }
{
    tx.query_all(
        "SELECT untranslated, needs_editing, translated, approved, read_only, suggestions, obsolete, lang FROM d_tally WHERE domain = ?1 ORDER BY lang",
        params![domain],
    )
}

/// Counts in each tally, of each domain, what was approved as translated. No such sum may be more than 64 bits hold.
pub fn unapprove_tallies<S: Alter>(tx: &mut Transaction<'_, S>) -> Result<(), Error>
    requires steady { IsSteadyOver by_domain (state S.Store tx.old.conn.now) }
    ensures same_reference { tx.new.conn.ghost_name ≡ tx.old.conn.ghost_name }
    ensures unapproved { IsInsideOf by_domain (state S.Store tx.old.conn.now) (state S.Store tx.new.conn.now) result UnapprovesTallies }
    ensures disk { BlamesTruly (state S.Store tx.old.conn.now) (state S.Store tx.new.conn.now) result }
{
    tx.execute(
        "UPDATE d_tally SET translated = translated + approved, approved = 0",
        &[],
    )
    .and(Ok(()))
}
