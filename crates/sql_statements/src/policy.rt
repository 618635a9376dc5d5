//! The table of the policy, which has one row, and which each form of an office's tables has.
ghost use Rattle.std.specs.Prelude.{◌≡◌, ◌∷◌, [], pos, codes};
ghost use Rattle.sqlite.specs.Held.{state};
ghost use Rattle.sqlite.specs.declared.types.Value.TheVariants.{Null, Int};
ghost use Rattle.sql_laws.specs.DiskErrors.{BlamesTruly};
ghost use Rattle.sql_schema.specs.Errors.{RefusesNoRead};
ghost use Rattle.sql_schema.specs.Layouts.{Form};
ghost use Rattle.sql_schema.specs.Inside.{IsSteadyOver, IsInsideOf, PutsRow, IsReadOf};
ghost use Rattle.sql_schema.specs.Keys.{row_number};
ghost use Rattle.sql_statements.specs.Answers.{ShowsPolicy};

use sqlite::{Alter, Error, Row, Transaction, params};

/// The row of the policy, each column by its name: which form the tables have, and the office's rules, each as a number.
#[derive(Clone, Copy)]
pub struct PolicyRow {
    pub schema: i64,
    pub reviews: i64,
    pub guests_suggest: i64,
    pub voting: i64,
    pub accept_at: i64,
    pub placeholders: i64,
    pub line_ends: i64,
}

/// Writes the policy in the place of the one that is there. `one` is another name of the rowid, which is 1; the column itself holds NULL.
pub fn set_policy<S: Alter>(tx: &mut Transaction<'_, S>, policy: PolicyRow) -> Result<(), Error>
    ensures same_reference { tx.new.conn.ghost_name ≡ tx.old.conn.ghost_name }
    ensures put { (form : Form) → IsSteadyOver form (state S.Store tx.old.conn.now) → IsInsideOf form (state S.Store tx.old.conn.now) (state S.Store tx.new.conn.now) result
        (PutsRow (codes "policy") row_number (λ row. row ≡ Int (pos 1) ∷ Null ∷ Int policy.schema ∷ Int policy.reviews ∷ Int policy.guests_suggest ∷ Int policy.voting ∷ Int policy.accept_at ∷ Int policy.placeholders ∷ Int policy.line_ends ∷ [])) }
    ensures disk { BlamesTruly (state S.Store tx.old.conn.now) (state S.Store tx.new.conn.now) result }
{
    tx.execute(
        "INSERT INTO policy (one, schema, reviews, guests_suggest, voting, accept_at, placeholders, line_ends) VALUES (1, ?1, ?2, ?3, ?4, ?5, ?6, ?7) ON CONFLICT (one) DO UPDATE SET schema = excluded.schema, reviews = excluded.reviews, guests_suggest = excluded.guests_suggest, voting = excluded.voting, accept_at = excluded.accept_at, placeholders = excluded.placeholders, line_ends = excluded.line_ends",
        params![
            policy.schema,
            policy.reviews,
            policy.guests_suggest,
            policy.voting,
            policy.accept_at,
            policy.placeholders,
            policy.line_ends
        ],
    )
    .and(Ok(()))
}

/// The policy: the file's schema, whether suggestions are reviewed, whether guests suggest, whether there are votes, how many accept, and
/// what is checked of placeholders and line ends. None, where it wasn't written.
pub fn find_policy<S: Alter>(tx: &mut Transaction<'_, S>) -> Result<Option<Row>, Error>
    ensures same_reference { tx.new.conn.ghost_name ≡ tx.old.conn.ghost_name }
    ensures found { (form : Form) → IsSteadyOver form (state S.Store tx.old.conn.now) → IsReadOf form (state S.Store tx.old.conn.now) (state S.Store tx.new.conn.now) result
        ShowsPolicy }
    ensures disk { BlamesTruly (state S.Store tx.old.conn.now) (state S.Store tx.new.conn.now) result }
    ensures errors { (form : Form) → IsSteadyOver form (state S.Store tx.old.conn.now)
        → RefusesNoRead (state S.Store tx.old.conn.now) (state S.Store tx.new.conn.now) result }
{
    let mut rows = tx.query_all(
        "SELECT schema, reviews, guests_suggest, voting, accept_at, placeholders, line_ends FROM policy WHERE one = 1",
        &[],
    )?;
    Ok(rows.pop())
}
