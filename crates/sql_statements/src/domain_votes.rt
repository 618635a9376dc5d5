//! The table of the votes on suggestions of all domains.
ghost use Rattle.std.specs.Prelude.{◌≡◌, ◌∷◌, [], codes};
ghost use Rattle.sqlite.specs.Held.{state};
ghost use Rattle.sqlite.specs.declared.types.Value.TheVariants.{Int, Text};
ghost use Rattle.sql_laws.specs.DiskErrors.{BlamesTruly};
ghost use Rattle.sql_schema.specs.Errors.{RefusesNoRead};
ghost use Rattle.sql_schema.specs.Layouts.{by_domain, rows_named};
ghost use Rattle.sql_schema.specs.SeenRows.{seen_in};
ghost use Rattle.sql_schema.specs.Inside.{IsSteadyOver, IsInsideOf, PutsRow, HoldsValues, IsReadOf};
ghost use Rattle.sql_schema.specs.Keys.{first_texts};
ghost use Rattle.sql_statements.specs.DomainAnswers.{ShowsDomainVotes};
ghost use Rattle.sql_statements.specs.DomainVotes.{TakesVote};
ghost use Rattle.sql_statements.specs.Tables.{ShowsVotesIn};

use sqlite::{Alter, Error, Row, Transaction, params};

/// Writes a vote on a suggestion, which must be there: the suggestion's number, the voter, and 1 for or -1 against; in the place of the
/// vote of this voter on it, if there is one.
pub fn put_domain_vote<S: Alter>(
    tx: &mut Transaction<'_, S>,
    number: &str,
    voter: &str,
    value: i64,
) -> Result<(), Error>
    requires steady { IsSteadyOver by_domain (state S.Store tx.old.conn.now) }
    ensures same_reference { tx.new.conn.ghost_name ≡ tx.old.conn.ghost_name }
    ensures put { IsInsideOf by_domain (state S.Store tx.old.conn.now) (state S.Store tx.new.conn.now) result
        (PutsRow (codes "d_vote") first_texts (HoldsValues (Text number.now ∷ Text voter.now ∷ Int value ∷ []))) }
    ensures disk { BlamesTruly (state S.Store tx.old.conn.now) (state S.Store tx.new.conn.now) result }
{
    tx.execute(
        "INSERT INTO d_vote (number, voter, value) VALUES (?1, ?2, ?3) ON CONFLICT (number, voter) DO UPDATE SET value = excluded.value",
        params![number, voter, value],
    )
    .and(Ok(()))
}

/// Takes the vote of a voter on a suggestion away, where there is one.
pub fn take_domain_vote<'a, S: Alter>(
    tx: &mut Transaction<'_, S>,
    number: &'a str,
    voter: &'a str,
) -> Result<(), Error>
    requires steady { IsSteadyOver by_domain (state S.Store tx.old.conn.now) }
    ensures same_reference { tx.new.conn.ghost_name ≡ tx.old.conn.ghost_name }
    ensures taken { IsInsideOf by_domain (state S.Store tx.old.conn.now) (state S.Store tx.new.conn.now) result
        (TakesVote number.now voter.now) }
    ensures disk { BlamesTruly (state S.Store tx.old.conn.now) (state S.Store tx.new.conn.now) result }
{
    tx.execute(
        "DELETE FROM d_vote WHERE number = ?1 AND voter = ?2",
        params![number, voter],
    )
    .and(Ok(()))
}

/// The votes on a suggestion, in any order: each one's voter and value.
pub fn domain_votes_on<S: Alter>(
    tx: &mut Transaction<'_, S>,
    number: &str,
) -> Result<Vec<Row>, Error>
    requires steady { IsSteadyOver by_domain (state S.Store tx.old.conn.now) }
    ensures same_reference { tx.new.conn.ghost_name ≡ tx.old.conn.ghost_name }
    ensures found { IsReadOf by_domain (state S.Store tx.old.conn.now) (state S.Store tx.new.conn.now) result
        (λ db rows. ShowsDomainVotes number.now db rows.items) }
    ensures disk { BlamesTruly (state S.Store tx.old.conn.now) (state S.Store tx.new.conn.now) result }
    ensures errors { RefusesNoRead (state S.Store tx.old.conn.now) (state S.Store tx.new.conn.now) result }
{
    tx.query_all(
        "SELECT voter, value FROM d_vote WHERE number = ?1",
        params![number],
    )
}

/// The votes on a domain's suggestions by number and voter: each one's voter, value and number.
pub(crate) fn all_domain_votes<S: Alter>(
    tx: &mut Transaction<'_, S>,
    domain: &str,
) -> Result<Vec<Row>, Error>
    requires steady { IsSteadyOver by_domain (state S.Store tx.old.conn.now) }
    ensures same_reference { tx.new.conn.ghost_name ≡ tx.old.conn.ghost_name }
    ensures found { IsReadOf by_domain (state S.Store tx.old.conn.now) (state S.Store tx.new.conn.now) result
        (λ db rows. ShowsVotesIn (seen_in domain.now (rows_named db)) rows.items) }
    ensures disk { BlamesTruly (state S.Store tx.old.conn.now) (state S.Store tx.new.conn.now) result }
    ensures errors { RefusesNoRead (state S.Store tx.old.conn.now) (state S.Store tx.new.conn.now) result }
{
    tx.query_all(
        "SELECT voter, value, d_vote.number FROM d_vote JOIN d_suggestion ON d_suggestion.number = d_vote.number WHERE d_suggestion.domain = ?1 ORDER BY d_vote.number, voter",
        params![domain],
    )
}
