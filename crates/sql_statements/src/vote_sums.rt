//! The table of sums: what each suggestion's votes come to, and how many there are beside it.

ghost use Rattle.std.specs.Prelude.{◌≡◌, ◌∷◌, [], ⊤, false, codes, IsTrue, IfErr};
ghost use Rattle.sqlite.specs.Held.{state};
ghost use Rattle.sqlite.specs.State.{HasCleanDisk};
ghost use Rattle.sqlite.specs.declared.types.Value.TheVariants.{Int, Text};
ghost use Rattle.sql_laws.specs.DiskErrors.{BlamesTruly};
ghost use Rattle.sql_schema.specs.Errors.{RefusesNoRead};
ghost use Rattle.sql_schema.specs.Layouts.{by_domain};
ghost use Rattle.sql_schema.specs.Inside.{IsSteadyOver, IsInsideOf, PutsRow, HoldsValues, IsReadOf};
ghost use Rattle.sql_schema.specs.Keys.{first_text};
ghost use Rattle.sql_schema.specs.Whole.{IsIdleOver, IsLookUp};
ghost use Rattle.sql_statements.specs.DomainAnswers.{ShowsSum};
ghost use Rattle.sql_statements.specs.SummedVotes.{ShowsSummed};
ghost use Rattle.sql_statements.specs.WalkedRows.{ShowsUnsummed};
ghost use Rattle.sql_statements.specs.Unrefused.{RefusesNoWalk};
ghost use Rattle.sql_streams.specs.Walks.{HandsOut, FailsTruly};

use sql_streams::{RowSink, WalkFault, walk};
use sqlite::{Alter, Connection, Error, Row, Transaction, params};

/// Writes the sum of a suggestion, which must be there: anew if it has none, and else in the place of the one that is there.
pub fn put_sum<S: Alter>(tx: &mut Transaction<'_, S>, number: &str, sum: i64) -> Result<(), Error>
    requires steady { IsSteadyOver by_domain (state S.Store tx.old.conn.now) }
    ensures same_reference { tx.new.conn.ghost_name ≡ tx.old.conn.ghost_name }
    ensures put { IsInsideOf by_domain (state S.Store tx.old.conn.now) (state S.Store tx.new.conn.now) result
        (PutsRow (codes "d_vote_sum") first_text (HoldsValues (Text number.now ∷ Int sum ∷ []))) }
    ensures disk { BlamesTruly (state S.Store tx.old.conn.now) (state S.Store tx.new.conn.now) result }
{
    tx.execute(
        "INSERT INTO d_vote_sum (number, sum) VALUES (?1, ?2) ON CONFLICT (number) DO UPDATE SET sum = excluded.sum",
        params![number, sum],
    )
    .and(Ok(()))
}

/// The sum of a suggestion. None, where none was written.
pub fn find_sum<S: Alter>(tx: &mut Transaction<'_, S>, number: &str) -> Result<Option<Row>, Error>
    requires steady { IsSteadyOver by_domain (state S.Store tx.old.conn.now) }
    ensures same_reference { tx.new.conn.ghost_name ≡ tx.old.conn.ghost_name }
    ensures found { IsReadOf by_domain (state S.Store tx.old.conn.now) (state S.Store tx.new.conn.now) result
        (ShowsSum number.now) }
    ensures disk { BlamesTruly (state S.Store tx.old.conn.now) (state S.Store tx.new.conn.now) result }
    ensures errors { RefusesNoRead (state S.Store tx.old.conn.now) (state S.Store tx.new.conn.now) result }
{
    let mut rows = tx.query_all(
        "SELECT sum FROM d_vote_sum WHERE number = ?1",
        params![number],
    )?;
    Ok(rows.pop())
}

/// Hands each sum to a sink, in the order of the suggestions' numbers: the suggestion's number, the sum that is kept of the votes on it, and how
/// many of these are for it, and how many against, of a connection that is open.
pub fn walk_sums<S: Alter, K: RowSink>(
    connection: &mut Connection<S>,
    sink: &mut K,
) -> Result<(), WalkFault<K::Refusal>>
    requires autocommit { connection.old.in_transaction ≡ false }
    requires idle { IsIdleOver by_domain (state S.Store connection.old) }
    requires is_open { HasCleanDisk (state S.Store connection.old) → IsTrue (state S.Store connection.old).is_open }
    ensures handed { HasCleanDisk (state S.Store connection.new)
        → HandsOut K.Took K.Refuses (ShowsSummed (state S.Store connection.old).now) sink.old sink.new result }
    ensures looked { IsLookUp (state S.Store connection.old) (state S.Store connection.new) result (λ _ _. ⊤) }
    ensures disk { HasCleanDisk (state S.Store connection.new) → IfErr result (FailsTruly (state S.Store connection.old) (state S.Store connection.new)) }
    ensures errors { RefusesNoWalk (state S.Store connection.old) (state S.Store connection.new) result }
{
    walk(
        connection,
        "SELECT number, sum, (SELECT count(*) FROM d_vote WHERE d_vote.number = d_vote_sum.number AND value = 1) AS votes_for, (SELECT count(*) FROM d_vote WHERE d_vote.number = d_vote_sum.number AND value = -1) AS against FROM d_vote_sum ORDER BY number",
        &[],
        sink,
    )
}

/// Hands each suggestion to a sink of which no sum is kept, in the order of their numbers: its number, of a connection that is open.
pub fn walk_unsummed<S: Alter, K: RowSink>(
    connection: &mut Connection<S>,
    sink: &mut K,
) -> Result<(), WalkFault<K::Refusal>>
    requires autocommit { connection.old.in_transaction ≡ false }
    requires idle { IsIdleOver by_domain (state S.Store connection.old) }
    requires is_open { HasCleanDisk (state S.Store connection.old) → IsTrue (state S.Store connection.old).is_open }
    ensures handed { HasCleanDisk (state S.Store connection.new)
        → HandsOut K.Took K.Refuses (ShowsUnsummed (state S.Store connection.old).now) sink.old sink.new result }
    ensures looked { IsLookUp (state S.Store connection.old) (state S.Store connection.new) result (λ _ _. ⊤) }
    ensures disk { HasCleanDisk (state S.Store connection.new) → IfErr result (FailsTruly (state S.Store connection.old) (state S.Store connection.new)) }
    ensures errors { RefusesNoWalk (state S.Store connection.old) (state S.Store connection.new) result }
{
    walk(
        connection,
        "SELECT number FROM d_suggestion WHERE (SELECT count(*) FROM d_vote_sum WHERE d_vote_sum.number = d_suggestion.number) = 0 ORDER BY number",
        &[],
        sink,
    )
}
