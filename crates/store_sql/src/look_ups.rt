//! Whole transactions that read: a question, asked in a transaction of its own. It ends by a commit, since only that
//! tells that the connection is still open.
ghost use Rattle.std.specs.Prelude.{◌≡◌, ⊤, false};
ghost use Rattle.sqlite.specs.Effect.{Database};
ghost use Rattle.sqlite.specs.Held.{state};
ghost use Rattle.sql_laws.specs.DiskErrors.{BlamesTruly};
ghost use Rattle.sql_schema.specs.Inside.{IsSteadyOver, IsReadOf};
ghost use Rattle.sql_schema.specs.Whole.{IsIdleOver, IsLookUp};
ghost use Rattle.sql_schema.specs.Layouts.{by_domain};
ghost use Rattle.sql_decoding.specs.DiskFailures.{FailsTruly};

use crate::questions::PolicyHeld;
use sql_decoding::Failure;
use sqlite::{Alter, Connection, Error, Transaction};

/// What is asked inside a transaction.
pub(crate) trait Question: Drop {
    /// What it is answered.
    type Answer: Drop;

    /// What an answer shows of the tables.
    ghost Shows: { Self → Database → Self.Answer → Type 0 };

    /// Asks it.
    fn ask<S: Alter>(self, tx: &mut Transaction<'_, S>) -> Result<Self::Answer, Error>
        requires steady { IsSteadyOver by_domain (state S.Store tx.old.conn.now) }
        ensures same_reference { tx.new.conn.ghost_name ≡ tx.old.conn.ghost_name }
        ensures found { IsReadOf by_domain (state S.Store tx.old.conn.now) (state S.Store tx.new.conn.now) result (Shows self) }
        ensures disk { BlamesTruly (state S.Store tx.old.conn.now) (state S.Store tx.new.conn.now) result };
}

/// Asks a question in a transaction of its own. On an error nothing is known, and the rows are as before.
pub(crate) fn look_up<S: Alter, Q: Question>(
    connection: &mut Connection<S>,
    question: Q,
) -> Result<Q::Answer, Error>
    requires autocommit { connection.old.in_transaction ≡ false }
    requires idle { IsIdleOver by_domain (state S.Store connection.old) }
    ensures found { IsLookUp (state S.Store connection.old) (state S.Store connection.new) result (Q.Shows question) }
    ensures disk { BlamesTruly (state S.Store connection.old) (state S.Store connection.new) result }
{
    let mut tx = connection.transaction();
    let found = question.ask(&mut tx)?;
    tx.commit().and(Ok(found))
}

/// Looks at the connection alone: an answer tells that it is still open.
pub(crate) fn look<S: Alter>(connection: &mut Connection<S>) -> Result<(), Failure>
    requires autocommit { connection.old.in_transaction ≡ false }
    requires idle { IsIdleOver by_domain (state S.Store connection.old) }
    ensures looked { IsLookUp (state S.Store connection.old) (state S.Store connection.new) result (λ _ _. ⊤) }
    ensures disk { FailsTruly (state S.Store connection.old) (state S.Store connection.new) result }
{
    let policy = look_up(connection, PolicyHeld)?;
    drop(policy);
    Ok(())
}
