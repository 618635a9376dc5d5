//! How a transaction that writes ends.
ghost use Rattle.std.specs.Prelude.{◌≡◌, false, IfErr, IsErrAnd};
ghost use Rattle.sqlite.specs.Held.{state};
ghost use Rattle.sql_commits.specs.Ends.{Finishes, EndsTruly};

use sql_decoding::Failure;
use sqlite::{Alter, Transaction};

/// Commits what was written. Where a write failed, its failure is handed on, and nothing stays of what was written.
pub fn finish<S: Alter>(tx: Transaction<'_, S>, written: Result<(), Failure>) -> Result<(), Failure>
    ensures ended { tx.exit.0.now.in_transaction ≡ false }
    ensures finished { Finishes S.Store tx.entry.conn.now tx.exit.0.now written result }
    ensures told { IfErr written (λ failure. IsErrAnd result (λ told. told ≡ failure)) }
    ensures disk { EndsTruly (state S.Store tx.entry.conn.now) (state S.Store tx.exit.0.now) written result }
{
    written?;
    tx.commit().map_err(Failure::from)
}
