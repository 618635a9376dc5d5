//! Whether each suggestion of tables by domains has the sum of the votes on it, and few votes: each has a sum, and the sums are read one at a
//! time, beside the votes that they are of.
ghost use Rattle.std.specs.Prelude.{◌≡◌, ◌+ℤ◌, ◌-ℤ◌, pos, false, unwrap_or, IfErr, IsTrue};
ghost use Rattle.sqlite.specs.Held.{state};
ghost use Rattle.sqlite.specs.State.{HasCleanDisk};
ghost use Rattle.sql_schema.specs.Layouts.{by_domain, rows_named};
ghost use Rattle.sql_schema.specs.Whole.{IsIdleOver, IsLookUp};
ghost use Rattle.sql_meaning.specs.Values.{natural_at};
ghost use Rattle.sql_adoption.specs.SumsKept as spec;
ghost use Rattle.sql_adoption.specs.SumsKept.{AreSummed, HaveOwnFew, HaveOwnSums, HaveToldFew, HaveToldSums, RefusesOwnSums, RefusesSums};
ghost use Rattle.sql_adoption.specs.Reading.{OpensTruly};

use crate::faults::{Mismatch, OpenFault};
use crate::unit_sinks::NoRow;
use sql_decoding::{Failure, natural_in};
use sql_layouts::integer_of;
use sql_statements::vote_sums::{walk_sums, walk_unsummed};
use sql_streams::RowSink;
use sqlite::{Alter, Connection, Row};
use units::VOTE_LIMIT;

/// 1 and the votes for, less those against.
fn sum_of(votes_for: Option<i64>, against: Option<i64>) -> i128
    ensures { result ≡ (pos 1 +ℤ unwrap_or votes_for (pos 0)) -ℤ unwrap_or against (pos 0) }
{
    1 + votes_for.unwrap_or(0) as i128 - against.unwrap_or(0) as i128
}

/// Whether the sum that a row shows is that of the votes that it counts.
fn is_kept_sum(row: &Row) -> bool
    ensures { result ≡ spec.is_kept_sum row.now }
{
    let sum = sum_of(integer_of(row, 2), integer_of(row, 3));
    match integer_of(row, 1) {
        Some(kept) => kept as i128 == sum,
        None => false,
    }
}

/// How many votes a row counts in a column.
fn votes_in(row: &Row, at: usize) -> usize
    ensures { result ≡ natural_at at row.now }
{
    natural_in(row, at).unwrap_or(0)
}

/// Whether the votes that a row counts are few.
fn has_few_votes(row: &Row) -> bool
    ensures { result ≡ spec.has_few_votes row.now }
{
    votes_in(row, 2) as u128 + votes_in(row, 3) as u128 <= VOTE_LIMIT as u128
}

/// Takes rows that show sums beside votes, and tells whether each sum is that of the votes, and whether these are few. No row is refused.
#[derive(Drop)]
struct Sums {
    kept: bool,
    few: bool,
}

impl RowSink for Sums {
    ghost use Rattle.sql_adoption.specs.SumsKept.{TellsSums, sums_none, sums_more};

    type Refusal = Failure;

    ghost Took = { λ a rows b. TellsSums a.kept a.few rows b.kept b.few };

    ghost Refuses = { λ a row failure b. ⊥ };

    ghost none = { λ s. sums_none s.kept s.few };

    ghost more = { λ a b c xs ys one two. sums_more a.kept b.kept c.kept a.few b.few c.few xs ys one two };

    fn take(&mut self, row: &Row) -> Result<(), Failure> {
        let kept = is_kept_sum(row);
        self.kept = self.kept && kept;
        let few = has_few_votes(row);
        self.few = self.few && few;
        Ok(())
    }
}

/// Tests that each suggestion has a sum, of a connection that is open.
fn keep_summed<S: Alter>(connection: &mut Connection<S>) -> Result<(), OpenFault>
    requires autocommit { connection.old.in_transaction ≡ false }
    requires idle { IsIdleOver by_domain (state S.Store connection.old) }
    requires is_open { HasCleanDisk (state S.Store connection.old) → IsTrue (state S.Store connection.old).is_open }
    ensures found { IsLookUp (state S.Store connection.old) (state S.Store connection.new) result (λ db _. AreSummed (rows_named db)) }
    ensures refused { IfErr result (λ fault. HasCleanDisk (state S.Store connection.new) → RefusesSums (rows_named (state S.Store connection.old).now) fault) }
    ensures disk { OpensTruly (state S.Store connection.old) (state S.Store connection.new) result }
{
    let mut rows = NoRow { none: true };
    walk_unsummed(connection, &mut rows)?;
    if rows.none {
        Ok(())
    } else {
        Err(OpenFault::Foreign(Mismatch::OtherFigures))
    }
}

/// Tests that each sum is that of the votes on its suggestion, and that these are few, of a connection that is open.
fn keep_own_sums<S: Alter>(connection: &mut Connection<S>) -> Result<(), OpenFault>
    requires autocommit { connection.old.in_transaction ≡ false }
    requires idle { IsIdleOver by_domain (state S.Store connection.old) }
    requires is_open { HasCleanDisk (state S.Store connection.old) → IsTrue (state S.Store connection.old).is_open }
    ensures found { IsLookUp (state S.Store connection.old) (state S.Store connection.new) result (λ db _. HaveOwnFew (rows_named db) × HaveOwnSums (rows_named db)) }
    ensures refused { IfErr result (λ fault. HasCleanDisk (state S.Store connection.new) → RefusesOwnSums (rows_named (state S.Store connection.old).now) fault) }
    ensures disk { OpensTruly (state S.Store connection.old) (state S.Store connection.new) result }
{
    let mut sums = Sums {
        kept: true,
        few: true,
    };
    walk_sums(connection, &mut sums)?;
    if !sums.few {
        return Err(OpenFault::Foreign(Mismatch::BrokenRules));
    }
    if sums.kept {
        Ok(())
    } else {
        Err(OpenFault::Foreign(Mismatch::OtherFigures))
    }
}

/// Tests that each suggestion has the sum of the votes on it, and few votes, of a connection that is open.
pub(crate) fn keep_sums<S: Alter>(connection: &mut Connection<S>) -> Result<(), OpenFault>
    requires autocommit { connection.old.in_transaction ≡ false }
    requires idle { IsIdleOver by_domain (state S.Store connection.old) }
    requires is_open { HasCleanDisk (state S.Store connection.old) → IsTrue (state S.Store connection.old).is_open }
    ensures found { IsLookUp (state S.Store connection.old) (state S.Store connection.new) result (λ db _. HaveToldFew (rows_named db) × HaveToldSums (rows_named db)) }
    ensures refused { IfErr result (λ fault. HasCleanDisk (state S.Store connection.new) → RefusesSums (rows_named (state S.Store connection.old).now) fault) }
    ensures disk { OpensTruly (state S.Store connection.old) (state S.Store connection.new) result }
{
    keep_summed(connection)?;
    keep_own_sums(connection)
}
