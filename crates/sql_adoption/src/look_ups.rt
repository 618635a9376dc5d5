//! The names of the domains, alone or with the team and the policy, and how many of their units are approved, read in one transaction, which ends
//! by a commit, since only that tells that the connection is still open.
ghost use Rattle.std.specs.Prelude.{◌≡◌, false};
ghost use Rattle.sqlite.specs.Held.{state};
ghost use Rattle.sql_laws.specs.DiskErrors.{BlamesTruly};
ghost use Rattle.sql_schema.specs.Whole.{IsIdleOver, IsLookUp};
ghost use Rattle.sql_schema.specs.Layouts.{by_domain};
ghost use Rattle.sql_schema.specs.Inside.{IsSteadyOver, IsReadOf};
ghost use Rattle.sql_adoption.specs.PartsRead.{ShowsShared};
ghost use Rattle.sql_statements.specs.ApprovalCounts.{ShowsApprovals};
ghost use Rattle.sql_statements.specs.DomainAnswers.{ShowsDomains};

use sql_statements::approval_counts::approval_counts;
use sql_statements::domains::all_domains;
use sql_statements::policy::find_policy;
use sql_statements::team::all_members;
use sqlite::{Alter, Connection, Error, Row, Transaction};

/// The domains by name: each one's name. On an error nothing is known of them, and the rows are as before.
pub(crate) fn look_up_domains<S: Alter>(connection: &mut Connection<S>) -> Result<Vec<Row>, Error>
    requires autocommit { connection.old.in_transaction ≡ false }
    requires idle { IsIdleOver by_domain (state S.Store connection.old) }
    ensures found { IsLookUp (state S.Store connection.old) (state S.Store connection.new) result
        (λ db rows. ShowsDomains db rows.items) }
    ensures disk { BlamesTruly (state S.Store connection.old) (state S.Store connection.new) result }
{
    let mut tx = connection.transaction();
    let rows = all_domains(&mut tx)?;
    tx.commit()?;
    Ok(rows)
}

/// The rows of what all domains share: the domains' names, the team and the policy.
#[derive(Drop)]
pub struct SharedRows {
    pub domains: Vec<Row>,
    pub team: Vec<Row>,
    pub policy: Option<Row>,
}

/// All of them. It wants the transaction open and leaves it open.
fn shared_rows<S: Alter>(tx: &mut Transaction<'_, S>) -> Result<SharedRows, Error>
    requires steady { IsSteadyOver by_domain (state S.Store tx.old.conn.now) }
    ensures same_reference { tx.new.conn.ghost_name ≡ tx.old.conn.ghost_name }
    ensures found { IsReadOf by_domain (state S.Store tx.old.conn.now) (state S.Store tx.new.conn.now) result ShowsShared }
    ensures disk { BlamesTruly (state S.Store tx.old.conn.now) (state S.Store tx.new.conn.now) result }
{
    let domains = all_domains(tx)?;
    let team = all_members(tx)?;
    let policy = find_policy(tx)?;
    Ok(SharedRows {
        domains,
        team,
        policy,
    })
}

/// The domains' names, the team and the policy. On an error nothing is known of them, and the rows are as before.
pub(crate) fn look_up_shared<S: Alter>(connection: &mut Connection<S>) -> Result<SharedRows, Error>
    requires autocommit { connection.old.in_transaction ≡ false }
    requires idle { IsIdleOver by_domain (state S.Store connection.old) }
    ensures found { IsLookUp (state S.Store connection.old) (state S.Store connection.new) result ShowsShared }
    ensures disk { BlamesTruly (state S.Store connection.old) (state S.Store connection.new) result }
{
    let mut tx = connection.transaction();
    let rows = shared_rows(&mut tx)?;
    tx.commit()?;
    Ok(rows)
}

/// How many units of each domain are approved, and how many of these are at the last revision. On an error nothing is known of them, and the
/// rows are as before.
pub(crate) fn look_up_approvals<S: Alter>(connection: &mut Connection<S>) -> Result<Vec<Row>, Error>
    requires autocommit { connection.old.in_transaction ≡ false }
    requires idle { IsIdleOver by_domain (state S.Store connection.old) }
    ensures found { IsLookUp (state S.Store connection.old) (state S.Store connection.new) result
        (λ db rows. ShowsApprovals db rows.items) }
    ensures disk { BlamesTruly (state S.Store connection.old) (state S.Store connection.new) result }
{
    let mut tx = connection.transaction();
    let rows = approval_counts(&mut tx)?;
    tx.commit()?;
    Ok(rows)
}
