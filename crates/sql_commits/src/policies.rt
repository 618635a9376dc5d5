//! The policy.
ghost use Rattle.std.specs.Prelude.{◌≡◌, codes};
ghost use Rattle.sqlite.specs.Held.{state};
ghost use Rattle.sql_schema.specs.Layouts.{by_domain, SparesOthers};
ghost use Rattle.sql_schema.specs.Inside.{IsSteadyOver, IsInsideOf, OnRows};
ghost use Rattle.sql_meaning.specs.RowChanges.{HaveNextIn};
ghost use Rattle.sql_changes.specs.OnDomains.{OnDomainsWhere, OnEach};
ghost use Rattle.sql_changes.specs.Commits.{PutsPolicy, WritesPolicy};
ghost use Rattle.sql_commits.specs.Figures.{FollowsPolicy};
ghost use Rattle.sql_commits.specs.Rows.{PutsPolicyOf};
ghost use Rattle.sql_laws.specs.DiskErrors.{BlamesTruly};

use sql_columns::policy_columns;
use sql_statements::domain_units::unapprove_domain_units;
use sql_statements::policy::{PolicyRow, set_policy};
use sql_statements::tallies::unapprove_tallies;
use sqlite::{Alter, Error, Transaction};
use units::Policy;

/// The number of the tables' form.
const SCHEMA: i64 = 3;

/// Writes the policy. Under one without reviews each approved unit of each domain, also an obsolete one, becomes translated at its next
/// revision, and is counted so.
pub fn write_policy<S: Alter>(tx: &mut Transaction<'_, S>, policy: &Policy) -> Result<(), Error>
    requires steady { IsSteadyOver by_domain (state S.Store tx.old.conn.now) }
    ensures same_reference { tx.new.conn.ghost_name ≡ tx.old.conn.ghost_name }
    ensures put { IsInsideOf by_domain (state S.Store tx.old.conn.now) (state S.Store tx.new.conn.now) result (OnDomainsWhere HaveNextIn (λ domain. WritesPolicy policy.now)) }
    ensures figures { IsInsideOf by_domain (state S.Store tx.old.conn.now) (state S.Store tx.new.conn.now) result (FollowsPolicy policy.now) }
    ensures disk { BlamesTruly (state S.Store tx.old.conn.now) (state S.Store tx.new.conn.now) result }
{
    put_policy_of(tx, policy)?;
    if policy.reviews {
        Ok(())
    } else {
        unapprove_domain_units(tx)?;
        unapprove_tallies(tx)
    }
}

/// Writes the policy's row, in the third form of the tables.
pub fn put_policy_of<S: Alter>(tx: &mut Transaction<'_, S>, policy: &Policy) -> Result<(), Error>
    requires steady { IsSteadyOver by_domain (state S.Store tx.old.conn.now) }
    ensures same_reference { tx.new.conn.ghost_name ≡ tx.old.conn.ghost_name }
    ensures put { IsInsideOf by_domain (state S.Store tx.old.conn.now) (state S.Store tx.new.conn.now) result (OnEach (PutsPolicy policy.now)) }
    ensures others { IsInsideOf by_domain (state S.Store tx.old.conn.now) (state S.Store tx.new.conn.now) result (OnRows (SparesOthers (codes "policy"))) }
    ensures row { IsInsideOf by_domain (state S.Store tx.old.conn.now) (state S.Store tx.new.conn.now) result (PutsPolicyOf policy.now) }
    ensures disk { BlamesTruly (state S.Store tx.old.conn.now) (state S.Store tx.new.conn.now) result }
{
    let columns = policy_columns(policy);
    set_policy(
        tx,
        PolicyRow {
            schema: SCHEMA,
            reviews: columns.reviews,
            guests_suggest: columns.guests_suggest,
            voting: columns.voting,
            accept_at: columns.accept_at,
            placeholders: columns.placeholders,
            line_ends: columns.line_ends,
        },
    )
}
