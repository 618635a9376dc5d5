//! How many units are approved.

ghost use Rattle.std.specs.Prelude.{◌≡◌};
ghost use Rattle.sqlite.specs.Held.{state};
ghost use Rattle.sql_laws.specs.DiskErrors.{BlamesTruly};
ghost use Rattle.sql_schema.specs.Errors.{RefusesNoRead};
ghost use Rattle.sql_schema.specs.Layouts.{by_domain};
ghost use Rattle.sql_schema.specs.Inside.{IsSteadyOver, IsReadOf};
ghost use Rattle.sql_statements.specs.ApprovalCounts.{ShowsApprovals};

use sqlite::{Alter, Error, Row, Transaction};

/// Of each domain, in any order: how many of its units are approved, and how many of these are at the last revision. SQLite counts them, so
/// that there are as many rows as domains.
pub fn approval_counts<S: Alter>(tx: &mut Transaction<'_, S>) -> Result<Vec<Row>, Error>
    requires steady { IsSteadyOver by_domain (state S.Store tx.old.conn.now) }
    ensures same_reference { tx.new.conn.ghost_name ≡ tx.old.conn.ghost_name }
    ensures found { IsReadOf by_domain (state S.Store tx.old.conn.now) (state S.Store tx.new.conn.now) result
        (λ db rows. ShowsApprovals db rows.items) }
    ensures disk { BlamesTruly (state S.Store tx.old.conn.now) (state S.Store tx.new.conn.now) result }
    ensures errors { RefusesNoRead (state S.Store tx.old.conn.now) (state S.Store tx.new.conn.now) result }
{
    tx.query_all(
        "SELECT (SELECT count(*) FROM d_unit WHERE d_unit.domain = domain.name AND state = 3) AS approved, (SELECT count(*) FROM d_unit WHERE d_unit.domain = domain.name AND state = 3 AND revision = 9000000000000000) AS at_last FROM domain",
        &[],
    )
}
