//! A member's role.
ghost use Rattle.std.specs.Prelude.{◌≡◌, ℤ, Some};
ghost use Rattle.sqlite.specs.Held.{state};
ghost use Rattle.sql_schema.specs.Layouts.{by_domain};
ghost use Rattle.sql_schema.specs.Inside.{IsSteadyOver, IsInsideOf};
ghost use Rattle.sql_meaning.specs.Beginnings.{PutsMember};
ghost use Rattle.sql_changes.specs.OnDomains.{OnEach};
ghost use Rattle.sql_columns.specs.Numbers.{role_number};
ghost use Rattle.sql_changes.specs.Commits.{WritesRole};
ghost use Rattle.sql_figures.specs.Figures.{FiguresStay};
ghost use Rattle.sql_laws.specs.DiskErrors.{BlamesTruly};

use sql_columns::role_column;
use sql_statements::team::{remove_member, set_member};
use sqlite::{Alter, Error, Transaction};
use units::Role;

/// Writes a member's row: the office's team with that role, where a guest isn't in the team.
pub fn write_role<S: Alter>(
    tx: &mut Transaction<'_, S>,
    name: &str,
    role: Role,
) -> Result<(), Error>
    requires steady { IsSteadyOver by_domain (state S.Store tx.old.conn.now) }
    ensures same_reference { tx.new.conn.ghost_name ≡ tx.old.conn.ghost_name }
    ensures put { IsInsideOf by_domain (state S.Store tx.old.conn.now) (state S.Store tx.new.conn.now) result (OnEach (WritesRole name.now (role_number role))) }
    ensures figures { IsInsideOf by_domain (state S.Store tx.old.conn.now) (state S.Store tx.new.conn.now) result FiguresStay }
    ensures member { (column : ℤ) → role_number role ≡ Some column → IsInsideOf by_domain (state S.Store tx.old.conn.now) (state S.Store tx.new.conn.now) result (PutsMember name.now column) }
    ensures disk { BlamesTruly (state S.Store tx.old.conn.now) (state S.Store tx.new.conn.now) result }
{
    match role_column(role) {
        Some(column) => set_member(tx, name, column),
        None => remove_member(tx, name),
    }
}
