//! The table of the team, which each form of an office's tables has.
ghost use Rattle.std.specs.Prelude.{◌≡◌, ◌∷◌, [], codes};
ghost use Rattle.sqlite.specs.Held.{state};
ghost use Rattle.sqlite.specs.declared.types.Value.TheVariants.{Int, Text};
ghost use Rattle.sql_laws.specs.DiskErrors.{BlamesTruly};
ghost use Rattle.sql_schema.specs.Errors.{RefusesNoRead};
ghost use Rattle.sql_schema.specs.Layouts.{Form};
ghost use Rattle.sql_schema.specs.Inside.{IsSteadyOver, IsInsideOf, PutsRow, HoldsValues, IsReadOf};
ghost use Rattle.sql_schema.specs.Keys.{first_text, has_text};
ghost use Rattle.sql_statements.specs.Taken.{TakesRows};
ghost use Rattle.sql_statements.specs.Tables.{ShowsTeam};
ghost use Rattle.sql_statements.specs.Answers.{ShowsMember};

use sqlite::{Alter, Error, Row, Transaction, params};

/// Writes a member of the team, a name and a role from 1 to 3: anew if the name has none, and else in the place of the one that is there.
pub fn set_member<S: Alter>(tx: &mut Transaction<'_, S>, name: &str, role: i64) -> Result<(), Error>
    ensures same_reference { tx.new.conn.ghost_name ≡ tx.old.conn.ghost_name }
    ensures put { (form : Form) → IsSteadyOver form (state S.Store tx.old.conn.now) → IsInsideOf form (state S.Store tx.old.conn.now) (state S.Store tx.new.conn.now) result
        (PutsRow (codes "team") first_text (HoldsValues (Text name.now ∷ Int role ∷ []))) }
    ensures disk { BlamesTruly (state S.Store tx.old.conn.now) (state S.Store tx.new.conn.now) result }
{
    tx.execute(
        "INSERT INTO team (name, role) VALUES (?1, ?2) ON CONFLICT (name) DO UPDATE SET role = excluded.role",
        params![name, role],
    )
    .and(Ok(()))
}

/// Takes a member out of the team; where no member has the name, nothing changes.
pub fn remove_member<S: Alter>(tx: &mut Transaction<'_, S>, name: &str) -> Result<(), Error>
    ensures same_reference { tx.new.conn.ghost_name ≡ tx.old.conn.ghost_name }
    ensures taken { (form : Form) → IsSteadyOver form (state S.Store tx.old.conn.now) → IsInsideOf form (state S.Store tx.old.conn.now) (state S.Store tx.new.conn.now) result (TakesRows (codes "team") (has_text 1 name.now)) }
    ensures disk { BlamesTruly (state S.Store tx.old.conn.now) (state S.Store tx.new.conn.now) result }
{
    tx.execute("DELETE FROM team WHERE name = ?1", params![name])
        .and(Ok(()))
}

/// The team by name: each member's role and name.
pub fn all_members<S: Alter>(tx: &mut Transaction<'_, S>) -> Result<Vec<Row>, Error>
    ensures same_reference { tx.new.conn.ghost_name ≡ tx.old.conn.ghost_name }
    ensures found { (form : Form) → IsSteadyOver form (state S.Store tx.old.conn.now) → IsReadOf form (state S.Store tx.old.conn.now) (state S.Store tx.new.conn.now) result
        (λ db rows. ShowsTeam db rows.items) }
    ensures disk { BlamesTruly (state S.Store tx.old.conn.now) (state S.Store tx.new.conn.now) result }
    ensures errors { (form : Form) → IsSteadyOver form (state S.Store tx.old.conn.now)
        → RefusesNoRead (state S.Store tx.old.conn.now) (state S.Store tx.new.conn.now) result }
{
    tx.query_all("SELECT role, name FROM team ORDER BY name", &[])
}

/// The role of a member of the team. None, where the team has nobody of that name.
pub fn find_member<S: Alter>(tx: &mut Transaction<'_, S>, name: &str) -> Result<Option<Row>, Error>
    ensures same_reference { tx.new.conn.ghost_name ≡ tx.old.conn.ghost_name }
    ensures found { (form : Form) → IsSteadyOver form (state S.Store tx.old.conn.now) → IsReadOf form (state S.Store tx.old.conn.now) (state S.Store tx.new.conn.now) result
        (ShowsMember name.now) }
    ensures disk { BlamesTruly (state S.Store tx.old.conn.now) (state S.Store tx.new.conn.now) result }
    ensures errors { (form : Form) → IsSteadyOver form (state S.Store tx.old.conn.now) → RefusesNoRead (state S.Store tx.old.conn.now) (state S.Store tx.new.conn.now) result }
{
    let mut rows = tx.query_all("SELECT role FROM team WHERE name = ?1", params![name])?;
    Ok(rows.pop())
}
