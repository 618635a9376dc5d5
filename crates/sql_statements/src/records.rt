//! The table of records, which each form of an office's tables has.
ghost use Rattle.std.specs.Prelude.{◌≡◌, ◌∷◌, [], codes};
ghost use Rattle.sqlite.specs.Held.{state};
ghost use Rattle.sqlite.specs.declared.types.Value.TheVariants.{Int, Text};
ghost use Rattle.sql_laws.specs.DiskErrors.{BlamesTruly};
ghost use Rattle.sql_schema.specs.Errors.{RefusesNoRead};
ghost use Rattle.sql_schema.specs.Layouts.{Form};
ghost use Rattle.sql_schema.specs.Inside.{IsSteadyOver, IsInsideOf, PutsRow, HoldsValues, IsReadOf};
ghost use Rattle.sql_schema.specs.Keys.{first_text};
ghost use Rattle.sql_statements.specs.Answers.{ShowsRecord};
ghost use Rattle.sql_statements.specs.RecordsInOrder.{ShowsPlace};

use sqlite::{Alter, Error, Row, Transaction, params};

/// Writes the record of a request: its number, its content's canonical text, and its reply's status and body. The number must be new;
/// one that is there is an error, and nothing is written.
pub fn put_record<S: Alter>(
    tx: &mut Transaction<'_, S>,
    number: &str,
    content: &str,
    status: i64,
    body: &str,
) -> Result<(), Error>
    ensures same_reference { tx.new.conn.ghost_name ≡ tx.old.conn.ghost_name }
    ensures put { (form : Form) → IsSteadyOver form (state S.Store tx.old.conn.now) → IsInsideOf form (state S.Store tx.old.conn.now) (state S.Store tx.new.conn.now) result
        (PutsRow (codes "record") first_text (HoldsValues (Text number.now ∷ Text content.now ∷ Int status ∷ Text body.now ∷ []))) }
    ensures disk { BlamesTruly (state S.Store tx.old.conn.now) (state S.Store tx.new.conn.now) result }
{
    tx.execute(
        "INSERT INTO record (number, content, status, body) VALUES (?1, ?2, ?3, ?4)",
        params![number, content, status, body],
    )
    .and(Ok(()))
}

/// The record of a request: its content's canonical text, and its reply's status and body. None, where no record has the number.
pub fn find_record<S: Alter>(
    tx: &mut Transaction<'_, S>,
    number: &str,
) -> Result<Option<Row>, Error>
    ensures same_reference { tx.new.conn.ghost_name ≡ tx.old.conn.ghost_name }
    ensures found { (form : Form) → IsSteadyOver form (state S.Store tx.old.conn.now) → IsReadOf form (state S.Store tx.old.conn.now) (state S.Store tx.new.conn.now) result
        (ShowsRecord number.now) }
    ensures disk { BlamesTruly (state S.Store tx.old.conn.now) (state S.Store tx.new.conn.now) result }
    ensures errors { (form : Form) → IsSteadyOver form (state S.Store tx.old.conn.now)
        → RefusesNoRead (state S.Store tx.old.conn.now) (state S.Store tx.new.conn.now) result }
{
    let mut rows = tx.query_all(
        "SELECT content, status, body FROM record WHERE number = ?1",
        params![number],
    )?;
    Ok(rows.pop())
}

/// The place of a record in the order in which the office took them, which is its rowid. None, where no record has the number.
pub fn find_place<S: Alter>(tx: &mut Transaction<'_, S>, number: &str) -> Result<Option<Row>, Error>
    ensures same_reference { tx.new.conn.ghost_name ≡ tx.old.conn.ghost_name }
    ensures found { (form : Form) → IsSteadyOver form (state S.Store tx.old.conn.now) → IsReadOf form (state S.Store tx.old.conn.now) (state S.Store tx.new.conn.now) result
        (ShowsPlace number.now) }
    ensures disk { BlamesTruly (state S.Store tx.old.conn.now) (state S.Store tx.new.conn.now) result }
    ensures errors { (form : Form) → IsSteadyOver form (state S.Store tx.old.conn.now)
        → RefusesNoRead (state S.Store tx.old.conn.now) (state S.Store tx.new.conn.now) result }
{
    let mut places = tx.query_all(
        "SELECT rowid FROM record WHERE number = ?1",
        params![number],
    )?;
    Ok(places.pop())
}
