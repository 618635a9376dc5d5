//! A whole transaction that tells whether a connection's tables are an office's, and of which form. It ends by a commit, since only that tells
//! that the connection is still open.
ghost use Rattle.std.specs.Prelude.{◌≡◌, ◌↔◌, true, false};
ghost use Rattle.sqlite.specs.Held.{state};
ghost use Rattle.sqlite.specs.State.{IsLive};
ghost use Rattle.sql_layouts.specs.Found.{HoldsOfficeOf};
ghost use Rattle.sql_layouts.specs.Looks.{IsOver, IsLook, HasSchema, IsTestedOf, IsTested};
ghost use Rattle.sql_layouts.specs.Tables.{form_told};
ghost use Rattle.sql_schema.specs.Errors.{RefusesNoRead};
ghost use Rattle.sql_schema.specs.Layouts.{Form as FormOf, HasLayoutOf};

use crate::office_tables::{Form, form_of};
use crate::rowids::are_tables_apart;
use sqlite::{Alter, Connection, Error, Transaction};

/// Whether tables with the schema of an office of this form are an office's.
fn holds_office<S: Alter>(tx: &mut Transaction<'_, S>, form: Form) -> Result<bool, Error>
    requires over { IsOver (HasSchema (form_told form)) (state S.Store tx.old.conn.now) }
    ensures same_reference { tx.new.conn.ghost_name ≡ tx.old.conn.ghost_name }
    ensures found { IsLook (state S.Store tx.old.conn.now) (state S.Store tx.new.conn.now) result
        (λ db holds. (holds ≡ true) ↔ HoldsOfficeOf (form_told form) db) }
    ensures errors { RefusesNoRead (state S.Store tx.old.conn.now) (state S.Store tx.new.conn.now) result }
{
    are_tables_apart(tx, form)
}

/// The test of tables with the schema of an office of this form.
fn is_office_by_rows<S: Alter>(connection: &mut Connection<S>, form: Form) -> Result<bool, Error>
    requires autocommit { connection.old.in_transaction ≡ false }
    requires live { IsLive (state S.Store connection.old) }
    requires schema { HasLayoutOf (form_told form) (state S.Store connection.old).now }
    ensures tested { IsTestedOf (form_told form) (state S.Store connection.old) (state S.Store connection.new) result }
    ensures errors { RefusesNoRead (state S.Store connection.old) (state S.Store connection.new) result }
{
    let mut tx = connection.transaction();
    let holds = holds_office(&mut tx, form)?;
    tx.commit()?;
    Ok(holds)
}

/// The form of tables with the schema of an office of this form, if they are an office's.
fn form_by_rows<S: Alter>(connection: &mut Connection<S>, form: Form) -> Result<Option<Form>, Error>
    requires autocommit { connection.old.in_transaction ≡ false }
    requires live { IsLive (state S.Store connection.old) }
    requires schema { HasLayoutOf (form_told form) (state S.Store connection.old).now }
    ensures tested { IsTested (state S.Store connection.old) (state S.Store connection.new) result }
    ensures errors { RefusesNoRead (state S.Store connection.old) (state S.Store connection.new) result }
{
    if is_office_by_rows(connection, form)? {
        Ok(Some(form))
    } else {
        Ok(None)
    }
}

/// The test of tables with another schema.
fn is_no_office<S: Alter>(connection: &mut Connection<S>) -> Result<Option<Form>, Error>
    requires autocommit { connection.old.in_transaction ≡ false }
    requires live { IsLive (state S.Store connection.old) }
    requires other { (form : FormOf) → ¬ HasLayoutOf form (state S.Store connection.old).now }
    ensures tested { IsTested (state S.Store connection.old) (state S.Store connection.new) result }
    ensures errors { RefusesNoRead (state S.Store connection.old) (state S.Store connection.new) result }
{
    let tx = connection.transaction();
    tx.commit()?;
    Ok(None)
}

/// Which form the tables of a connection have, if they are an office's: what the texts of a form define, in their order, with nothing else
/// beside them but the tables of an earlier form, and with rowids that are integers, no two of a table the same. How the texts are spelled is
/// not asked. It changes nothing. On an error the connection shows what was last committed, or is shut: memory was wanting, the disk failed, or
/// a limit on steps was met.
pub fn office_form<S: Alter>(connection: &mut Connection<S>) -> Result<Option<Form>, Error>
    requires autocommit { connection.old.in_transaction ≡ false }
    ensures tested { IsTested (state S.Store connection.old) (state S.Store connection.new) result }
    ensures errors { RefusesNoRead (state S.Store connection.old) (state S.Store connection.new) result }
{
    match form_of(connection.schema()) {
        Some(form) => form_by_rows(connection, form),
        None => is_no_office(connection),
    }
}
