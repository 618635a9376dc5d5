//! Whether the rowids of each table are integers, no two the same.
ghost use Rattle.std.specs.Prelude.{◌≡◌, ◌↔◌, ◌<◌, true, None, List, length, All};
ghost use Rattle.sqlite.specs.Held.{state};
ghost use Rattle.sqlite.specs.Order.{column};
ghost use Rattle.sqlite.specs.Table.{Table};
ghost use Rattle.sql_laws.specs.ApartRows.{AreApart};
ghost use Rattle.sql_schema.specs.Errors.{RefusesNoRead};
ghost use Rattle.sql_schema.specs.Inside.{AreTablesOf};
ghost use Rattle.sql_layouts.specs.Looks.{IsOver, IsLook, HasSchema};
ghost use Rattle.sql_layouts.specs.RisingRows as spec;
ghost use Rattle.sql_layouts.specs.RowidQueries.{IsRowidQuery, AskAll};
ghost use Rattle.sql_schema.specs.Layouts.{Form as FormOf, rows_named};
ghost use Rattle.sql_layouts.specs.Tables.{form_told};

use crate::office_tables::Form;
use sqlite::types::ValueRef;
use sqlite::{Alter, Error, Row, Transaction};

/// The rowids of each of the eight tables, upwards.
const ROWIDS: [&str; 8] = [
    "SELECT rowid FROM record ORDER BY rowid",
    "SELECT rowid FROM team ORDER BY rowid",
    "SELECT rowid FROM policy ORDER BY rowid",
    "SELECT rowid FROM template ORDER BY rowid",
    "SELECT rowid FROM language ORDER BY rowid",
    "SELECT rowid FROM unit ORDER BY rowid",
    "SELECT rowid FROM suggestion ORDER BY rowid",
    "SELECT rowid FROM vote ORDER BY rowid",
];

/// The rowids of each of these and of the tables of kept figures, upwards.
const ROWIDS_WITH_FIGURES: [&str; 10] = [
    "SELECT rowid FROM record ORDER BY rowid",
    "SELECT rowid FROM team ORDER BY rowid",
    "SELECT rowid FROM policy ORDER BY rowid",
    "SELECT rowid FROM template ORDER BY rowid",
    "SELECT rowid FROM language ORDER BY rowid",
    "SELECT rowid FROM unit ORDER BY rowid",
    "SELECT rowid FROM suggestion ORDER BY rowid",
    "SELECT rowid FROM vote ORDER BY rowid",
    "SELECT rowid FROM vote_sum ORDER BY rowid",
    "SELECT rowid FROM tally ORDER BY rowid",
];

/// The rowids of each table of an office by domains, upwards.
const ROWIDS_BY_DOMAIN: [&str; 11] = [
    "SELECT rowid FROM record ORDER BY rowid",
    "SELECT rowid FROM team ORDER BY rowid",
    "SELECT rowid FROM policy ORDER BY rowid",
    "SELECT rowid FROM domain ORDER BY rowid",
    "SELECT rowid FROM d_template ORDER BY rowid",
    "SELECT rowid FROM d_language ORDER BY rowid",
    "SELECT rowid FROM d_unit ORDER BY rowid",
    "SELECT rowid FROM d_suggestion ORDER BY rowid",
    "SELECT rowid FROM d_vote ORDER BY rowid",
    "SELECT rowid FROM d_vote_sum ORDER BY rowid",
    "SELECT rowid FROM d_tally ORDER BY rowid",
];

/// The integer in a column.
pub fn integer_of(row: &Row, at: usize) -> Option<i64>
    ensures { result ≡ spec.integer_in (column row.now at) }
{
    match row.get_ref(at) {
        Ok(ValueRef::Int(id)) => Some(id),
        _ => None,
    }
}

/// Whether a number is above the last one, if there is one.
fn is_above(last: Option<i64>, id: i64) -> bool
    ensures { result ≡ spec.is_above last id }
{
    match last {
        Some(before) => before.cmp(&id).is_lt(),
        None => true,
    }
}

/// The integer that a row shows first, if it is above the last one.
fn next_integer(last: Option<i64>, row: &Row) -> Option<i64>
    ensures { result ≡ spec.follows last (spec.integer_in (column row.now 0)) }
{
    let id = integer_of(row, 0)?;
    if is_above(last, id) { Some(id) } else { None }
}

/// Whether the rows show integers, each above the one before.
fn are_rising(rows: &[Row]) -> bool
    ensures { result ≡ spec.are_rising None rows.now }
{
    let mut last = None;
    for row in rows {
        let next = next_integer(last, row);
        match next {
            Some(_) => last = next,
            None => return false,
        }
    }
    true
}

/// Whether the rowids that a query shows are integers, no two the same.
fn is_apart<S: Alter>(tx: &mut Transaction<'_, S>, query: &str) -> Result<bool, Error>
    ensures same_reference { tx.new.conn.ghost_name ≡ tx.old.conn.ghost_name }
    ensures found { (form : FormOf) (table : Table) → IsOver (HasSchema form) (state S.Store tx.old.conn.now) → IsRowidQuery form query.now table
        → IsLook (state S.Store tx.old.conn.now) (state S.Store tx.new.conn.now) result
        (λ db apart. (apart ≡ true) ↔ AreApart (rows_named db table.name)) }
    ensures errors { (form : FormOf) (table : Table) → IsOver (HasSchema form) (state S.Store tx.old.conn.now) → IsRowidQuery form query.now table
        → RefusesNoRead (state S.Store tx.old.conn.now) (state S.Store tx.new.conn.now) result }
{
    let rows = tx.query_all(query, &[])?;
    Ok(are_rising(&rows))
}

/// Whether the rowids of the tables that these queries ask for are integers, no two of a table the same.
fn are_apart<S: Alter>(tx: &mut Transaction<'_, S>, queries: &[&str]) -> Result<bool, Error>
    ensures same_reference { tx.new.conn.ghost_name ≡ tx.old.conn.ghost_name }
    ensures found { (form : FormOf) (tables : List Table) → IsOver (HasSchema form) (state S.Store tx.old.conn.now) → AskAll form queries.now tables → 0 < length tables
        → IsLook (state S.Store tx.old.conn.now) (state S.Store tx.new.conn.now) result
        (λ db apart. (apart ≡ true) ↔ All (λ table. AreApart (rows_named db table.name)) tables) }
    ensures errors { (form : FormOf) (tables : List Table) → IsOver (HasSchema form) (state S.Store tx.old.conn.now) → AskAll form queries.now tables
        → RefusesNoRead (state S.Store tx.old.conn.now) (state S.Store tx.new.conn.now) result }
{
    for query in queries {
        if !is_apart(tx, query)? {
            return Ok(false);
        }
    }
    Ok(true)
}

/// Whether the rowids of each table of an office of this form are integers, no two of a table the same.
pub(crate) fn are_tables_apart<S: Alter>(
    tx: &mut Transaction<'_, S>,
    form: Form,
) -> Result<bool, Error>
    requires over { IsOver (HasSchema (form_told form)) (state S.Store tx.old.conn.now) }
    ensures same_reference { tx.new.conn.ghost_name ≡ tx.old.conn.ghost_name }
    ensures found { IsLook (state S.Store tx.old.conn.now) (state S.Store tx.new.conn.now) result
        (λ db apart. (apart ≡ true) ↔ AreTablesOf (form_told form) (rows_named db)) }
    ensures errors { RefusesNoRead (state S.Store tx.old.conn.now) (state S.Store tx.new.conn.now) result }
{
    match form {
        Form::ForMain => are_apart(tx, &ROWIDS),
        Form::WithFigures => are_apart(tx, &ROWIDS_WITH_FIGURES),
        Form::ByDomain => are_apart(tx, &ROWIDS_BY_DOMAIN),
    }
}
