//! The rows of all tables, as a text.
use sqlite::types::ValueRef;
use sqlite::{Alter, Connection, Row};
use std::alloc::Global;

/// Those of an office, and those that an earlier form has beside.
const TABLES: [&str; 16] = [
    "team",
    "policy",
    "domain",
    "d_template",
    "d_language",
    "d_unit",
    "d_suggestion",
    "d_vote",
    "d_vote_sum",
    "d_tally",
    "record",
    "template",
    "language",
    "unit",
    "suggestion",
    "vote",
];

fn push_value(text: &mut String, value: ValueRef<'_>) -> Option<()> {
    match value {
        ValueRef::Int(number) => write!(text, "{number}, ").ok(),
        ValueRef::Text(bytes) => {
            let word = str::from_utf8(bytes).ok()?;
            write!(text, "{word}, ").ok()
        }
        _ => text.push_str("null, ").ok(),
    }
}

fn push_row(text: &mut String, row: &Row) -> Option<()> {
    for at in 0..row.column_count() {
        push_value(text, row.get_ref(at).ok()?)?;
    }
    text.push_str("; ").ok()
}

/// Adds the rows of a table; nothing where there is no such table.
fn push_table<S: Alter>(
    alloc: Global,
    text: &mut String,
    connection: &mut Connection<S>,
    table: &str,
) -> Option<()> {
    let query = format!(in alloc; "SELECT * FROM {table}").ok()?;
    let Ok(rows) = connection.query_all(query.as_str(), &[]) else {
        return Some(());
    };
    for row in rows.iter() {
        push_row(text, row)?;
    }
    Some(())
}

/// Adds the rows of all tables.
pub(crate) fn push_rows<S: Alter>(
    alloc: Global,
    text: &mut String,
    connection: &mut Connection<S>,
) -> Option<()> {
    for table in TABLES {
        write!(text, "{table}: ").ok()?;
        push_table(alloc, text, connection, table)?;
    }
    Some(())
}
