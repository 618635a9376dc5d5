//! What a database shows before and after a deed.
use crate::deeds::{Deed, Did, did_on};
use sqlite::types::ValueRef;
use sqlite::{Alter, Connection, Row};
use std::alloc::Global;

/// The rows of all tables before a deed, what it came to, and the rows then. They are empty where nobody looks.
#[derive(Drop)]
pub(crate) struct Seen {
    pub(crate) before: String,
    pub(crate) told: String,
    pub(crate) after: String,
}

/// What was seen of a deed, and the connection, handed back.
#[derive(Drop)]
pub(crate) struct Done<S: Alter> {
    pub(crate) seen: Option<Seen>,
    pub(crate) connection: Connection<S>,
}

const TABLES: &str = "SELECT name FROM sqlite_schema WHERE type = 'table' ORDER BY name";

fn push_value(text: &mut String, value: ValueRef<'_>) -> Option<()> {
    match value {
        ValueRef::Int(number) => write!(text, "{number}, ").ok(),
        ValueRef::Text(bytes) => {
            let word = str::from_utf8(bytes).ok()?;
            write!(text, "{word}, ").ok()
        }
        _ => text.push_str("null, ").ok(),
    }
}

fn push_row(text: &mut String, row: &Row) -> Option<()> {
    for at in 0..row.column_count() {
        push_value(text, row.get_ref(at).ok()?)?;
    }
    text.push_str("; ").ok()
}

/// Adds a table's name and its rows.
fn push_table<S: Alter>(
    alloc: Global,
    text: &mut String,
    connection: &mut Connection<S>,
    name: &str,
) -> Option<()> {
    write!(text, "{name}: ").ok()?;
    let query = format!(in alloc; "SELECT * FROM \"{name}\"").ok()?;
    let rows = connection.query_all(query.as_str(), &[]).ok()?;
    for row in rows.iter() {
        push_row(text, row)?;
    }
    Some(())
}

/// The text of a row's first column.
fn name_in(row: &Row) -> Option<&str> {
    match row.get_ref(0).ok()? {
        ValueRef::Text(bytes) => str::from_utf8(bytes).ok(),
        _ => None,
    }
}

/// The rows of all tables.
fn all_rows<S: Alter>(alloc: Global, connection: &mut Connection<S>) -> Option<String> {
    let mut text = String::new(alloc);
    let tables = connection.query_all(TABLES, &[]).ok()?;
    for table in tables.iter() {
        push_table(alloc, &mut text, connection, name_in(table)?)?;
    }
    Some(text)
}

/// The rows of all tables, where somebody looks.
fn shown<S: Alter>(alloc: Global, connection: &mut Connection<S>, looks: bool) -> Option<String> {
    if looks {
        all_rows(alloc, connection)
    } else {
        Some(String::new(alloc))
    }
}

fn seen_of(before: Option<String>, told: Option<String>, after: Option<String>) -> Option<Seen> {
    Some(Seen {
        before: before?,
        told: told?,
        after: after?,
    })
}

/// Does a deed, and looks at the rows before and after it, if that is asked.
pub(crate) fn seen_on<S: Alter + Drop>(
    alloc: Global,
    mut connection: Connection<S>,
    deed: Deed<'_>,
    looks: bool,
) -> Done<S> {
    let before = shown(alloc, &mut connection, looks);
    if !connection.is_autocommit() {
        return Done {
            seen: None,
            connection,
        };
    }
    let Did {
        told,
        mut connection,
    } = did_on(alloc, connection, deed);
    let after = shown(alloc, &mut connection, looks);
    Done {
        seen: seen_of(before, told, after),
        connection,
    }
}
