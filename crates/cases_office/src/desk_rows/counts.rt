//! How many rows the tables have.
use sqlite::{Alter, Connection};
use std::alloc::Global;

const TABLES: [&str; 11] = [
    "team",
    "policy",
    "domain",
    "d_template",
    "d_language",
    "d_unit",
    "d_suggestion",
    "d_vote",
    "d_vote_sum",
    "d_tally",
    "record",
];

/// How many rows a table has.
fn count<S: Alter>(alloc: Global, connection: &mut Connection<S>, table: &str) -> Option<i64> {
    let text = format!(in alloc; "SELECT count(*) FROM {table}").ok()?;
    let row = connection.query_row(text.as_str(), &[]).ok()?;
    row.get::<i64>(0).ok()
}

/// The tables that have rows, each with their number.
fn counts<S: Alter>(alloc: Global, connection: &mut Connection<S>) -> Option<String> {
    let mut told = String::new(alloc);
    for table in TABLES {
        let count = count(alloc, connection, table)?;
        if 0 < count {
            write!(told, "{table} {count}, ").ok()?;
        }
    }
    let told = told.as_str().strip_suffix(", ")?;
    String::from_str(alloc, told).ok()
}

/// How many rows the tables of a connection have, which is dropped.
pub(crate) fn counts_of<S: Alter + Drop>(
    alloc: Global,
    connection: Connection<S>,
) -> Option<String> {
    let mut connection = connection;
    let told = counts(alloc, &mut connection);
    drop(connection);
    told
}
