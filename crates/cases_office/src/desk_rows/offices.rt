//! Two offices that get the same requests, one in maps, and one on SQLite in memory.
ghost use Rattle.std.specs.Prelude.{◌≡◌, false};

use crate::desk_rows::asked::{Asked, answer};
use crate::desk_rows::counts::counts_of;
use crate::desks::{desk_in_maps, start};
use office::Desk;
use request_book::Request;
use sqlite::{Alter, Connection, MemStore};
use std::alloc::Global;
use store_sql::SqliteTables;
use tables::{PlainTables, Start};

/// Offices that get the same requests. (What stands over any offices never sees their types: each function that owns tables on SQLite is
/// dear to prove.)
pub(crate) trait Offices: Drop {
    /// Opens offices that begin alike: with the demo, or with this manager alone.
    fn open(alloc: Global, who: &str) -> Option<Self>;

    /// What they answer.
    fn told(&mut self, alloc: Global, asked: Asked<'_>) -> Option<String>;

    /// Closes them, and tells how many rows the tables on SQLite have.
    fn close(self, alloc: Global) -> Option<String>;
}

/// The reply to a line.
pub(crate) fn reply<O: Offices>(alloc: Global, offices: &mut O, line: &str) -> Option<String> {
    match Request::from_json(alloc, line) {
        Ok(request) => {
            let told = offices.told(alloc, Asked::Reply(&request));
            drop(request);
            told
        }
        Err(_) => None,
    }
}

/// An office in maps, and the same on SQLite.
#[derive(Drop)]
pub(crate) struct Both {
    in_maps: Desk<PlainTables>,
    on_sqlite: Desk<SqliteTables<MemStore>>,
}

/// A desk over tables that are made on a connection.
fn desk_on<S: Alter + Drop>(
    alloc: Global,
    connection: Connection<S>,
    start: &Start,
) -> Option<Desk<SqliteTables<S>>>
    requires { connection.in_transaction ≡ false }
{
    match SqliteTables::create(connection, alloc, start) {
        Ok(tables) => Some(Desk::new(alloc, tables)),
        Err((_, connection)) => {
            drop(connection);
            None
        }
    }
}

/// A desk over tables on SQLite in memory.
fn desk_on_sqlite(alloc: Global, start: &Start) -> Option<Desk<SqliteTables<MemStore>>> {
    match Connection::open_in_memory(alloc) {
        Ok(connection) => desk_on(alloc, connection, start),
        Err(_) => None,
    }
}

fn offices_of(alloc: Global, start: &Start) -> Option<Both> {
    let in_maps = desk_in_maps(alloc, start)?;
    match desk_on_sqlite(alloc, start) {
        Some(on_sqlite) => Some(Both { in_maps, on_sqlite }),
        None => {
            drop(in_maps);
            None
        }
    }
}

impl Offices for Both {
    fn open(alloc: Global, who: &str) -> Option<Both> {
        match start(who) {
            Some(start) => offices_of(alloc, &start),
            None => None,
        }
    }

    /// What both answer, where it is the same, and else each.
    fn told(&mut self, alloc: Global, asked: Asked<'_>) -> Option<String> {
        let in_maps = answer(alloc, &mut self.in_maps, asked)?;
        let on_sqlite = answer(alloc, &mut self.on_sqlite, asked)?;
        if in_maps.as_str() == on_sqlite.as_str() {
            return Some(in_maps);
        }
        format!(in alloc; "{in_maps} in maps, {on_sqlite} on SQLite").ok()
    }

    fn close(self, alloc: Global) -> Option<String> {
        let Both { in_maps, on_sqlite } = self;
        drop(in_maps);
        counts_of(alloc, on_sqlite.into_tables().into_connection())
    }
}
