//! A file in memory that is opened, worked on, and closed.

use crate::stream_rows::command_told::told;
use crate::stream_rows::deeds::{Deed, closed, done};
use crate::stream_rows::streams::Streams;
use sqlite::{Connection, Files, Options};
use sqlite_disk::{Disk, Memory};
use std::alloc::Global;
use store_commands::Closed;

/// A file with these bytes.
fn file_of(alloc: Global, bytes: &[u8]) -> Option<Files<Memory>> {
    let mut db = Memory::new(alloc);
    db.write_at(0, bytes).ok()?;
    Some(Files {
        log: Memory::new(alloc),
        db,
    })
}

/// What comes of a deed on files, and what they have once they are closed.
///
/// Here alone stands the type of a connection to a file: each function that owns one is dear to prove.
fn in_files(
    alloc: Global,
    files: Files<Memory>,
    deed: Deed<'_>,
    streams: &mut Streams<'_>,
) -> Option<(u8, Files<Memory>)> {
    if !files.log.may_be_used() || !files.db.may_be_used() {
        return None;
    }
    match Connection::open_files(alloc, files, Options::new(1)) {
        Ok(connection) => {
            let Closed {
                status,
                stopped: _,
                connection,
            } = done(alloc, connection, deed, streams);
            match connection.close_files() {
                Ok(files) => Some((closed(deed, status, streams), files)),
                Err((_, store)) => {
                    drop(store);
                    None
                }
            }
        }
        Err((_, left)) => {
            drop(left);
            None
        }
    }
}

/// What comes of a deed on a file with these bytes, and its bytes then.
pub(crate) fn in_file(
    alloc: Global,
    bytes: &[u8],
    deed: Deed<'_>,
    streams: &mut Streams<'_>,
) -> Option<(u8, Vec<u8>)> {
    let files = file_of(alloc, bytes)?;
    let (status, files) = in_files(alloc, files, deed, streams)?;
    let mut left = Vec::new(alloc);
    left.extend_from_slice(files.db.bytes()).ok()?;
    Some((status, left))
}

/// What statements make of a file with these bytes.
pub(crate) fn written(alloc: Global, bytes: &[u8], statements: &str) -> Option<Vec<u8>> {
    let mut streams = Streams::new(alloc, "", b"", usize::MAX);
    match in_file(alloc, bytes, Deed::Sql(statements), &mut streams)? {
        (0, left) => Some(left),
        _ => None,
    }
}

/// The rows of all tables of a file with these bytes.
pub(crate) fn all_rows(alloc: Global, bytes: &[u8]) -> Option<String> {
    let mut streams = Streams::new(alloc, "", b"", usize::MAX);
    match in_file(alloc, bytes, Deed::Rows, &mut streams)? {
        (0, _) => told(alloc, 0, &streams, false),
        _ => None,
    }
}
