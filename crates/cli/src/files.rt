//! Offices in files.
ghost use Rattle.std.specs.Prelude.{◌≡◌, false, IfOk};

use crate::work::{Work, done, told_closed};
use crate::{STOPPED, store_fault};
use sqlite::{Connection, Error, ErrorCode, File, FileStore, Options, Unknown};
use sqlite_std_file::OpenError;
use std::fs;
use std::hash::{BuildHasher, RandomState};
use std::io::{ErrorKind, IsTerminal};
use std::rt::HostRuntime;
use store_commands::Closed;
use store_sql::OpenFault;

/// From how many bytes on a file is told at a terminal while it is opened: half a second or more.
const LARGE: u64 = 16_777_216;

/// What stands at a path.
#[derive(Clone, Copy)]
enum Found {
    Nothing,
    /// A regular file of so many bytes.
    File(u64),
    /// A folder, a device, a FIFO or a socket, which might never be opened.
    Other,
}

fn found_at(rt: &HostRuntime, path: &str) -> Found {
    match fs::metadata(rt, path) {
        Ok(found) if found.is_file() => Found::File(found.len()),
        Ok(_) => Found::Other,
        Err(_) => Found::Nothing,
    }
}

/// Whether a regular file stands at a path.
pub(crate) fn is_file(rt: &HostRuntime, path: &str) -> bool {
    matches!(found_at(rt, path), Found::File(_))
}

/// Says that a large file is opened, where somebody may wait for it at a terminal.
fn tell_opening(rt: &HostRuntime, path: &str, length: u64) {
    if LARGE <= length && rt.stderr().is_terminal() {
        // A file's name gives no orders to the terminal. Where it can't be told, the file is opened all the same.
        let _ = eprintln!(rt; "opening {}", path.escape_debug());
    }
}

/// What a refused opening of a file is told as.
fn fault_of(error: &Error) -> OpenFault {
    match error {
        Error::SqliteFailure(ErrorCode::OutOfMemory) => OpenFault::Memory,
        _ => OpenFault::Disk,
    }
}

/// How many bytes a page of a file has.
const PAGE: u64 = 4_096;

/// How many pages of a file that were read are kept in memory, at least: those that a connection keeps by itself.
const FEWEST_PAGES: u64 = 2_000;

/// How many pages of a file that were read are kept in memory, at most. Room for them is taken when the file is opened.
const MOST_PAGES: u64 = 12_000;

const CANNOT_OPEN: Error = Error::SqliteFailure(ErrorCode::CannotOpen);

/// What a refused opening of the files at a path is told as.
fn refused(error: &OpenError) -> Error {
    match error {
        OpenError::OutOfMemory => Error::SqliteFailure(ErrorCode::OutOfMemory),
        OpenError::Io(error) if error.kind() == ErrorKind::OutOfMemory => {
            Error::SqliteFailure(ErrorCode::OutOfMemory)
        }
        _ => CANNOT_OPEN,
    }
}

/// How many pages are kept of a file of so many bytes: all that it has, within the two bounds.
fn cached_pages(length: u64) -> usize {
    let pages = (length / PAGE).max(FEWEST_PAGES).min(MOST_PAGES);
    usize::try_from(pages).unwrap_or(usize::MAX)
}

/// A seed that nobody else knows, and room for the pages of a file of so many bytes.
fn options(rt: &HostRuntime, length: u64) -> Result<Options, Error> {
    let seed = RandomState::new(rt)
        .map_err(|_| CANNOT_OPEN)?
        .hash_one(&0u8);
    Ok(Options {
        cache_pages: cached_pages(length),
        ..Options::new(seed)
    })
}

/// Opens a file of so many bytes, or makes it, as `Connection::open` does, with room for the pages of a large office: acts all over it read few
/// of them again.
fn open_file(
    rt: &HostRuntime,
    path: &str,
    length: u64,
) -> Result<Connection<FileStore<File>>, Error>
    ensures between { IfOk result (λ c. c.in_transaction ≡ false) }
{
    if path == ":memory:" || path.starts_with("file:") {
        return Err(CANNOT_OPEN);
    }
    let options = options(rt, length)?;
    match sqlite_std_file::open(rt, path, Unknown) {
        Ok(files) => match Connection::open_files(rt.alloc(), files, options) {
            Ok(mut connection) => {
                connection.set_clock(rt);
                Ok(connection)
            }
            Err((error, left)) => {
                drop(left);
                Err(error)
            }
        },
        Err(error) => Err(refused(&error)),
    }
}

/// Opens a file, or makes it, does work on the office in it, and closes it: it is whole by itself then, without the log beside it.
///
/// Here alone stands the type of a connection to a file: each function that owns one is dear to prove.
fn in_open_file(rt: &HostRuntime, path: &str, length: u64, work: Work<'_>) -> u8 {
    match open_file(rt, path, length) {
        Ok(connection) => {
            let Closed {
                status,
                stopped: _,
                connection,
            } = done(rt, connection, work);
            match connection.close() {
                Ok(()) => told_closed(rt, work, status),
                // That the disk failed is told already.
                Err(_) if status == STOPPED => STOPPED,
                Err(_) => store_fault(rt, OpenFault::Disk),
            }
        }
        Err(error) => store_fault(rt, fault_of(&error)),
    }
}

/// Does work on the office in a file, which has to be there but where the work makes an office. Answers the exit status.
pub(crate) fn in_file(rt: &HostRuntime, path: &str, work: Work<'_>) -> u8 {
    let length = match found_at(rt, path) {
        Found::File(length) => length,
        Found::Nothing if !work.opens() => 0,
        _ => return store_fault(rt, OpenFault::Disk),
    };
    tell_opening(rt, path, length);
    in_open_file(rt, path, length, work)
}
