//! Files in memory whose calls fail from one on.
use crate::deeds::Deed;
use crate::seen::{Done, Seen, seen_on};
use sqlite::{Connection, FileStore, Files, Options};
use sqlite_disk::{Crash, Disk, Fuse, Memory};
use std::alloc::Global;

/// The bytes of a database and of the log beside it.
#[derive(Drop)]
pub(crate) struct Bytes {
    pub(crate) db: Vec<u8>,
    pub(crate) log: Vec<u8>,
}

impl Bytes {
    /// Those of a file with nothing in it.
    pub(crate) fn none(alloc: Global) -> Bytes {
        Bytes {
            db: Vec::new(alloc),
            log: Vec::new(alloc),
        }
    }

    /// The same once more.
    pub(crate) fn copy(&self, alloc: Global) -> Option<Bytes> {
        Some(Bytes {
            db: copied(alloc, self.db.as_slice())?,
            log: copied(alloc, self.log.as_slice())?,
        })
    }

    pub(crate) fn equal(&self, other: &Bytes) -> bool {
        self.db.as_slice() == other.db.as_slice() && self.log.as_slice() == other.log.as_slice()
    }
}

/// How a deed is done on a file.
#[derive(Clone, Copy)]
pub(crate) struct How {
    /// How many calls of the database succeed.
    pub(crate) db: u64,
    /// How many calls of the log succeed.
    pub(crate) log: u64,
    /// Whether the rows are looked at.
    pub(crate) looks: bool,
    /// Whether the file is closed behind the deed.
    pub(crate) closes: bool,
}

/// On a disk that works, with a look at the rows.
pub(crate) const LOOKING: How = How {
    db: u64::MAX,
    log: u64::MAX,
    looks: true,
    closes: true,
};

/// On a disk whose every call behind the deed fails.
pub(crate) const STOPPING: How = How {
    db: u64::MAX,
    log: u64::MAX,
    looks: false,
    closes: false,
};

/// What came of a deed, and of the closing, and what the file has then: as it was written, and as it was synced.
#[derive(Drop)]
pub(crate) struct Ran {
    pub(crate) seen: Seen,
    pub(crate) is_closed: bool,
    pub(crate) written: Bytes,
    pub(crate) synced: Bytes,
}

/// A file of these bytes, all of which are on the disk, that so many calls succeed on.
fn file_of(alloc: Global, bytes: &[u8], calls: u64) -> Option<Fuse<Memory>> {
    let mut file = Memory::new(alloc);
    file.write_at(0, bytes).ok()?;
    file.sync().ok()?;
    Some(Fuse::new(file, calls))
}

fn files_of(alloc: Global, start: &Bytes, how: How) -> Option<Files<Fuse<Memory>>> {
    let log = file_of(alloc, start.log.as_slice(), how.log)?;
    let db = file_of(alloc, start.db.as_slice(), how.db)?;
    Some(Files { log, db })
}

fn copied(alloc: Global, bytes: &[u8]) -> Option<Vec<u8>> {
    let mut copy = Vec::new(alloc);
    copy.extend_from_slice(bytes).ok()?;
    Some(copy)
}

/// What two files hold.
fn bytes_of(alloc: Global, db: &Fuse<Memory>, log: &Fuse<Memory>) -> Option<Bytes> {
    Some(Bytes {
        db: copied(alloc, db.inner().bytes())?,
        log: copied(alloc, log.inner().bytes())?,
    })
}

/// Closes a file, or leaves it as it stands; and whether it could be closed.
fn ended(
    connection: Connection<FileStore<Fuse<Memory>>>,
    closes: bool,
) -> (bool, Files<Fuse<Memory>>) {
    if !closes {
        return (true, connection.into_store().close());
    }
    match connection.close_files() {
        Ok(files) => (true, files),
        Err((_, store)) => (false, store.close()),
    }
}

/// What is seen of a file that can't be opened.
fn unopened(alloc: Global) -> Option<Seen> {
    Some(Seen {
        before: String::new(alloc),
        told: String::from_str(alloc, "the disk failed").ok()?,
        after: String::new(alloc),
    })
}

/// Does a deed on a file, and hands its two files back.
fn in_files(
    alloc: Global,
    files: Files<Fuse<Memory>>,
    deed: Deed<'_>,
    how: How,
) -> (Option<Seen>, bool, Files<Fuse<Memory>>) {
    if !files.log.may_be_used() || !files.db.may_be_used() {
        return (None, false, files);
    }
    match Connection::open_files(alloc, files, Options::new(1)) {
        Ok(connection) => {
            let Done { seen, connection } = seen_on(alloc, connection, deed, how.looks);
            let (is_closed, files) = ended(connection, how.closes);
            (seen, is_closed, files)
        }
        Err((_, left)) => (unopened(alloc), false, left.into_files()),
    }
}

/// What two files hold: as they were written, and as they were synced.
fn left(alloc: Global, files: Files<Fuse<Memory>>) -> Option<(Bytes, Bytes)> {
    let Files { mut log, mut db } = files;
    let written = bytes_of(alloc, &db, &log)?;
    log.crash();
    db.crash();
    let synced = bytes_of(alloc, &db, &log)?;
    Some((written, synced))
}

/// What comes of a deed on a file of these bytes.
pub(crate) fn ran_on(alloc: Global, start: &Bytes, deed: Deed<'_>, how: How) -> Option<Ran> {
    let (seen, is_closed, files) = in_files(alloc, files_of(alloc, start, how)?, deed, how);
    let (written, synced) = left(alloc, files)?;
    Some(Ran {
        seen: seen?,
        is_closed,
        written,
        synced,
    })
}
