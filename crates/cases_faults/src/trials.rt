//! A deed on a file, with each call failed.
use crate::deeds::Deed;
use crate::disks::{Bytes, How, LOOKING, Ran, STOPPING, ran_on};
use crate::seen::Seen;
use std::alloc::Global;

/// More calls than any deed takes.
const MOST: u64 = 100_000;

/// Which of a file's two files fails.
#[derive(Clone, Copy)]
pub(crate) enum Failing {
    Db,
    Log,
}

impl Failing {
    pub(crate) fn named(name: &str) -> Option<Failing> {
        match name {
            "db" => Some(Failing::Db),
            "log" => Some(Failing::Log),
            _ => None,
        }
    }

    /// How a deed is done where so many of its calls succeed.
    fn behind(self, calls: u64) -> How {
        let (db, log) = match self {
            Failing::Db => (calls, u64::MAX),
            Failing::Log => (u64::MAX, calls),
        };
        How {
            db,
            log,
            looks: false,
            closes: true,
        }
    }
}

/// A deed on a disk that works, done twice, and the rows of the office as it is opened for it.
#[derive(Drop)]
struct Course {
    first: Seen,
    second: Seen,
    opened: String,
}

/// A file that a deed left, which was found right: where the deed came to what it comes to, or where it was lost.
#[derive(Drop)]
struct Right {
    left: Bytes,
    is_done: bool,
}

/// Whether a file was found right before. (Most calls that fail leave the file as it was.)
fn is_known(rights: &[Right], is_done: bool, left: &Bytes) -> bool {
    for right in rights {
        if right.is_done == is_done && right.left.equal(left) {
            return true;
        }
    }
    false
}

/// What a deed comes to on a disk that works, the rows before and after it, and the file then.
fn looked(alloc: Global, start: &Bytes, deed: Deed<'_>) -> Option<(Seen, Bytes)> {
    let Ran {
        seen,
        is_closed: _,
        written,
        synced,
    } = ran_on(alloc, start, deed, LOOKING)?;
    drop(synced);
    Some((seen, written))
}

/// The rows of an office that is opened for a deed. Nothing opens one that is to be made.
fn opened(alloc: Global, start: &Bytes, deed: Deed<'_>, before: &str) -> Option<String> {
    if let Deed::Make(_) = deed {
        return String::from_str(alloc, before).ok();
    }
    let (seen, left) = looked(alloc, start, Deed::Open)?;
    drop(left);
    String::from_str(alloc, seen.after.as_str()).ok()
}

fn course_of(alloc: Global, start: &Bytes, deed: Deed<'_>) -> Option<Course> {
    let (first, left) = looked(alloc, start, deed)?;
    let (second, left) = looked(alloc, &left, deed)?;
    drop(left);
    let opened = opened(alloc, start, deed, first.before.as_str())?;
    Some(Course {
        first,
        second,
        opened,
    })
}

impl Course {
    /// What is wrong with an office that was opened anew behind a deed, and the deed done again, if anything is.
    fn wrong_anew(&self, alloc: Global, is_done: bool, anew: &Seen) -> Option<Option<String>> {
        let rows = anew.before.as_str();
        let has_it = rows == self.first.after.as_str();
        let is_before = rows == self.first.before.as_str() || rows == self.opened.as_str();
        if !has_it && (is_done || !is_before) {
            return Some(Some(format!(in alloc; "rows {rows}").ok()?));
        }
        let wanted = if has_it { &self.second } else { &self.first };
        if anew.told.as_str() != wanted.told.as_str() {
            return Some(Some(format!(in alloc; "then {}", anew.told).ok()?));
        }
        if anew.after.as_str() != self.first.after.as_str() {
            return Some(Some(format!(in alloc; "then rows {}", anew.after).ok()?));
        }
        Some(None)
    }

    /// What is wrong with a file that a deed left, if anything is.
    fn wrong_left(
        &self,
        alloc: Global,
        rights: &mut Vec<Right>,
        deed: Deed<'_>,
        is_done: bool,
        left: &Bytes,
    ) -> Option<Option<String>> {
        if is_known(rights.as_slice(), is_done, left) {
            return Some(None);
        }
        let wrong = self.wrong_opened(alloc, deed, is_done, left)?;
        let left = left.copy(alloc)?;
        rights.push(Right { left, is_done }).ok()?;
        Some(wrong)
    }

    /// The same of one that was not looked at before.
    fn wrong_opened(
        &self,
        alloc: Global,
        deed: Deed<'_>,
        is_done: bool,
        left: &Bytes,
    ) -> Option<Option<String>> {
        let (anew, left) = looked(alloc, left, deed)?;
        drop(left);
        self.wrong_anew(alloc, is_done, &anew)
    }

    /// What is wrong with what came of a deed, if anything is.
    fn wrong_in(
        &self,
        alloc: Global,
        rights: &mut Vec<Right>,
        deed: Deed<'_>,
        ran: &Ran,
    ) -> Option<Option<String>> {
        let told = ran.seen.told.as_str();
        let is_done = told == self.first.told.as_str();
        if !is_done && told != "the disk failed" {
            return Some(Some(String::from_str(alloc, told).ok()?));
        }
        let wrong = self.wrong_left(alloc, rights, deed, is_done, &ran.written)?;
        if wrong.is_some() {
            return Some(wrong);
        }
        self.wrong_left(alloc, rights, deed, is_done, &ran.synced)
    }

    /// One trial: what was wrong, if anything was; and whether no call failed.
    fn trial(
        &self,
        alloc: Global,
        rights: &mut Vec<Right>,
        start: &Bytes,
        deed: Deed<'_>,
        how: How,
    ) -> Option<(Option<String>, bool)> {
        let ran = ran_on(alloc, start, deed, how)?;
        let wrong = self.wrong_in(alloc, rights, deed, &ran)?;
        let is_whole = ran.is_closed && ran.seen.told.as_str() == self.first.told.as_str();
        Some((wrong, is_whole))
    }

    /// How many calls of a file a deed takes, each of which was failed; or what was wrong, behind how many.
    fn tried(
        &self,
        alloc: Global,
        start: &Bytes,
        deed: Deed<'_>,
        failing: Failing,
    ) -> Option<Result<u64, String>> {
        let mut rights = Vec::new(alloc);
        for calls in 0..MOST {
            let how = failing.behind(calls);
            let (wrong, is_whole) = self.trial(alloc, &mut rights, start, deed, how)?;
            if let Some(wrong) = wrong {
                return Some(Err(format!(in alloc; "{wrong} behind {calls} calls").ok()?));
            }
            if is_whole {
                return Some(Ok(calls));
            }
        }
        Some(Err(String::from_str(alloc, "no end").ok()?))
    }

    /// What it comes to each time.
    fn told(&self, alloc: Global) -> Option<String> {
        String::from_str(alloc, self.first.told.as_str()).ok()
    }
}

/// What a deed comes to with each call of a file failed; or how many calls that were, if they are counted.
pub(crate) fn tried(
    alloc: Global,
    start: &Bytes,
    deed: Deed<'_>,
    failing: Failing,
    counts: bool,
) -> Option<String> {
    let course = course_of(alloc, start, deed)?;
    match course.tried(alloc, start, deed, failing)? {
        Ok(calls) if counts => format!(in alloc; "{calls}").ok(),
        Ok(_) => course.told(alloc),
        Err(wrong) => Some(wrong),
    }
}

/// What a deed comes to where each call behind it fails, and what is synced then.
pub(crate) fn stopped(alloc: Global, start: &Bytes, deed: Deed<'_>) -> Option<(String, Bytes)> {
    let course = course_of(alloc, start, deed)?;
    let ran = ran_on(alloc, start, deed, STOPPING)?;
    let told = match course.wrong_in(alloc, &mut Vec::new(alloc), deed, &ran)? {
        Some(wrong) => wrong,
        None => course.told(alloc)?,
    };
    Some((told, synced_by(ran)))
}

/// What was synced.
pub(crate) fn synced_by(ran: Ran) -> Bytes {
    let Ran {
        seen,
        is_closed: _,
        written,
        synced,
    } = ran;
    drop(seen);
    drop(written);
    synced
}
