//! How long is waited for a socket. A call that a signal interrupted, as where the program was stopped and goes on, is made again, with the
//! time that is left.
ghost use Rattle.std.specs.Prelude.{◌≡◌, length};
ghost use Rattle.std.specs.Io.{ReadsAtMost, WritesAtMost};

use std::io::{self, ErrorKind, Read, Write};
use std::net::OpenStream;
use std::time::{Clock, Duration, Instant};

/// A time that has begun.
#[derive(Drop)]
pub(crate) struct TimeLimit<'a, C: Clock> {
    clock: &'a C,
    start: Instant,
    length: Duration,
}

impl<'a, C: Clock> TimeLimit<'a, C> {
    /// The time from now on, of this length.
    pub(crate) fn new(clock: &'a C, length: Duration) -> io::Result<TimeLimit<'a, C>> {
        let start = Instant::now(clock)?;
        Ok(TimeLimit {
            clock,
            start,
            length,
        })
    }

    /// What is left of it. `TimedOut` where it is over.
    pub(crate) fn left(&self) -> io::Result<Duration> {
        let left = self.length.saturating_sub(self.start.elapsed(self.clock)?);
        if left.is_zero() {
            return Err(io::Error::from(ErrorKind::TimedOut));
        }
        Ok(left)
    }

    /// The time from now on, up to its end, and no longer than so many seconds.
    pub(crate) fn part(&self, seconds: u64) -> io::Result<TimeLimit<'a, C>> {
        TimeLimit::new(self.clock, self.left()?.min(Duration::from_secs(seconds)))
    }
}

/// Reads once, into the front of the room, and tells how many bytes. An error where none came in time.
pub(crate) fn read_in_time<S: Read + OpenStream, C: Clock>(
    stream: &mut S,
    limit: &TimeLimit<'_, C>,
    room: &mut [u8],
) -> io::Result<usize>
    ensures most { ReadsAtMost result room.new }
    ensures room { length room.new ≡ length room.old }
{
    // The time ends it.
    for _tries in 0..usize::MAX {
        stream.set_read_timeout(Some(limit.left()?))?;
        match stream.read(room) {
            Err(error) if error.kind() == ErrorKind::Interrupted => {}
            done => return done,
        }
    }
    Err(io::Error::from(ErrorKind::TimedOut))
}

/// Writes once, and tells how many of the bytes. An error where none was taken in time.
pub(crate) fn write_in_time<S: Write + OpenStream, C: Clock>(
    stream: &mut S,
    limit: &TimeLimit<'_, C>,
    bytes: &[u8],
) -> io::Result<usize>
    ensures most { WritesAtMost result bytes.now }
{
    // The time ends it.
    for _tries in 0..usize::MAX {
        stream.set_write_timeout(Some(limit.left()?))?;
        match stream.write(bytes) {
            Err(error) if error.kind() == ErrorKind::Interrupted => {}
            done => return done,
        }
    }
    Err(io::Error::from(ErrorKind::TimedOut))
}
