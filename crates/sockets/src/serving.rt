//! The next connection of a listener.
ghost use Rattle.std.specs.Prelude.{◌≡◌, true, IfOk, IfErr};
ghost use Rattle.http_api.specs.declared.faults.ServeFault.TheVariants.{Disk};
ghost use Rattle.sockets.specs.Connections.{ServedSome};
ghost use Rattle.tables.specs.RunsOn.{RunsOn};

use crate::waiting::{TimeLimit, read_in_time, write_in_time};
use commands::{Input, Output};
use http_api::{ServeFault, Served, serve};
use office::Desk;
use std::alloc::Global;
use std::io::{self, BufWriter, Read, Write};
use std::net::{OpenListener, OpenStream, Shutdown, TcpStream};
use std::thread;
use std::time::{Clock, Duration};
use tables::Tables;

const ROOM: usize = 16_384;

/// How many times is read, at most, of what a client still sends behind its last answer.
const LAST_READS: usize = 1_536;

/// How many seconds a read of it waits.
const LAST_WAIT: u64 = 1;

/// How many seconds a client may send nothing; then its connection is given up.
const WAIT: u64 = 60;

/// How many seconds a write waits. One that has waited may have handed on a part, and then the next one fails: so a client may take nothing
/// of its answers for twice as long.
const WRITE_WAIT: u64 = 30;

/// How many seconds are waited behind a connection that couldn't be taken: the next can't either, as long as what is wanting is wanting.
const REST: u64 = 1;

/// Takes the next connection of a listener, serves it as `http_api::serve` does, and closes it. A client on whose connection nothing moves
/// for a minute is given up, with `Read` where it sends nothing and with `Write` where it takes nothing.
///
/// Nothing is known of the bytes of a socket: some messages came, and each came to its outcome at the desk, in their order. A stop loses no
/// request that got a reply. `Read` also where no connection was taken, a second later, `Memory` also where there is no room for its
/// answers; then nothing was served. `Disk` only where the tables are stopped; and those that ran and weren't shut are so only where the
/// disk failed meanwhile.
pub fn serve_next<T: Tables, C: Clock, L: OpenListener<Stream = TcpStream>>(
    alloc: Global,
    clock: &C,
    desk: &mut Desk<T>,
    listener: &L,
) -> Result<Served, ServeFault>
    ensures served { ServedSome (T.is_honest desk.new) (T.is_whole desk.new) (T.is_stopped desk.new ≡ true)
        (T.is_whole desk.old) (T.may_leave desk.old) (T.may_leave desk.new) (T.means desk.old) (T.means desk.new)
        (λ count. IfOk result (λ served. served.answered ≡ count)) }
    ensures disk { IfErr result (λ fault. fault ≡ Disk → T.is_stopped desk.new ≡ true) }
    ensures honest { T.is_honest desk.new → T.is_honest desk.old }
    ensures whole { T.is_honest desk.new → T.is_whole desk.new → T.is_whole desk.old }
    ensures stopped { T.is_stopped desk.old ≡ true → T.is_stopped desk.new ≡ true }
    ensures runs_on { RunsOn T.is_honest T.is_whole T.faults T.is_stopped desk.old desk.new }
{
    match listener.accept() {
        Ok((stream, _peer)) => serve_stream(alloc, clock, desk, &stream),
        Err(_) => {
            thread::sleep(clock, Duration::from_secs(REST));
            Err(ServeFault::Read)
        }
    }
}

/// Serves a connection to its end.
fn serve_stream<T: Tables, C: Clock>(
    alloc: Global,
    clock: &C,
    desk: &mut Desk<T>,
    stream: &TcpStream,
) -> Result<Served, ServeFault>
    ensures served { ServedSome (T.is_honest desk.new) (T.is_whole desk.new) (T.is_stopped desk.new ≡ true)
        (T.is_whole desk.old) (T.may_leave desk.old) (T.may_leave desk.new) (T.means desk.old) (T.means desk.new)
        (λ count. IfOk result (λ served. served.answered ≡ count)) }
    ensures disk { IfErr result (λ fault. fault ≡ Disk → T.is_stopped desk.new ≡ true) }
    ensures honest { T.is_honest desk.new → T.is_honest desk.old }
    ensures whole { T.is_honest desk.new → T.is_whole desk.new → T.is_whole desk.old }
    ensures stopped { T.is_stopped desk.old ≡ true → T.is_stopped desk.new ≡ true }
    ensures runs_on { RunsOn T.is_honest T.is_whole T.faults T.is_stopped desk.old desk.new }
{
    // Each answer is handed on when it is whole, so nothing is gained by waiting for more.
    let _ = stream.set_nodelay(true);
    match BufWriter::new(alloc, Patient { stream, clock }) {
        Ok(buffer) => {
            let mut messages = Input::new(Patient { stream, clock });
            let mut answers = Output::new(buffer);
            let served = serve(alloc, desk, &mut messages, &mut answers);
            if let Err(ServeFault::Write) = served {
                // What is held back of the answers isn't waited for.
                let _ = stream.shutdown(Shutdown::Both);
            }
            drop(answers);
            take_leave(stream, clock);
            served
        }
        Err(_) => Err(ServeFault::Memory),
    }
}

/// A side of a connection, whose waits have a limit.
#[derive(Drop)]
struct Side<'a>(&'a TcpStream);

impl Read for Side<'_> {
    fn read(&mut self, room: &mut [u8]) -> io::Result<usize> {
        self.0.read(room)
    }
}

impl Write for Side<'_> {
    fn write(&mut self, bytes: &[u8]) -> io::Result<usize> {
        self.0.write(bytes)
    }

    fn flush(&mut self) -> io::Result<()> {
        self.0.flush()
    }
}

impl OpenStream for Side<'_> {
    fn set_read_timeout(&self, wait: Option<Duration>) -> io::Result<()> {
        self.0.set_read_timeout(wait)
    }

    fn set_write_timeout(&self, wait: Option<Duration>) -> io::Result<()> {
        self.0.set_write_timeout(wait)
    }
}

/// A connection each of whose reads and writes fails that waits too long, and none that a signal interrupts.
#[derive(Drop)]
struct Patient<'a, C: Clock> {
    stream: &'a TcpStream,
    clock: &'a C,
}

impl<C: Clock> Read for Patient<'_, C> {
    fn read(&mut self, room: &mut [u8]) -> io::Result<usize> {
        let limit = TimeLimit::new(self.clock, Duration::from_secs(WAIT))?;
        read_in_time(&mut Side(self.stream), &limit, room)
    }
}

impl<C: Clock> Write for Patient<'_, C> {
    fn write(&mut self, bytes: &[u8]) -> io::Result<usize> {
        let limit = TimeLimit::new(self.clock, Duration::from_secs(WRITE_WAIT))?;
        write_in_time(&mut Side(self.stream), &limit, bytes)
    }

    fn flush(&mut self) -> io::Result<()> {
        Side(self.stream).flush()
    }
}

/// Lets the client read its last answer: a connection that is closed while bytes are unread takes the answer away from it (RFC 9112,
/// 9.6). What still comes is thrown away, up to the client's end, a second of silence, or a bound.
fn take_leave<C: Clock>(stream: &TcpStream, clock: &C) {
    if stream.shutdown(Shutdown::Write).is_err() {
        return;
    }
    let mut room = [0u8; ROOM];
    for _reads in 0..LAST_READS {
        match read_rest(stream, clock, &mut room) {
            Ok(count) if count > 0 => {}
            _ => return,
        }
    }
}

/// Reads once of what a client still sends.
fn read_rest<C: Clock>(stream: &TcpStream, clock: &C, room: &mut [u8]) -> io::Result<usize> {
    let limit = TimeLimit::new(clock, Duration::from_secs(LAST_WAIT))?;
    read_in_time(&mut Side(stream), &limit, room)
}
