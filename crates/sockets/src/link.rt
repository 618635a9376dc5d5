//! A link over sockets.
ghost use Rattle.std.specs.Prelude.{◌≡◌, ◌≤◌, ◌∷◌, [], length, Some, None, IfOk, OnOk, OnErr};
ghost use Rattle.client.specs.Talks.{said_behind};
ghost use Rattle.sockets.specs.Links.{answer_limit};

use crate::waiting::{TimeLimit, read_in_time, write_in_time};
use client::{Link, LinkFault};
use std::io::{Read, Write};
use std::net::{Ipv4Addr, Net, OpenStream, SocketAddr, SocketAddrV4, TcpStream};
use std::thread;
use std::time::{Clock, Duration};

const ROOM: usize = 16_384;

/// How many bytes an answer has at most; a longer one counts as none.
const ANSWER_LIMIT: usize = 16_777_216;

/// How many seconds bytes may take to come, or to go; then no answer came.
const WAIT: u64 = 60;

/// How many seconds an exchange takes at most, whatever moves meanwhile.
const EXCHANGE: u64 = 120;

/// A link to the office that listens on a port of this machine: each message goes over a connection of its own, and its answer is what
/// comes back until the other side closes it, 16,777,216 bytes at most. Where nothing moves for a minute, or the connection isn't closed
/// within two, no answer came.
#[derive(Drop)]
pub struct SocketLink<'a, R: Net + Clock> {
    /// Where its connections come from, and the time.
    pub host: &'a R,
    pub port: u16,
}

impl<R: Net + Clock> Link for SocketLink<'_, R> {
    ghost said = { λ _. None };

    fn exchange(&mut self, message: &[u8], answer: &mut Vec<u8>) -> Result<(), LinkFault>
        // Nothing is known of what a socket gave or took.
        ensures answered { OnOk result (None ≡ said_behind None (record { message = message.now; answer = Some answer.new.items } ∷ [])) }
        ensures lost { OnErr result (None ≡ said_behind None (record { message = message.now; answer = None } ∷ [])) }
        ensures within { OnOk result (length answer.new.items ≤ answer_limit) }
    {
        let Ok(limit) = TimeLimit::new(self.host, Duration::from_secs(EXCHANGE)) else {
            return Err(LinkFault::NoAnswer);
        };
        let address = SocketAddr::V4(SocketAddrV4::new(Ipv4Addr::LOCALHOST, self.port));
        match TcpStream::connect_timeout(self.host, &address, Duration::from_secs(WAIT)) {
            Ok(mut stream) => talk(&mut stream, &limit, message, answer),
            Err(_) => Err(LinkFault::NoAnswer),
        }
    }

    fn pause(&mut self, time: Duration) {
        thread::sleep(self.host, time);
    }
}

/// Sends a message, and takes what comes back.
fn talk<S: Read + Write + OpenStream, C: Clock>(
    stream: &mut S,
    limit: &TimeLimit<'_, C>,
    message: &[u8],
    answer: &mut Vec<u8>,
) -> Result<(), LinkFault>
    ensures within { OnOk result (length answer.new.items ≤ answer_limit) }
{
    send(stream, limit, message)?;
    answer.clear();
    gather(stream, limit, answer)
}

/// Sends a message whole.
fn send<S: Write + OpenStream, C: Clock>(
    stream: &mut S,
    limit: &TimeLimit<'_, C>,
    message: &[u8],
) -> Result<(), LinkFault> {
    let mut rest = message;
    // Each write takes a byte.
    for _writes in 0..message.len() {
        if rest.is_empty() {
            return Ok(());
        }
        let count = send_some(stream, limit, rest)?;
        rest = &rest[count..];
    }
    Ok(())
}

/// Sends some of the bytes, and tells how many.
fn send_some<S: Write + OpenStream, C: Clock>(
    stream: &mut S,
    limit: &TimeLimit<'_, C>,
    bytes: &[u8],
) -> Result<usize, LinkFault>
    ensures most { IfOk result (λ count. count ≤ length bytes.now) }
{
    let Ok(wait) = limit.part(WAIT) else {
        return Err(LinkFault::NoAnswer);
    };
    match write_in_time(stream, &wait, bytes) {
        Ok(count) if count > 0 => Ok(count),
        _ => Err(LinkFault::NoAnswer),
    }
}

/// Reads to the end, behind nothing that was read before.
fn gather<S: Read + OpenStream, C: Clock>(
    stream: &mut S,
    limit: &TimeLimit<'_, C>,
    answer: &mut Vec<u8>,
) -> Result<(), LinkFault>
    requires { length answer.old.items ≤ answer_limit }
    ensures within { OnOk result (length answer.new.items ≤ answer_limit) }
{
    let mut room = [0u8; ROOM];
    // Each read but the last one brings a byte.
    for _reads in 0..=ANSWER_LIMIT {
        match read_some(stream, limit, &mut room)? {
            0 => return Ok(()),
            count => put(&room[..count], answer)?,
        }
    }
    Err(LinkFault::NoAnswer)
}

/// Reads some bytes into the front of the room, and tells how many.
fn read_some<S: Read + OpenStream, C: Clock>(
    stream: &mut S,
    limit: &TimeLimit<'_, C>,
    room: &mut [u8],
) -> Result<usize, LinkFault>
    ensures most { IfOk result (λ count. count ≤ length room.old) }
    ensures room { length room.new ≡ length room.old }
{
    let Ok(wait) = limit.part(WAIT) else {
        return Err(LinkFault::NoAnswer);
    };
    match read_in_time(stream, &wait, room) {
        Ok(count) => Ok(count),
        Err(_) => Err(LinkFault::NoAnswer),
    }
}

/// Puts bytes at the end of an answer.
fn put(bytes: &[u8], answer: &mut Vec<u8>) -> Result<(), LinkFault>
    requires { length answer.old.items ≤ answer_limit }
    ensures within { OnOk result (length answer.new.items ≤ answer_limit) }
{
    if bytes.len() > ANSWER_LIMIT - answer.len() {
        return Err(LinkFault::NoAnswer);
    }
    match answer.extend_from_slice(bytes) {
        Ok(()) => Ok(()),
        Err(_) => Err(LinkFault::Memory),
    }
}
