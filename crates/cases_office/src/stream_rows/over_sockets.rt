//! What goes over real sockets: a client and the office, in one thread.
use crate::desks::open_demo;
use crate::stream_rows::command_told::told;
use crate::stream_rows::connections::{outcome_told, with_answers};
use crate::stream_rows::stage::Stage;
use crate::stream_rows::streams::Streams;
use crate::stream_rows::words::words_and_text;
use sockets::{SocketLink, serve_next};
use std::alloc::Global;
use std::io::{self, Error, ErrorKind, Write};
use std::net::{Ipv4Addr, OpenListener, SocketAddr, TcpListener, TcpStream};
use std::rt::HostRuntime;

/// How many times a list is sent.
const TRIES: u32 = 3;

/// A listener that takes no connection.
struct Deaf;

impl OpenListener for Deaf {
    type Stream = TcpStream;

    fn accept(&self) -> io::Result<(TcpStream, SocketAddr)> {
        Err(Error::from(ErrorKind::Other))
    }
}

/// What comes of the next connection of a listener at a new desk.
fn taken<L: OpenListener<Stream = TcpStream>>(
    rt: &HostRuntime,
    alloc: Global,
    stage: &mut Stage,
    listener: &L,
) -> Option<String> {
    open_demo(alloc, &mut stage.desks)?;
    let outcome = serve_next(alloc, rt, stage.desks.last_mut()?, listener);
    outcome_told(alloc, outcome)
}

/// What comes of a client that connects and writes these bytes, is served, and then reads to the end.
fn served(rt: &HostRuntime, alloc: Global, stage: &mut Stage, stream: &[u8]) -> Option<String> {
    let listener = TcpListener::bind(rt, (Ipv4Addr::LOCALHOST, 0)).ok()?;
    let mut client = TcpStream::connect(rt, listener.local_addr().ok()?).ok()?;
    client.write_all(stream).ok()?;
    let told = taken(rt, alloc, stage, &listener)?;
    let answers = io::read_to_string(alloc, client).ok()?;
    with_answers(alloc, stage, told.as_str(), answers.as_bytes())
}

/// A port that was taken a moment ago, where nobody listens any more.
fn silent_port(rt: &HostRuntime) -> Option<u16> {
    let listener = TcpListener::bind(rt, (Ipv4Addr::LOCALHOST, 0)).ok()?;
    Some(listener.local_addr().ok()?.port())
}

/// What comes of lines that are sent to a port where nobody listens.
fn sent(rt: &HostRuntime, alloc: Global, lines: &[u8]) -> Option<String> {
    let port = silent_port(rt)?;
    let mut streams = Streams::new(alloc, "", lines, usize::MAX);
    let status = streams.send(alloc, &mut SocketLink { host: rt, port }, TRIES);
    told(alloc, status, &streams, false)
}

/// What a row over sockets comes to. None where it can't be read.
pub(crate) fn socket_told(
    rt: &HostRuntime,
    alloc: Global,
    stage: &mut Stage,
    deed: &str,
) -> Option<String> {
    let (words, text) = words_and_text(deed);
    let bytes = stage.texts.bytes_of(text.unwrap_or(""))?;
    match words {
        "new" => served(rt, alloc, stage, bytes.as_slice()),
        "deaf" => taken(rt, alloc, stage, &Deaf),
        "send" => sent(rt, alloc, bytes.as_slice()),
        _ => None,
    }
}
