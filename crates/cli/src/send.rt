//! `office send`: the requests of a file, sent to the office that listens on a port of this machine.

use crate::faults::Faults;
use crate::files::is_file;
use crate::second_output;
use crate::words::SendFile;
use byte_streams::{ByteSink, ByteSource};
use client::send_lines;
use commands::{FAILED, Input, Output};
use sockets::SocketLink;
use std::fs::File;
use std::io::{self, BufWriter, Stdout, Write};

/// Sends the requests of a file, which has to be a regular one.
pub(crate) fn send_file(rt: &HostRuntime, options: &SendFile<'_>) -> io::Result<u8> {
    if !is_file(rt, options.file) {
        return file_fault(rt);
    }
    let replies = BufWriter::new(rt.alloc(), rt.stdout())?;
    match File::open(rt, options.file) {
        Ok(file) => send_into(rt, options, file, Output::new(replies)),
        Err(_) => {
            drop(replies);
            file_fault(rt)
        }
    }
}

/// Sends the requests of a file, and tells the replies.
fn send_into(
    rt: &HostRuntime,
    options: &SendFile<'_>,
    file: File,
    mut replies: Output<BufWriter<Stdout>>,
) -> io::Result<u8> {
    let mut source = Input::new(file);
    let mut link = SocketLink {
        host: rt,
        port: options.port,
    };
    let status = send_lines(
        rt.alloc(),
        &mut source,
        &mut link,
        options.tries,
        &mut replies,
        &mut second_output(rt),
    );
    let flushed = replies.flush();
    drop(replies);
    if source.failures() > 0 {
        return file_fault(rt);
    }
    Ok(if flushed.is_ok() { status } else { FAILED })
}

/// Tells that the file can't be read.
fn file_fault(rt: &HostRuntime) -> io::Result<u8> {
    let mut faults = Faults::new(rt);
    writeln!(faults, "file fault")?;
    Ok(FAILED)
}
