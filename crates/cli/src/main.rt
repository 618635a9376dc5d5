//! The program `office`.
//!
//! - `subcommands`, `words`: the subcommands with their options, as rows that clap reads by; what the words ask for
//! - `files`, `work`: offices in files, and what is done to the office in one
//! - `folder`: `office export --into`: languages exported into files of a folder
//! - `serve`, `send`: `office serve` and `office send`
//! - `faults`, `sentences`: the second output, where faults are told by numbers, and what the numbers mean
//! - `stack`: the stack that the deepest line takes, taken before anything is read
#![tactic(auto)]

mod faults;
mod files;
mod folder;
mod send;
mod sentences;
mod serve;
mod stack;
mod subcommands;
mod words;
mod work;

use byte_streams::ByteSink;
use clap::Error;
use commands::{FAILED, Input, Output, canon_text, deliver_lines, plural_lines};
use faults::Faults;
use files::in_file;
use office::Desk;
use send::send_file;
use stack::take_stack;
use std::alloc::{AllocError, Global};
use std::env::Args;
use std::io::{self, BufWriter, ErrorKind, Stdout};
use std::process::ExitCode;
use store_commands::tell_store_fault;
use store_sql::OpenFault;
use tables::PlainTables;
use words::{Asked, Deliver, Plural, are_canon, error_code, no_text, read_words};
use work::Work;

fn main(rt: HostRuntime) -> ExitCode {
    match run(&rt) {
        Ok(status) => ExitCode::from(status),
        Err(_) => ExitCode::from(FAILED),
    }
}

fn run(rt: &HostRuntime) -> io::Result<u8> {
    match std::env::args(rt) {
        Ok(words) => args_status(rt, words),
        Err(error) if error.kind() == ErrorKind::InvalidData => {
            error_status(rt, &no_text(rt.alloc()))
        }
        Err(error) => Err(error),
    }
}

fn args_status(rt: &HostRuntime, words: Args) -> io::Result<u8> {
    let words: Vec<String> = words.collect(rt.alloc())?;
    let status = words_status(rt, words.as_slice());
    drop(words);
    status
}

/// Takes the stack, and does what the words ask for.
fn words_status(rt: &HostRuntime, words: &[String]) -> io::Result<u8> {
    let alloc = rt.alloc();
    if let Err(fault) = take_depth(alloc, words) {
        return error_status(rt, &Error::from(fault));
    }
    match read_words(alloc, words) {
        Ok(asked) => asked_status(rt, &asked),
        Err(error) => error_status(rt, &error),
    }
}

/// Takes the stack, but where a catalogue alone is read, whose reader goes to no depth.
fn take_depth(alloc: Global, words: &[String]) -> Result<(), AllocError> {
    if are_canon(words) {
        return Ok(());
    }
    take_stack(alloc)
}

/// Does what the words ask for.
fn asked_status(rt: &HostRuntime, asked: &Asked<'_>) -> io::Result<u8> {
    match asked {
        Asked::Init(options) => Ok(in_file(rt, options.store, Work::Make(&options.start))),
        Asked::Deliver(options) => deliver_standard(rt, options),
        Asked::Export(options) => Ok(in_file(rt, options.store, Work::Export(options))),
        Asked::Records(options) => Ok(in_file(rt, options.store, Work::Records(options))),
        Asked::Serve(options) => Ok(in_file(rt, options.store, Work::Serve(options))),
        Asked::Send(options) => send_file(rt, options),
        Asked::Plural(options) => plural_standard(rt, options),
        Asked::Canon => canon_standard(rt),
    }
}

/// The exit status where all was done.
const DONE: u8 = 0;

/// The exit status of a server whose office a failure of the disk stopped: from there on it answered that alone.
const STOPPED: u8 = 3;

fn error_status(rt: &HostRuntime, error: &Error) -> io::Result<u8> {
    error.print(rt)?;
    Ok(error_code(error))
}

/// The second output, as a sink.
fn second_output(rt: &HostRuntime) -> Output<Faults> {
    Output::new(Faults::new(rt))
}

/// Tells a fault of tables on the second output, and answers the exit status.
fn store_fault(rt: &HostRuntime, fault: OpenFault) -> u8 {
    tell_store_fault(&mut second_output(rt), fault)
}

/// Delivers what the standard input gives, to the office in a file, or to one in memory.
fn deliver_standard(rt: &HostRuntime, options: &Deliver<'_>) -> io::Result<u8> {
    if let Some(path) = options.store {
        return Ok(in_file(rt, path, Work::Deliver(options)));
    }
    let mut replies = Output::new(BufWriter::new(rt.alloc(), rt.stdout())?);
    let status = deliver_in_memory(rt, options, &mut replies);
    drop(replies);
    Ok(status)
}

fn deliver_in_memory(
    rt: &HostRuntime,
    options: &Deliver<'_>,
    replies: &mut Output<BufWriter<Stdout>>,
) -> u8 {
    match PlainTables::new(rt.alloc(), &options.start) {
        Ok(tables) => {
            let mut desk = Desk::new(rt.alloc(), tables);
            let mut source = Input::new(rt.stdin());
            let mut faults = second_output(rt);
            let status = deliver_lines(
                rt.alloc(),
                &mut desk,
                &mut source,
                replies,
                &mut faults,
                &options.domain,
                options.export.as_ref(),
                options.at_lost,
            );
            drop(desk);
            status
        }
        // Tables in memory want nothing else.
        Err(_) => store_fault(rt, OpenFault::Memory),
    }
}

fn plural_standard(rt: &HostRuntime, options: &Plural<'_>) -> io::Result<u8> {
    let alloc = rt.alloc();
    let mut lines = Output::new(BufWriter::new(alloc, rt.stdout())?);
    let mut faults = second_output(rt);
    let status = plural_lines(
        alloc,
        options.value,
        options.numbers.as_slice(),
        &mut lines,
        &mut faults,
    );
    match lines.flush() {
        Ok(()) => Ok(status),
        Err(_) => Ok(FAILED),
    }
}

fn canon_standard(rt: &HostRuntime) -> io::Result<u8> {
    let alloc = rt.alloc();
    let mut source = Input::new(rt.stdin());
    let mut text = Output::new(BufWriter::with_capacity(alloc, 65_536, rt.stdout())?);
    let mut faults = second_output(rt);
    let status = canon_text(alloc, &mut source, &mut text, &mut faults);
    match text.flush() {
        Ok(()) => Ok(status),
        Err(_) => Ok(FAILED),
    }
}
