//! What is done to the office in a database.
ghost use Rattle.std.specs.Prelude.{◌≡◌, false};

use crate::folder::export_into;
use crate::serve::serve_opened;
use crate::words::{Deliver, Export, Records, Serve, Texts};
use crate::{DONE, second_output};
use commands::{FAILED, Input, Output};
use sqlite::{Alter, Connection};
use std::io::BufWriter;
use std::rt::HostRuntime;
use store_commands::{Closed, deliver_store, export_store, init_store, records_store, say_ready};
use tables::Start;
use units::{Lang, Name};
use uuid::Uuid;

/// What is done to the office in a database.
#[derive(Clone, Copy)]
pub(crate) enum Work<'a> {
    /// It is made, as this start has it.
    Make(&'a Start),
    /// The standard input is delivered to it, and then the domain's language is exported, if one is named.
    Deliver(&'a Deliver<'a>),
    /// The domain's languages are exported.
    Export(&'a Export<'a>),
    /// The records behind that of a number are listed, or all.
    Records(&'a Records<'a>),
    /// It is served on a port.
    Serve(&'a Serve<'a>),
}

impl Work<'_> {
    /// Whether the office has to be there.
    pub(crate) fn opens(self) -> bool {
        !matches!(self, Work::Make(_))
    }
}

/// Says what is said once the file is closed, behind work that came to this status: of a new office, that it is ready.
pub(crate) fn told_closed(rt: &HostRuntime, work: Work<'_>, status: u8) -> u8 {
    match work {
        Work::Make(_) if status == DONE => say_ready(&mut Output::new(rt.stdout())),
        _ => status,
    }
}

/// Does the work.
pub(crate) fn done<S: Alter + Drop>(
    rt: &HostRuntime,
    connection: Connection<S>,
    work: Work<'_>,
) -> Closed<S>
    requires { connection.in_transaction ≡ false }
{
    match work {
        Work::Make(start) => make(rt, connection, start),
        Work::Deliver(options) => deliver(rt, connection, options),
        Work::Export(options) => export(rt, connection, options),
        Work::Records(options) => records(rt, connection, options.after),
        Work::Serve(options) => serve_opened(rt, connection, options),
    }
}

fn make<S: Alter + Drop>(rt: &HostRuntime, connection: Connection<S>, start: &Start) -> Closed<S>
    requires { connection.in_transaction ≡ false }
{
    init_store(rt.alloc(), connection, start, &mut second_output(rt))
}

/// The connection handed back, where there was no memory for the work.
fn unworked<S: Alter + Drop>(connection: Connection<S>) -> Closed<S> {
    Closed {
        status: FAILED,
        stopped: false,
        connection,
    }
}

fn deliver<S: Alter + Drop>(
    rt: &HostRuntime,
    connection: Connection<S>,
    options: &Deliver<'_>,
) -> Closed<S>
    requires { connection.in_transaction ≡ false }
{
    match BufWriter::new(rt.alloc(), rt.stdout()) {
        Ok(buffer) => deliver_store(
            rt.alloc(),
            connection,
            &mut Input::new(rt.stdin()),
            &mut Output::new(buffer),
            &mut second_output(rt),
            &options.domain,
            options.export.as_ref(),
            options.at_lost,
        ),
        Err(_) => unworked(connection),
    }
}

fn export<S: Alter + Drop>(
    rt: &HostRuntime,
    connection: Connection<S>,
    options: &Export<'_>,
) -> Closed<S>
    requires { connection.in_transaction ≡ false }
{
    match &options.texts {
        Texts::Printed(lang) => print(rt, connection, &options.domain, lang),
        Texts::Filed(folder, langs) => {
            export_into(rt, connection, &options.domain, langs, *folder)
        }
    }
}

fn print<S: Alter + Drop>(
    rt: &HostRuntime,
    connection: Connection<S>,
    domain: &Name,
    lang: &Lang,
) -> Closed<S>
    requires { connection.in_transaction ≡ false }
{
    match BufWriter::new(rt.alloc(), rt.stdout()) {
        Ok(buffer) => export_store(
            rt.alloc(),
            connection,
            domain,
            lang,
            &mut Output::new(buffer),
            &mut second_output(rt),
        ),
        Err(_) => unworked(connection),
    }
}

fn records<S: Alter + Drop>(
    rt: &HostRuntime,
    connection: Connection<S>,
    after: Option<Uuid>,
) -> Closed<S>
    requires { connection.in_transaction ≡ false }
{
    match BufWriter::new(rt.alloc(), rt.stdout()) {
        Ok(buffer) => records_store(
            rt.alloc(),
            connection,
            after,
            &mut Output::new(buffer),
            &mut second_output(rt),
        ),
        Err(_) => unworked(connection),
    }
}
