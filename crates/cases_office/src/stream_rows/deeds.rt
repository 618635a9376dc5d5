//! What is done to the office in a database.
ghost use Rattle.std.specs.Prelude.{◌≡◌, false};

use crate::desk_rows::unit_told;
use crate::stream_rows::streams::{Kept, Streams};
use crate::stream_rows::table_rows::push_rows;
use commands::AtLost;
use office::Desk;
use sqlite::{Alter, Connection};
use std::alloc::Global;
use store_commands::{
    Closed, Unopened, close_desk, deliver_store, export_store, init_store, open_desk,
    records_store, say_ready, tell_store_fault,
};
use tables::{Start, Tables};
use units::{Lang, Name};
use uuid::Uuid;

/// What is done to the office in a database, over the streams of a row; it comes to an exit status.
#[derive(Clone, Copy)]
pub(crate) enum Deed<'a> {
    /// It is made, as this start has it.
    Make(&'a Start),
    /// Lines are delivered to it, and then the domain's language is exported, if one is named.
    Deliver(&'a Name, Option<&'a Lang>),
    /// The domain's language is exported.
    Export(&'a Name, &'a Lang),
    /// The records behind that of a number are listed, or all.
    Records(&'a Option<Uuid>),
    /// A unit is kept in the output, as callers see it, by its language's place and its key.
    Unit(&'a str),
    /// Statements run, as some other tool runs them: 0 where they are taken.
    Sql(&'a str),
    /// The rows of all tables are kept in the output: 0 where all are.
    Rows,
}

/// The status of a deed that came to this one, once the file is closed; an office that was made is said to be ready then.
pub(crate) fn closed(deed: Deed<'_>, status: u8, streams: &mut Streams<'_>) -> u8 {
    match deed {
        Deed::Make(_) if status == 0 => say_ready(&mut streams.output),
        _ => status,
    }
}

/// Does a deed.
pub(crate) fn done<S: Alter + Drop>(
    alloc: Global,
    connection: Connection<S>,
    deed: Deed<'_>,
    streams: &mut Streams<'_>,
) -> Closed<S>
    requires { connection.in_transaction ≡ false }
{
    match deed {
        Deed::Make(start) => init_store(alloc, connection, start, &mut streams.faults),
        Deed::Deliver(domain, lang) => deliver(alloc, connection, streams, domain, lang),
        Deed::Export(domain, lang) => export(alloc, connection, streams, domain, lang),
        Deed::Records(after) => records_store(
            alloc,
            connection,
            *after,
            &mut streams.output,
            &mut streams.faults,
        ),
        Deed::Unit(words) => look(alloc, connection, streams, words),
        Deed::Sql(statements) => executed(connection, statements),
        Deed::Rows => read(alloc, connection, streams),
    }
}

fn deliver<S: Alter + Drop>(
    alloc: Global,
    connection: Connection<S>,
    streams: &mut Streams<'_>,
    domain: &Name,
    lang: Option<&Lang>,
) -> Closed<S>
    requires { connection.in_transaction ≡ false }
{
    deliver_store(
        alloc,
        connection,
        &mut streams.source,
        &mut streams.output,
        &mut streams.faults,
        domain,
        lang,
        AtLost::GoOn,
    )
}

fn export<S: Alter + Drop>(
    alloc: Global,
    connection: Connection<S>,
    streams: &mut Streams<'_>,
    domain: &Name,
    lang: &Lang,
) -> Closed<S>
    requires { connection.in_transaction ≡ false }
{
    export_store(
        alloc,
        connection,
        domain,
        lang,
        &mut streams.output,
        &mut streams.faults,
    )
}

/// Keeps a unit in an output, as callers see it.
fn keep_unit<T: Tables>(
    alloc: Global,
    desk: &mut Desk<T>,
    output: &mut Kept,
    words: &str,
) -> Option<()> {
    let told = unit_told(alloc, desk, words)?;
    output.keep(told.as_str().as_bytes())
}

fn look<S: Alter + Drop>(
    alloc: Global,
    connection: Connection<S>,
    streams: &mut Streams<'_>,
    words: &str,
) -> Closed<S>
    requires { connection.in_transaction ≡ false }
{
    match open_desk(alloc, connection) {
        Ok(mut desk) => {
            let kept = keep_unit(alloc, &mut desk, &mut streams.output, words);
            close_desk(desk, status_of(kept.is_some()))
        }
        Err(Unopened { fault, connection }) => Closed {
            status: tell_store_fault(&mut streams.faults, fault),
            stopped: false,
            connection,
        },
    }
}

/// The status of what was done, or not.
fn status_of(is_done: bool) -> u8 {
    if is_done { 0 } else { 1 }
}

fn executed<S: Alter>(mut connection: Connection<S>, statements: &str) -> Closed<S> {
    let status = status_of(connection.execute_batch(statements).is_ok());
    Closed {
        status,
        stopped: false,
        connection,
    }
}

/// Keeps the rows of all tables in an output.
fn keep_rows<S: Alter>(
    alloc: Global,
    connection: &mut Connection<S>,
    output: &mut Kept,
) -> Option<()> {
    let mut text = String::new(alloc);
    push_rows(alloc, &mut text, connection)?;
    output.keep(text.as_bytes())
}

fn read<S: Alter>(
    alloc: Global,
    mut connection: Connection<S>,
    streams: &mut Streams<'_>,
) -> Closed<S> {
    let status = status_of(keep_rows(alloc, &mut connection, &mut streams.output).is_some());
    Closed {
        status,
        stopped: false,
        connection,
    }
}
