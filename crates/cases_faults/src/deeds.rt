//! What is done to the office in a database.
ghost use Rattle.std.specs.Prelude.{◌≡◌, false};

use office::Desk;
use request_book::Request;
use sqlite::{Alter, Connection};
use std::alloc::Global;
use store_sql::{Lost, OpenFault, SqliteTables, Start};
use tables::Tables;

/// What is done to the office in a database.
#[derive(Clone, Copy)]
pub(crate) enum Deed<'a> {
    /// It is made, as this start has it.
    Make(&'a Start),
    /// It is opened.
    Open,
    /// A request is delivered to it.
    Deliver(&'a Request),
    /// Statements run, as some other tool runs them.
    Run(&'a str),
}

/// What a deed came to, and the connection, handed back.
#[derive(Drop)]
pub(crate) struct Did<S: Alter> {
    pub(crate) told: Option<String>,
    pub(crate) connection: Connection<S>,
}

fn fault_told(alloc: Global, fault: OpenFault) -> Option<String> {
    format!(in alloc; "{fault}").ok()
}

fn lost_told(alloc: Global, lost: Lost) -> Option<String> {
    format!(in alloc; "{lost}").ok()
}

/// What a desk answers to a request.
fn reply_told<T: Tables>(alloc: Global, desk: &mut Desk<T>, request: &Request) -> Option<String> {
    match desk.deliver(request) {
        Ok(reply) => {
            let told = format!(in alloc; "{} {}", reply.status(), reply.body()).ok();
            drop(reply);
            told
        }
        Err(lost) => lost_told(alloc, lost),
    }
}

fn made<S: Alter + Drop>(alloc: Global, connection: Connection<S>, start: &Start) -> Did<S>
    requires { connection.in_transaction ≡ false }
{
    match SqliteTables::create(connection, alloc, start) {
        Ok(tables) => Did {
            told: String::from_str(alloc, "ready").ok(),
            connection: tables.into_connection(),
        },
        Err((fault, connection)) => Did {
            told: fault_told(alloc, fault),
            connection,
        },
    }
}

/// What an opened desk answers to a request, if there is one.
fn answered<T: Tables>(
    alloc: Global,
    desk: &mut Desk<T>,
    request: Option<&Request>,
) -> Option<String> {
    match request {
        Some(request) => reply_told(alloc, desk, request),
        None => String::from_str(alloc, "opened").ok(),
    }
}

/// Opens the office, and delivers a request to it, if there is one.
fn delivered<S: Alter + Drop>(
    alloc: Global,
    connection: Connection<S>,
    request: Option<&Request>,
) -> Did<S>
    requires { connection.in_transaction ≡ false }
{
    match SqliteTables::adopt(connection, alloc) {
        Ok(tables) => {
            let mut desk = Desk::new(alloc, tables);
            let told = answered(alloc, &mut desk, request);
            Did {
                told,
                connection: desk.into_tables().into_connection(),
            }
        }
        Err((fault, connection)) => Did {
            told: fault_told(alloc, fault),
            connection,
        },
    }
}

fn executed<S: Alter>(alloc: Global, mut connection: Connection<S>, statements: &str) -> Did<S> {
    let told = match connection.execute_batch(statements) {
        Ok(()) => String::from_str(alloc, "taken").ok(),
        Err(_) => None,
    };
    Did { told, connection }
}

/// Does a deed.
pub(crate) fn did_on<S: Alter + Drop>(
    alloc: Global,
    connection: Connection<S>,
    deed: Deed<'_>,
) -> Did<S>
    requires { connection.in_transaction ≡ false }
{
    match deed {
        Deed::Make(start) => made(alloc, connection, start),
        Deed::Open => delivered(alloc, connection, None),
        Deed::Deliver(request) => delivered(alloc, connection, Some(request)),
        Deed::Run(statements) => executed(alloc, connection, statements),
    }
}
