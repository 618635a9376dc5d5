//! `office serve`: an office in a file on a port of this machine.
ghost use Rattle.std.specs.Prelude.{◌≡◌, false};

use crate::faults::Faults;
use crate::words::Serve;
use crate::{DONE, STOPPED, store_fault};
use commands::FAILED;
use office::Desk;
use sockets::serve_next;
use sqlite::{Alter, Connection};
use std::io::Write;
use std::net::{Ipv4Addr, TcpListener};
use store_commands::{Closed, Unopened, close_desk, open_desk};
use tables::Tables;

/// Opens the office in a database, and serves it.
pub(crate) fn serve_opened<S: Alter + Drop>(
    rt: &HostRuntime,
    connection: Connection<S>,
    options: &Serve<'_>,
) -> Closed<S>
    requires { connection.in_transaction ≡ false }
{
    match open_desk(rt.alloc(), connection) {
        Ok(mut desk) => {
            let status = serve_port(rt, &mut desk, options.port, options.connections);
            told_stopped(rt, close_desk(desk, status))
        }
        Err(Unopened { fault, connection }) => Closed {
            status: store_fault(rt, fault),
            stopped: false,
            connection,
        },
    }
}

/// Tells that a failure of the disk stopped the office, where one did, and has the exit status tell it too.
fn told_stopped<S: Alter>(rt: &HostRuntime, closed: Closed<S>) -> Closed<S> {
    let Closed {
        status,
        stopped,
        connection,
    } = closed;
    if stopped {
        // Where it can't be told, the status tells it.
        let mut faults = Faults::new(rt);
        let _ = writeln!(faults, "disk fault");
    }
    Closed {
        status: if stopped { STOPPED } else { status },
        stopped,
        connection,
    }
}

/// Takes the port, and serves so many connections there.
fn serve_port<T: Tables>(rt: &HostRuntime, desk: &mut Desk<T>, port: u16, connections: u32) -> u8 {
    match TcpListener::bind(rt, (Ipv4Addr::LOCALHOST, port)) {
        Ok(listener) => serve_connections(rt, desk, &listener, connections),
        Err(_) => {
            // Where it can't be told, the status tells it.
            let mut faults = Faults::new(rt);
            let _ = writeln!(faults, "port fault");
            FAILED
        }
    }
}

/// Serves so many connections, one after another. Each that is given up is told, and the next is served.
fn serve_connections<T: Tables>(
    rt: &HostRuntime,
    desk: &mut Desk<T>,
    listener: &TcpListener,
    connections: u32,
) -> u8 {
    let mut status = DONE;
    for _ in 0..connections {
        if let Err(fault) = serve_next(rt.alloc(), rt, desk, listener) {
            status = FAILED;
            // Where it can't be told, the next is served all the same.
            let mut faults = Faults::new(rt);
            let _ = writeln!(faults, "serve fault {}", fault.number());
        }
    }
    status
}
