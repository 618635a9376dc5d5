//! Offices as rows of data: over tables of both kinds, over streams, files and sockets, and behind a network. Reads
//! rows from standard input, and prints those that come to something else than they say, and then how many rows there
//! were.
//!
//!   == desks       what desks over tables of both kinds answer: `desk_rows` has the words of the rows below
//!   == streams     the program's commands, connections, offices in files and sockets: `stream_rows`
//!   == senders     senders and their networks: `sender_rows`
//!
//! A row that begins with `#` says nothing. `stage` has what the rows so far set, `words` the words of a row; `desks`
//! has desks over tables in maps, and sinks, `places` languages of domains by their names, `named` lines under names.
#![tactic(auto)]

mod desk_rows;
mod desks;
mod named;
mod places;
mod sender_rows;
mod stage;
mod stream_rows;
mod words;

use desk_rows::{Both, Offices};
use stage::Stage;
use std::alloc::Global;
use std::io;
use std::rt::HostRuntime;
use words::both_sides;

/// Tells a row that comes to something else than it says.
fn tell<O: Offices>(
    rt: &HostRuntime,
    alloc: Global,
    stage: &mut Stage<O>,
    row: &str,
) -> io::Result<()> {
    if row.starts_with('#') {
        return Ok(());
    }
    let (deed, wanted) = both_sides(row);
    let Some(told) = stage.told(rt, alloc, deed) else {
        return println!(rt; "{row}: unread");
    };
    if stage.means(alloc, deed, wanted, told.as_str()) {
        return Ok(());
    }
    println!(rt; "{row}, not {told}")
}

/// Tells those rows, and how many there were.
fn tell_all<O: Offices>(rt: &HostRuntime, alloc: Global, stage: &mut Stage<O>) -> io::Result<()> {
    let mut rows = 0u64;
    for row in rt.lines(alloc) {
        let row = row?;
        tell(rt, alloc, stage, row.as_str())?;
        rows = rows.saturating_add(1);
    }
    println!(rt; "{rows} rows")
}

fn main(rt: HostRuntime) -> io::Result<()> {
    let alloc = rt.alloc();
    let mut stage: Stage<Both> = Stage::new(alloc);
    let told = tell_all(&rt, alloc, &mut stage);
    drop(stage);
    told
}
