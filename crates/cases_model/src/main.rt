//! What lies below an office, as rows of data: catalogues and their texts, units and what acts and templates make of
//! them, and requests. Reads rows from standard input, and prints those that come to something else than they say, and
//! then how many rows there were.
//!
//!   == catalogues     lines, catalogues, their canonical text, plural rules and checks: `catalogue_rows`
//!   == units          decisions on a unit, what callers see of it, templates and texts of a language: `unit_rows`
//!   == requests       names, limits, votes, streams and requests: `request_rows`
//!
//! A row that begins with `#` says nothing. The module named has the words of the rows below; `stage` has what the
//! rows so far set, `words` the words of a row.
#![tactic(auto)]

mod catalogue_rows;
mod request_rows;
mod stage;
mod unit_rows;
mod words;

use stage::Stage;
use std::alloc::Global;
use std::io;
use std::rt::HostRuntime;
use words::both_sides;

/// Tells a row that comes to something else than it says.
fn tell(rt: &HostRuntime, alloc: Global, stage: &mut Stage, row: &str) -> io::Result<()> {
    if row.starts_with('#') {
        return Ok(());
    }
    let (deed, wanted) = both_sides(row);
    let mut told = String::new(alloc);
    if stage.tell(alloc, &mut told, deed).is_none() {
        println!(rt; "{row}: unread")
    } else if stage.means(alloc, wanted, told.as_str()) {
        Ok(())
    } else {
        println!(rt; "{row}, not {told}")
    }
}

/// Tells those rows, and how many there were.
fn tell_all(rt: &HostRuntime, alloc: Global, stage: &mut Stage) -> io::Result<()> {
    let mut rows = 0u64;
    for row in rt.lines(alloc) {
        let row = row?;
        tell(rt, alloc, stage, row.as_str())?;
        rows = rows.saturating_add(1);
    }
    println!(rt; "{rows} rows")
}

fn main(rt: HostRuntime) -> io::Result<()> {
    let alloc = rt.alloc();
    let mut stage = Stage::new(alloc);
    let told = tell_all(&rt, alloc, &mut stage);
    drop(stage);
    told
}
