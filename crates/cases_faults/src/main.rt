//! Offices in files whose disk fails, as rows of data. Reads rows from standard input, and prints those that come to something else than they
//! say, and then how many rows there were.
//!
//! The file of the rows is in memory: a database, and the log beside it.
//!
//!   NAME is REQUEST              gives the request, a line of JSON, a name
//!   new                          a new file, with nothing in it
//!   sql STATEMENTS               what some other tool runs on it
//!   make WHO -> ready            makes an office in it: the demo's (`demo`), or one with this manager
//!   deliver REQUEST -> STATUS BODY    delivers a request, which may be a name. Behind the reply each call of the disk fails, and what was not
//!                                synced is lost
//!   close                        opens the file and closes it: it is whole without its log
//!   db DEED -> X                 tries a deed of the two, `make WHO` or `deliver REQUEST`, while the database fails: for each number of its calls,
//!                                so many succeed, and each one behind them fails, up to where none is met. It comes to X, or the disk failed
//!   log DEED -> X                the same while the log fails
//!   calls db DEED -> N           how many calls that are; `calls log DEED` alike
//!
//! Whatever fails, the file is opened anew on a disk that works, once as it was written and once as it was synced. Its rows have to be those
//! before the deed, or those with it; with it, where the deed came to X. Then the deed is done again, which comes to X, or where an office was
//! made, to an office that is there already; and the rows are those with it.
//!
//! A row that begins with `#` says nothing. `stage` has what the rows so far set, `words` the words of a row; `disks` has files over fuses, `deeds`
//! what is done to the office in one, `seen` what it shows, and `trials` one deed with each call failed.
#![tactic(auto)]

mod deeds;
mod disks;
mod seen;
mod stage;
mod trials;
mod words;

use stage::Stage;
use std::alloc::Global;
use std::io;
use std::rt::HostRuntime;
use words::both_sides;

/// Tells a row that comes to something else than it says.
fn tell(rt: &HostRuntime, alloc: Global, stage: &mut Stage, row: &str) -> io::Result<()> {
    if row.starts_with('#') {
        return Ok(());
    }
    let (deed, wanted) = both_sides(row);
    let Some(told) = stage.told(alloc, deed) else {
        return println!(rt; "{row}: unread");
    };
    if told.as_str() == wanted {
        return Ok(());
    }
    println!(rt; "{row}, not {told}")
}

/// Tells those rows, and how many there were.
fn tell_all(rt: &HostRuntime, alloc: Global, stage: &mut Stage) -> io::Result<()> {
    let mut rows = 0u64;
    for row in rt.lines(alloc) {
        let row = row?;
        tell(rt, alloc, stage, row.as_str())?;
        rows = rows.saturating_add(1);
    }
    println!(rt; "{rows} rows")
}

fn main(rt: HostRuntime) -> io::Result<()> {
    let alloc = rt.alloc();
    let mut stage = Stage::new(alloc);
    let told = tell_all(&rt, alloc, &mut stage);
    drop(stage);
    told
}
