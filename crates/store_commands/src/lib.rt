//! What the program does to an office in a file, over any store of SQLite, reader and writer.
//!
//! - `init`: `office init`: an office is made (`init_store`)
//! - `opening`: an office's desk over a database (`open_desk`), and its connection handed back (`close_desk`)
//! - `runs`: the office is delivered to and exported (`deliver_store`, `export_store`)
//! - `records`: `office records`: its records in the order in which it took them (`records_store`); `record_lines`: the line of
//!   each
//! - `faults`: what is told where an office can't be had
//!
//! Specs: `Init`, `Opening`, `Runs`, `Records`, `RecordLines`, `LinesTaken`, `Faults`.
#![tactic(auto)]

mod faults;
mod init;
mod opening;
mod record_lines;
mod records;
mod runs;

pub use faults::tell_store_fault;
pub use init::{init_store, say_ready};
pub use opening::{Closed, Unopened, close_desk, open_desk};
pub use records::{RecordsFault, records_store};
pub use runs::{deliver_store, export_store};
