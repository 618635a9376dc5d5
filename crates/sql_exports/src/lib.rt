//! The entries of a domain's language, handed to a sink as their rows come: one is held back until the next row was read, and
//! no transaction is open while a sink takes one.
//!
//! - `header`: a language's header, looked up
//! - `readers`: which entry a row stands for
//! - `entry_rows`: a sink of rows over a sink of entries
//! - `handing`, `export`: the rows of the two queries, handed on
//!
//! Specs: `RowEntries` (what a sink of entries took of rows), `Handing`, `Sinks`, `Entries` (those of a language).
#![tactic(auto)]

mod entry_rows;
mod export;
mod handing;
mod header;
mod readers;

pub use export::export_entries;
