//! Tables of an office with its book: what they promise, by what they mean, and tables in ordered maps.
//!
//! The trait:
//!
//! - `access`: the trait `Tables`: what each call answers, writes and keeps
//! - `sink`: the trait `EntrySink`, which takes the entries of a language
//! - `start`: what new tables begin with (`Start`)
//! - `faults`: why a call failed (`Lost`, `EachFault`)
//!
//! A language's entries and counts, of a domain in maps: as tables answer them that have the office at hand. Tables in
//! maps answer both so, tables on SQLite the counts:
//!
//! - `handing`: the entries handed to a sink, one after another (`hand_entries`)
//! - `entries`: an entry of the template with its unit, and that of an obsolete unit
//! - `counting`: how many units are in each state (`counts_in`)
//!
//! Tables in maps:
//!
//! - `plain`, `plain_access`: `PlainTables`, and its `impl Tables`
//! - `approval_counts`: how many units are approved
//! - `record_maps`: the office in maps, with the records of its requests
//! - `domain_reads`: what is found in a domain: nothing, where it isn't there
//! - `plain_start`: what these tables begin with
//!
//! Specs: `KeptByCalls` (what a call keeps), `Stops` (what a stop may leave), `Sinks`, `Entries`, `Starts`, `Faults`,
//! `Tallies` (counts that are kept); of tables in maps `MapsMeaning` (the office with its book that the maps stand for), `PlainMeaning` (the
//! same of `PlainTables`); `Handing` and `ApprovalTests`, for inner functions.
#![tactic(auto)]

mod access;
mod approval_counts;
mod counting;
mod domain_reads;
mod entries;
mod faults;
mod handing;
mod plain;
mod plain_access;
mod plain_start;
mod record_maps;
mod sink;
mod start;

pub use access::Tables;
pub use counting::counts_in;
pub use faults::{EachFault, Lost};
pub use handing::hand_entries;
pub use plain::PlainTables;
pub use sink::EntrySink;
pub use start::Start;
