//! The desk: requests, each decided once, over the tables of one office.
//!
//! - `desk`: `Desk<T: Tables>`, with `deliver`, `run` and `export`
//! - `questions`: what callers ask of a desk (`unit`, `stats`, `languages`)
//! - `delivery`: one delivery over any tables: a look into the book, and for a new number the decision and its commit
//! - `exchanges`: the bodies that tell of a malformed or a lost request
//! - `export`, `export_sink`, `checksum`: a language's text, entry by entry, with its length and its digest
//! - `strings`: what the types of an entry's texts keep, for proofs
//! - `faults`: why an export failed, and why a question has no answer
//!
//! Specs: `Runs`, `Exports`, `Exchanges` (what came of a line or a message), `Checksums`, `Sendings`, `Writers`,
//! `Faults`.
#![tactic(auto)]

mod checksum;
mod delivery;
mod desk;
mod exchanges;
mod export;
mod export_sink;
mod faults;
mod questions;
mod strings;

pub use desk::Desk;
pub use exchanges::{MALFORMED_BODY, lost_body};
pub use export::ExportReceipt;
pub use faults::{ExportFault, QueryFault};
