//! Whole transactions that write: a request's record and what its act changes, with the sums of votes and the tallies
//! that are kept, or neither. Each domain has its own rows: what is written of one leaves those of the others, and of an
//! act in a domain that isn't there the record is written.
//!
//! - `acts`: the transactions: for acts on a unit (`commit_act`), and for acts on the office (`commit_change`)
//! - `records`, `roles`, `policies`, `languages`, `templates`, `entries`, `changed_entries`, `unit_writes`,
//!   `planned_units`: what is written; `unit_parts`: what an act writes of a unit
//! - `tallies`: how many units of each language are in each state; `unit_counts`: what one unit counts
//! - `transactions`: how a transaction ends
//!
//! A conversion of tables of an earlier form writes by the same functions.
//!
//! The spec `Acts` says what a commit makes of the tables, `Rows` which rows are written; `Changes`, `Columns`, `Counted`, `Votes`,
//! `Figures`, `Entries` and `Ends` are for inner functions.
#![tactic(auto)]

mod acts;
mod changed_entries;
mod entries;
mod languages;
mod planned_units;
mod policies;
mod records;
mod roles;
mod tallies;
mod templates;
mod transactions;
mod unit_counts;
mod unit_parts;
mod unit_writes;

pub use acts::{commit_act, commit_change};
pub use entries::{put_entries, put_entry};
pub use languages::put_language_of;
pub use planned_units::write_planned;
pub use policies::put_policy_of;
pub use roles::write_role;
pub use tallies::put_tally_of;
pub use transactions::finish;
pub use unit_writes::write_row;
