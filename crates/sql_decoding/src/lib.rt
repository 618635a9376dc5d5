//! What one row that a query shows stands for: a record, a caller's role, an entry, a unit with its suggestions, what
//! an act on a unit needs to know. Each reader answers what the definitions read off its rows, or fails: for want of
//! memory, or exactly where the rows stand for no value. What a failure comes to is said here too.
//!
//! - `columns`, `integers`, `texts`: one column, one that is a whole number, and one that is a text
//! - `records`: a record; `record_heads`: its number and its status alone
//! - `units_read`: a unit with its suggestions and votes, and a template's entry
//! - `act_contexts`: what an act on a unit needs, and a suggestion that is found
//! - `tallies`: how many units of a language are in each state
//! - `entries_read`: the entries of an export
//! - `kept_rule`: the plural rule that was read last
//! - `faults`: what a failure comes to: want of memory, a failed disk and a refusal are told apart
//!
//! Specs: `RowTests` (which rows stand for values; `proofs/ColumnsTested` has columns that pass and that don't,
//! `RowsTold` rows), `ShownContexts`, `ShownEntries`, `RecordHeads`, `TablesRead`.
#![tactic(auto)]

mod act_contexts;
mod columns;
mod entries_read;
mod faults;
mod integers;
mod kept_rule;
mod record_heads;
mod records;
mod tallies;
mod texts;
mod units_read;

pub use act_contexts::{context_in, header_in, policy_in, role_in, suggestion_found, view_in};
pub use columns::{
    domain_at, integer_in, is_text, is_text_or_null, key_at, lang_at, name_text_at, natural_in,
    role_at, text_in,
};
pub use entries_read::{message_in, obsolete_in};
pub use faults::{Failure, needed};
pub use kept_rule::KeptRule;
pub use record_heads::{RecordHead, head_in};
pub use records::record_in;
pub use tallies::tally_in;
pub use units_read::{
    UnitNumbers, entry_in, put_vote, suggestion_with, suggestions_without_votes, template_entry,
    unit_numbers, unit_with,
};
