//! PO text to catalogue: the catalogue that a text spells, or its first fault with its line.
//!
//! - `reading`: a text line by line, into entries that are handed on one by one (`read_each`) or are a catalogue (`read`)
//! - `sink`: where whole entries go (`ReadSink`)
//! - `keys`, `key_texts`, `place`: the keys of whole entries, their texts, and where each stands among these
//! - `unfinished`: the entry that may go on
//! - `message`: its message lines so far
//! - `previous`: its previous strings so far
//! - `laws`: a text spells at most one catalogue, and has a fault exactly where it spells none
//!
//! Specs: `Spells` (which catalogue a text spells), `Faults` (its first fault), `Plain` (a plain slow reader, which
//! laws tie to what a text spells), `ReaderAnswers` (what is answered); inner functions have `SoFar`, `Drafts`, `Found`, `KeyTexts` and `Taking`.
#![tactic(auto)]

mod key_texts;
mod keys;
mod laws;
mod message;
mod place;
mod previous;
mod reading;
mod sink;
mod unfinished;

pub use laws::{least_fault, one_catalogue, one_fault_or_catalogue};
pub use reading::{read, read_each};
pub use sink::ReadSink;
