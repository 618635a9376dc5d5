//! Whether an office in maps keeps the rules of one with its book, and whether a text is what records keep as the
//! content of a request: what an adopted file is asked. Each module tests whether something keeps its rules, exactly.
//!
//! - `unit_rules`, `place_rules`: a unit, and a unit where it stands (`is_placed`, `fits_entry`)
//! - `template_rules`, `language_rules`, `project_rules`: a template, the languages, and with these the project; apart from its units
//!   `keeps_bare_rules`
//! - `domain_rules`: an office's domains, each a project with the office's team and policy
//! - `book_rules`: the numbers and statuses of the book, and with them the office (`keeps_rules`, `is_status`)
//! - `contents`: the content of a request (`is_content`)
//!
//! Specs: `Given` (what callers bring beside the maps, shown row by row in `proofs/GivenLemmas`), `Parts` and `Books`
//! (the rules, in the parts that are tested one by one).
#![tactic(auto)]

mod book_rules;
mod contents;
mod domain_rules;
mod language_rules;
mod place_rules;
mod project_rules;
mod template_rules;
mod unit_rules;

pub use book_rules::{is_status, keeps_rules, note_status};
pub use contents::is_content;
pub use place_rules::{fits_entry, is_placed};
pub use project_rules::keeps_bare_rules;
