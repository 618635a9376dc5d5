//! What callers ask about an office, answered as JSON texts: a unit's view, and a language's counts.
//!
//! - `unit_view`: a unit as callers see it (`unit_text`)
//! - `language_counts`: a language's counts (`counts_text`)
//! - `parts`: texts, lists and what may be absent, as JSON
//!
//! Specs: `UnitTexts`, `CountsTexts`, `Parts`.
#![tactic(auto)]

mod language_counts;
mod parts;
mod unit_view;

pub use language_counts::counts_text;
pub use unit_view::unit_text;
