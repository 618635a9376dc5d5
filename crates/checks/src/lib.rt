//! Checks of a translation against its source.
//!
//! - `checking`: which forms fail (`findings`), and the state that forms give a unit (`result_state`)
//! - `source`: what is checked (`Source`), and what is found (`Findings`)
//! - `format`: the formats `c-format` and `python-brace-format`, told by an entry's flags
//! - `scan`, `directive`, `brace`: the placeholders of a text, and one at its front, of the one format and the other
//! - `agreement`: whether the placeholders of two texts agree
//!
//! Specs: `Source`, `Formats`, `Directives`, `BracePlaceholders`, `Findings`, `Result` (the state).
#![tactic(auto)]

mod agreement;
mod brace;
mod checking;
mod directive;
mod format;
mod scan;
mod source;

pub use checking::{findings, result_state};
pub use scan::{brace_names, directives};
pub use source::{Findings, Source};
