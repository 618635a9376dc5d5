//! What types keep of the values that rows are written for: their limits, and that their texts are UTF-8. Each
//! function looks at its value, and does nothing with it: what it ensures is what clauses need.
//!
//! - `texts`: names, keys and records
//! - `entries`: a language with its header, and the entries of a template
//! - `unit_parts`: units and suggestions, and the units of plans
#![tactic(auto)]

mod entries;
mod texts;
mod unit_parts;

pub use entries::{entries_fit, language_fits};
pub use texts::{entry_key_fits, key_fits, lang_fits, name_fits, previous_fits, record_fits};
pub use unit_parts::{plans_fit, suggestion_fits, unit_fits, units_fit};
