//! Catalogue to canonical text, in the order of the GNU gettext manual, "The Format of PO Files". Nothing here takes
//! memory, and no line is wrapped.
//!
//! - `catalogue`: a whole catalogue (`write_catalogue`)
//! - `writer`: entries that are pushed one by one onto a sink (`CatalogueWriter`)
//! - `writing`, `comments`, `strings`: one entry (`write_entry`), its comments and flags, its strings behind keywords
//! - `fault`: why a text was not written (`WriteFault`)
//! - `laws`: a canonical text of a valid catalogue spells that catalogue, and no other
//!
//! Specs: `Text` is the canonical text, `Keywords` which keywords can be written; `Pushed` what a sink took
//! of the entries that were pushed.
#![tactic(auto)]

mod catalogue;
mod comments;
mod fault;
mod laws;
mod strings;
mod writer;
mod writing;

pub use catalogue::write_catalogue;
pub use fault::WriteFault;
pub use laws::one_spelled;
pub use writer::CatalogueWriter;
pub use writing::write_entry;
