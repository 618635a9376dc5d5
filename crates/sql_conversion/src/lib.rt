//! An office's file is taken over: its tables are adopted as they stand, and where they have no column for a domain,
//! all that they hold is written by domains beside them, with the sums and tallies that counting it gives, in one
//! transaction. Their own rows stay, and aren't read any more.
//!
//! - `writing`: the tables, their one domain `main` and the office, written inside a transaction
//! - `converting`: the transaction (`convert`)
//! - `taking`: adoption, and conversion where it is wanted (`take_over`)
//!
//! The spec `Conversion` says what a conversion makes, and what is true of a connection that is taken over or given
//! back.
#![tactic(auto)]

mod converting;
mod taking;
mod writing;

pub use converting::convert;
pub use taking::take_over;
