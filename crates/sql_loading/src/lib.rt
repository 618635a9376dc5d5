//! An office from all rows of its tables into maps, a domain at a time.
//!
//! - `office_read`: a domain, with the team and the policy of its office (`add_domain`)
//! - `office_tables`: the team and the policy (`set_team`), the template and the languages, put in
//! - `unit_tables`: votes and suggestions, found by their numbers and units (`votes_by_number`)
//!
//! The spec `DomainChanged` is for inner functions.
#![tactic(auto)]

mod office_read;
mod office_tables;
mod unit_tables;

pub use office_read::{add_domain, place_in};
pub use office_tables::set_team;
pub use unit_tables::votes_by_number;
