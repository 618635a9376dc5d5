//! The tables of an office in SQL, those by domains and those for `main` alone that earlier programs made: what they
//! are, the text that makes each by domains, and what a statement inside a transaction needs, does and keeps.
//!
//! - `new_tables`: the texts, what makes the tables by domains beside those for `main` (`make_domain_tables`), and what
//!   makes them where there was none (`make_tables_by_domain`)
//!
//! Specs: `Schema` (the tables), `Layouts` (their forms, and in which trees their rows may be), `Keys`, `Rows` (rows as
//! they are written), `SeenRows` (what a domain sees), `Creation`, `Inside` (what a statement inside a transaction does,
//! and keeps however it ends), `Errors` (which errors come where nothing is refused), `Cleared`, `Whole` (transactions).
//!
//! What is said of values is said while the disk returns what was written.
#![tactic(auto)]

mod new_tables;

pub use new_tables::{make_domain_tables, make_tables_by_domain};
