//! Whether the rows of a file's tables are an office's with its book: what is asked of a file that somebody hands over,
//! behind its tables (`sql_layouts`), before anything is answered from it.
//!
//! What is said of values is said while the disk returns what was written.
//!
//! - `look_ups`: what is read of them, each in a transaction; `own_domains`: whether each is of a domain that there is
//! - `langs_read`, `office_put`: a domain that is put into an office with all that it sees; `domains_read`: all domains,
//!   one after the other
//! - `office_read`: the office of tables without a column for a domain; `parts_read`: what an act
//!   reads of it (`load_part`); `approvals_read`: how many units are approved (`count_approvals`)
//! - `statuses`, `book_read`: the statuses of all records, one row at a time, and whether the rules hold with the book
//! - `figure_rows`: the figures that are kept, and the rows that they are of; `language_tallies`, `suggestion_sums`, `figures_kept`: whether
//!   they are what counting gives
//! - `walked_office`: tables by domains, whose frame is read (an office without the units of its domains) and whose other rows are walked, one at a
//!   time: `units_kept`, `unit_sinks` the units of one language after the other and the suggestions on them, `sums_kept` sums and votes
//! - `tested`: all that is asked (`adopted_office`)
//! - `faults`: why an office's tables can't be had (`OpenFault`, `Mismatch`)
//!
//! The spec `Adoption` says what is asked of rows. `BookShown` and `NotedRecords` are what rows of records stand for,
//! `Faults` the faults' numbers; inner functions have the others.
#![tactic(auto)]

mod approvals_read;
mod book_read;
mod domains_read;
mod faults;
mod figure_rows;
mod figures_kept;
mod langs_read;
mod language_tallies;
mod look_ups;
mod office_put;
mod office_read;
mod own_domains;
mod parts_read;
mod statuses;
mod suggestion_sums;
mod sums_kept;
mod tested;
mod unit_sinks;
mod units_kept;
mod walked_office;

pub use approvals_read::count_approvals;
pub use faults::{Mismatch, OpenFault};
pub use parts_read::load_part;
pub use tested::{Adopted, MainOffice, adopted_office};
