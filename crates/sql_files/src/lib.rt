//! When a file is an office's: which files are adopted, and what keeps a file one. Each function is a law: it does
//! nothing, and its contract is what is proved.
//!
//! - `laws`: what is adopted is an office's file, the rows of an opening are an office's, and each commit keeps a file
//!   one
//!
//! The spec `Files` says when a file is an office's.
#![tactic(auto)]

mod laws;

pub use laws::{
    acts_keep_files, adopted_unless_lost, commits_keep_files, demos_are_rows, domains_keep_files,
    figures_follow_acts, languages_keep_files, listed_schemas_are_read, openings_are_rows,
    policies_keep_files, records_keep_files, roles_keep_files, templates_keep_files,
    units_keep_rows, whatever_is_adopted,
};
