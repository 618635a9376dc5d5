//! The columns of the office's tables: what each value is written as, and the value that a column stands for. No
//! column stands for two values, and no two columns for one.
//!
//! - `numbers`: whole numbers: revisions, roles, states, statuses, votes, flags
//! - `names`: names, languages, keys, a msgid_plural, numbers of requests
//! - `lists`: lists of texts: comment lines, references, flags, forms
//! - `policy`, `previous`, `header`: the policy, previous strings, a language's header with its plural rule
//! - `json_columns`, `values`: columns of JSON read, and the values of JSON in them
//! - `fault`: why a column gave no value (`RowFault`)
//!
//! Specs: `Numbers` and `Written` (what values are written as), `Faults`; inner functions have `Readings`.
#![tactic(auto)]

mod fault;
mod header;
mod json_columns;
mod lists;
mod names;
mod numbers;
mod policy;
mod previous;
mod values;

pub use fault::RowFault;
pub use header::{header_column, header_from, rule_column, rule_from};
pub use lists::{forms_column, forms_from, texts_column, texts_from};
pub use names::{
    key_from, lang_from, name_from, number_column, number_from, plural_column, plural_from,
};
pub use numbers::{
    accept_at_from, flag_column, flag_from, revision_column, revision_from, role_column, role_from,
    state_column, state_from, status_column, status_from, vote_column, vote_from,
};
pub use policy::{PolicyColumns, policy_columns, policy_from};
pub use previous::{previous_column, previous_from};
