//! What a new template makes of a language's units, and which units a language's first text gives.
//!
//! - `template`: the template of a text (`template_of`), and which entry is the header
//! - `planning`, `plans`: what a new template makes of one language's units (`plan`), and its outcome (`Plan`,
//!   `Counts`)
//! - `update`, `updates`, `refit`: what becomes of each unit, by its key and by the template's msgid_plural
//! - `loading`: the units that a language's first text gives (`load`)
//! - `index`: entries and units by their keys
//! - `laws`: what each plan and each load keeps
//!
//! Specs: `Templates`, `Updates`, `Units`, `Loads`, `Laws`; inner functions have `Moves`, `Steps` and `KeyIndexes`.
#![tactic(auto)]

mod index;
mod laws;
mod loading;
mod planning;
mod plans;
mod refit;
mod template;
mod update;
mod updates;

pub use laws::{loads_count_the_template, plans_count_every_key, plans_keep_units};
pub use loading::load;
pub use planning::plan;
pub use plans::{Counts, Plan};
pub use template::{is_header, template_of};
