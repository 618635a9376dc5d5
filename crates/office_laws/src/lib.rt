//! What holds of the office's parts, and of one sender over any network, whatever computes them: laws over the
//! definitions that contracts cite. Each function is a law: it does nothing, and its contract is what is proved.
//!
//! - `acts`: what acts on a unit do to its revision and its suggestions
//! - `counts`: how acts move the counts of a language
//! - `contents`: two requests have one canonical text exactly where they have one caller and one act
//! - `lines`, `directives`, `tokens`: the forms of lines, a text cut into directives, the longest token of a plural
//!   rule
//! - `simulation`, `histories`: a sender over any network, with the definitions of deliveries, and with any desk's
//!   calls
//!
//! Specs: `Acts`, `Tallies` (counts), `LineForms`, `Cuts` (directives), `Tokens`; `World` (sender, network and
//! office), `Simulation`, `Histories`.
#![tactic(auto)]

mod acts;
mod contents;
mod counts;
mod directives;
mod histories;
mod lines;
mod simulation;
mod tokens;

pub use acts::{acceptance_takes_one, revisions_of_acts, suggestions_stay};
pub use contents::one_text_for_one_content;
pub use counts::{counts_follow_a_unit, counts_follow_an_office_act};
pub use directives::directives_cut_the_text;
pub use histories::sender_over_a_desk;
pub use lines::line_forms_are_the_table;
pub use simulation::retry_simulation;
pub use tokens::tokens_are_longest;
