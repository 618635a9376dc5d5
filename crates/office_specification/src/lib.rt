//! What deliveries leave and what they are answered: the definitions, the laws over them, and the values that they
//! speak of.
//!
//! - `values`: what an act reads (`ActContext`) and comes to (`Outcome`, `UnitOutcome` with what it writes, `Change`,
//!   `DomainChange`), and a `Language`
//! - `parts`: the part of an office that an act reads (`Part`); `approvals`: what a policy reads of the units (`Approvals`)
//! - `tally`: how many units of a language are in each state (`Tally`)
//! - `laws`: what an act leaves alone and what it reads, which requests may change places, what an export depends on, how a
//!   run goes on
//!
//! Specs:
//!
//! - `Step`: what one request does, with its reply; `OfficeActs` and `ProjectActs` have the acts
//! - `Deliveries`: what a list of requests leaves and what each is answered; `AnyOrder`, `Laws`: in another order
//! - `UnitAccess`, `UnitOutcomes`, `OfficeChanges`: what is read for a unit act, what it comes to, what a change makes
//!   of an office
//! - `Parts`: the part of an office that an act reads, and offices that are alike in it; `Approvals`: what a policy reads of the units
//! - `Tally`: how many units of a language callers see in each state; `Counting`: one unit after another
//! - `OfficeRules`: the rules that an office keeps with its book; `OneProof`, `RuleSets`: of each there is one proof
//!   at most
//! - `MainAlone`: an office whose one domain is `main`
//! - `ExportedEntries`, `ExportText`, `ExportSpelled`, `EntryTexts`, `EntryStrings`: the text of a language
//!
//! Folders of proofs, by what they serve: `acts` (what a step does), `domains` (what is read of a domain and put into
//! it, an office of `main` alone), `retries`, `commuting`, `rules` (what keeps the rules of an office), `tallies`,
//! `exports`, `laws` (answers), `rows` (worked rows, by the definitions alone).
#![tactic(auto)]

mod approvals;
mod laws;
mod parts;
mod tally;
mod values;

pub use approvals::Approvals;
pub use laws::{
    acts_read_their_part, alike_by_swaps, domain_act_leaves_other_domains,
    domain_request_leaves_domains, either_order, equal_exports, policies_read_approvals,
    run_goes_on, unit_act_leaves_the_rest,
};
pub use parts::Part;
pub use tally::Tally;
pub use values::{ActContext, Change, DomainChange, Language, Outcome, UnitOutcome, UnitWrite};
