//! Acts on one unit: what refuses them, and what they make of it.
//!
//! - `deciding`, `decision`: the decision on an act that a caller asks for (`decide`), and what one is (`Decision`)
//! - `refusing`: the refusals that every act has, in their order (`early_refusal`)
//! - `suggesting`, `voting`: a suggestion made or dismissed, and a vote, by which a suggestion may be accepted
//! - `translating`, `reviewing`: a translation, an acceptance, a comment; an approval, and a unit that is sent back
//! - `suggestions`: a unit's suggestions, with their numbers, forms and votes
//! - `judging`: the state that forms give a unit
//! - `units_after`: units after an act, and the decisions that hand them on
//!
//! The spec `UnitStep` says which refusal comes first, and what an act makes of its unit; `Parts` what an act needs to
//! see of the unit's suggestions.
#![tactic(auto)]

mod deciding;
mod decision;
mod judging;
mod refusing;
mod reviewing;
mod suggesting;
mod suggestions;
mod translating;
mod units_after;
mod voting;

pub use deciding::{UnitRequest, decide};
pub use decision::{Decision, Values};
pub use refusing::early_refusal;
pub use suggestions::{find_suggestion, voted_suggestions};
pub use units_after::with_suggestions;
