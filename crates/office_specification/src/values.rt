//! What an act reads and what it comes to.

ghost use Rattle.std.specs.Prelude.{◌≡◌, Ok, Some};
ghost use Rattle.std.proofs.Props.{props};
ghost use Rattle.units.specs.Rules.{rule_in};
ghost use Rattle.office_specification.specs.RuleSets.{Rule-set, PluralFault-set};

use crate::tally::Tally;
use plural_expr::PluralForms;
use po_text::{Catalogue, Entry};
use request_book::Reply;
use template_update::Plan;
use units::{Lang, Name, Policy, Role, Suggestion, UnitView, VoteValue};
use uuid::Uuid;

/// A language: its header entry, and the plural rule of the header.
#[derive(Drop)]
pub struct Language {
    pub header: Entry,
    pub rule: PluralForms,
    pub ghost ruled: { rule_in (Some header) ≡ Ok rule } by { Prim.hlevel (props, Rule-set, PluralFault-set) },
}

/// What an act on a unit needs to know: of its language the plural rule, of the office its policy, of the caller the role, and of
/// the unit its view, if it is there.
#[derive(Drop)]
pub struct ActContext {
    pub rule: PluralForms,
    pub policy: Policy,
    pub role: Role,
    pub view: Option<UnitView>,
}

/// What an act on a unit comes to: the unit's new view, unless the act is refused, and the reply.
#[derive(Drop)]
pub struct Outcome {
    pub view: Option<UnitView>,
    pub reply: Reply,
}

/// What an act writes of its unit, which is there.
#[derive(Drop)]
pub enum UnitWrite {
    /// The unit is that of this view, with its suggestions and the votes on them.
    Whole(UnitView),
    /// The unit is that of this view, but for its suggestions, which stay.
    Row(UnitView),
    /// The unit stays, and this suggestion, on which nobody has voted, is its last.
    Suggested(Suggestion),
    /// The unit stays, and on its suggestion of this number the voter has this vote, or none; the votes on it then sum up to this.
    Voted(Uuid, Name, Option<VoteValue>, i64),
}

/// What an act on a unit comes to: what is written, unless the act is refused, and the reply.
#[derive(Drop)]
pub struct UnitOutcome {
    pub write: Option<UnitWrite>,
    pub reply: Reply,
}

/// What a language or a template changes in its domain.
#[derive(Drop)]
pub enum DomainChange {
    /// A language comes with its units, and this is their tally.
    NewLanguage(Lang, Language, Plan, Tally),
    /// The template is this one, and each language has the units of its plan, and then this tally.
    NewTemplate(Catalogue, Vec<(Lang, Plan)>, Vec<(Lang, Tally)>),
}

/// What an office act changes.
#[derive(Drop)]
pub enum Change {
    /// The name has this role; as a guest it isn't in the team.
    OneRole(Name, Role),
    /// The policy is this one, and no unit of any domain stays approved where it has no reviews.
    NewPolicy(Policy),
    /// A domain comes, with no message and no language.
    NewDomain(Name),
    /// The domain of this name changes.
    InDomain(Name, DomainChange),
}
