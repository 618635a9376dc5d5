//! The part of an office that an act reads.

ghost use Rattle.std.specs.Prelude.{◌≡◌, IfOk};
ghost use Rattle.office_specification.specs.Parts.{part_of};

use po_text::Duplicate;
use request_book::Act;
use std::alloc::AllocError;
use units::Name;

/// A part of an office.
#[derive(Drop)]
pub enum Part {
    /// The team, the policy, and which domains there are.
    Team,
    /// The same, and of the domain of this name its template and its languages.
    Languages(Name),
    /// The same, and its units: all that the domain of this name has.
    Domain(Name),
}

impl Part {
    /// The part that an act reads. A policy reads of the units how many are approved, beside it.
    pub fn of(act: &Act) -> Result<Part, AllocError>
        ensures { IfOk result (λ part. part ≡ part_of act.now) }
    {
        match act {
            Act::OnUnit(domain, _, _, _) => Ok(Part::Domain(domain.duplicate()?)),
            Act::SetTemplate(domain, _) => Ok(Part::Domain(domain.duplicate()?)),
            Act::AddLanguage(domain, _, _) => Ok(Part::Languages(domain.duplicate()?)),
            Act::SetRole(_, _) | Act::SetPolicy(_) | Act::AddDomain(_) => Ok(Part::Team),
        }
    }
}
