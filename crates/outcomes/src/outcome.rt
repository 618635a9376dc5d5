//! What an office act comes to.
ghost use Rattle.std.specs.Prelude.{◌≡◌, IfOk};

use crate::bodies::{refused, refused_rule, refused_text};
use office_specification::{Change, DomainChange};
use plural_expr::PluralFault;
use po_lex::PoFault;
use request_book::Reply;
use std::alloc::Global;
use units::{Memory, Refusal};

/// What an act in a domain comes to: the domain's change, unless the act is refused, and the reply.
#[derive(Drop)]
pub struct DomainOutcome {
    pub change: Option<DomainChange>,
    pub reply: Reply,
}

impl DomainOutcome {
    ghost use Rattle.units.specs.declared.unit.Refusal.TheVariants.{PoText, PluralFormsField};
    ghost use Rattle.replies.specs.Bodies.{refused, refused_with, po_fault_fields, plural_fault_fields};
    ghost use Rattle.outcomes.specs.Settled.{no_change};

    /// Nothing changes.
    pub(crate) fn refused(alloc: Global, refusal: Refusal) -> Result<DomainOutcome, Memory>
        ensures { IfOk result (λ outcome. outcome ≡ no_change (refused refusal)) }
    {
        let reply = refused(alloc, refusal)?;
        Ok(DomainOutcome {
            change: None,
            reply,
        })
    }

    /// Nothing changes, for the fault of a PO text.
    pub(crate) fn refused_text(alloc: Global, fault: PoFault) -> Result<DomainOutcome, Memory>
        ensures { IfOk result (λ outcome. outcome ≡ no_change (refused_with PoText (po_fault_fields (fault.line, fault.kind)))) }
    {
        let reply = refused_text(alloc, fault)?;
        Ok(DomainOutcome {
            change: None,
            reply,
        })
    }

    /// Nothing changes, for the plural rule of a PO text, or because it has none.
    pub(crate) fn refused_rule(
        alloc: Global,
        fault: Option<PluralFault>,
    ) -> Result<DomainOutcome, Memory>
        ensures { IfOk result (λ outcome. outcome ≡ no_change (refused_with PluralFormsField (plural_fault_fields fault))) }
    {
        let reply = refused_rule(alloc, fault)?;
        Ok(DomainOutcome {
            change: None,
            reply,
        })
    }
}

/// What an act on the office comes to: the change, unless the act is refused, and the reply.
#[derive(Drop)]
pub struct OfficeOutcome {
    pub change: Option<Change>,
    pub reply: Reply,
}

impl OfficeOutcome {
    ghost use Rattle.replies.specs.Bodies.{refused};
    ghost use Rattle.outcomes.specs.Settled.{without_change};

    /// Nothing changes.
    ///
    /// `Memory` where a growth was refused.
    pub fn refused(alloc: Global, refusal: Refusal) -> Result<OfficeOutcome, Memory>
        ensures { IfOk result (λ outcome. outcome ≡ without_change (refused refusal)) }
    {
        let reply = refused(alloc, refusal)?;
        Ok(OfficeOutcome {
            change: None,
            reply,
        })
    }
}
