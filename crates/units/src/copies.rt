//! Copies of units and of their parts, each equal to what it is a copy of.
ghost use Rattle.std.specs.Prelude.{◌≡◌, IfOk};

use crate::unit::{Key, Suggestion, Unit, UnitAct, UnitAction, UnitView};
use po_text::{Duplicate, Forms, Items, PoString, Previous, Text, both};
use std::alloc::AllocError;

impl Duplicate for Key {
    fn duplicate(&self) -> Result<Key, AllocError> {
        let (ctx, id) = both(self.ctx.duplicate(), self.id.duplicate())?;
        Ok(Key { ctx, id })
    }
}

impl Duplicate for Suggestion {
    fn duplicate(&self) -> Result<Suggestion, AllocError> {
        let (suggester, (forms, votes)) = both(
            self.suggester.duplicate(),
            both(self.forms.duplicate(), self.votes.duplicate()),
        )?;
        Ok(Suggestion {
            number: self.number,
            suggester,
            forms,
            votes,
        })
    }
}

impl Duplicate for Unit {
    fn duplicate(&self) -> Result<Unit, AllocError> {
        let ((key, (plural, forms)), (comment, (previous, suggestions))) = both(
            copied_texts(self),
            copied_notes(self),
        )?;
        Ok(Unit {
            key,
            plural,
            forms,
            state: self.state,
            obsolete: self.obsolete,
            revision: self.revision,
            comment,
            previous,
            suggestions,
        })
    }
}

/// The unit's key, msgid_plural and forms, copied.
fn copied_texts(unit: &Unit) -> Result<(Key, (Option<PoString>, Forms)), AllocError>
    ensures { IfOk result (λ copy. copy ≡ (unit.now.key, (unit.now.plural, unit.now.forms))) }
{
    both(
        unit.key.duplicate(),
        both(unit.plural.duplicate(), unit.forms.duplicate()),
    )
}

/// Its comment lines, previous strings and suggestions, copied.
fn copied_notes(unit: &Unit) -> Result<(Items<Text>, (Previous, Items<Suggestion>)), AllocError>
    ensures { IfOk result (λ copy. copy ≡ (unit.now.comment, (unit.now.previous, unit.now.suggestions))) }
{
    both(
        unit.comment.duplicate(),
        both(unit.previous.duplicate(), unit.suggestions.duplicate()),
    )
}

impl Duplicate for UnitView {
    fn duplicate(&self) -> Result<UnitView, AllocError> {
        let (unit, source) = both(self.unit.duplicate(), self.source.duplicate())?;
        Ok(UnitView { unit, source })
    }
}

impl Duplicate for UnitAction {
    fn duplicate(&self) -> Result<UnitAction, AllocError> {
        match self {
            UnitAction::Suggest(forms) => Ok(UnitAction::Suggest(forms.duplicate()?)),
            UnitAction::Vote(number, value) => Ok(UnitAction::Vote(*number, *value)),
            UnitAction::Accept(number) => Ok(UnitAction::Accept(*number)),
            UnitAction::Dismiss(number) => Ok(UnitAction::Dismiss(*number)),
            UnitAction::Translate(forms) => Ok(UnitAction::Translate(forms.duplicate()?)),
            UnitAction::Comment(lines) => Ok(UnitAction::Comment(lines.duplicate()?)),
            UnitAction::Approve => Ok(UnitAction::Approve),
            UnitAction::SendBack => Ok(UnitAction::SendBack),
        }
    }
}

impl Duplicate for UnitAct {
    fn duplicate(&self) -> Result<UnitAct, AllocError> {
        Ok(UnitAct {
            seen: self.seen,
            action: self.action.duplicate()?,
        })
    }
}
