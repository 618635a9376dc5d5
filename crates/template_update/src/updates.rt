//! Units afterwards, and what became of each.

ghost use Rattle.std.specs.Prelude.{◌≡◌, ◌++◌, ◌∷◌, [], OnOk};

use crate::update::UnitUpdate;
use std::alloc::AllocError;
use units::Unit;

#[derive(Drop)]
pub(crate) struct UpdatedUnits {
    pub(crate) units: Vec<Unit>,
    pub(crate) updates: Vec<UnitUpdate>,
}

impl UpdatedUnits {
    /// Adds a unit, and what became of it.
    pub(crate) fn push(&mut self, update: UnitUpdate, unit: Unit) -> Result<(), AllocError>
        ensures units { OnOk result (self.new.units.items ≡ self.old.units.items ++ unit ∷ []) }
        ensures updates { OnOk result (self.new.updates.items ≡ self.old.updates.items ++ update ∷ []) }
    {
        self.units.push(unit)?;
        self.updates.push(update)?;
        Ok(())
    }
}
