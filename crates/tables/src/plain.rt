//! Tables in ordered maps.

ghost use Rattle.office_specification.specs.OfficeRules.{KeepsRules};
ghost use Rattle.office_specification.specs.OneProof.{rules_prop};
ghost use Rattle.tables.specs.MapsMeaning.{meaning};

use crate::faults::Lost;
use crate::plain_start::office_of;
use crate::record_maps::Maps;
use crate::start::Start;
use std::alloc::Global;

/// Tables of an office with its book that stand in memory. They keep the rules of an office with its book, and are never stopped.
#[derive(Drop)]
pub struct PlainTables {
    pub(crate) maps: Maps,
    pub(crate) alloc: Global,
    ghost kept: { KeepsRules (meaning maps) } by { rules_prop (meaning maps) },
}

impl PlainTables {
    ghost use Rattle.std.specs.Prelude.{◌≡◌, IfOk, IfErr};
    ghost use Rattle.tables.specs.declared.faults.Lost.TheVariants.{Memory};
    ghost use Rattle.tables.specs.Starts.{started};
    ghost use Rattle.tables.specs.PlainMeaning.{meaning_of};

    /// Tables of the office of a start, of which nothing is recorded.
    ///
    /// `Memory` where a growth was refused.
    pub fn new(alloc: Global, start: &Start) -> Result<PlainTables, Lost>
        ensures ok { IfOk result (λ tables. meaning_of tables ≡ started start.now) }
        ensures memory { IfErr result (λ e. e ≡ Memory) }
    {
        let office = office_of(start, alloc)?;
        Ok(PlainTables {
            maps: Maps::new(alloc, office),
            alloc,
        })
    }
}
