//! What tables in maps begin with.

ghost use Rattle.std.specs.Prelude.{◌≡◌, IfOk};
ghost use Rattle.office_maps.specs.OfficeIn.{office_in};
ghost use Rattle.tables.specs.Starts.{office_of_start};

use crate::start::Start;
use office_maps::OfficeMaps;
use std::alloc::Global;
use units::Memory;

/// The office of a start, in maps.
pub(crate) fn office_of(start: &Start, alloc: Global) -> Result<OfficeMaps, Memory>
    ensures { IfOk result (λ office. office_in office ≡ office_of_start start.now) }
{
    match start {
        Start::Opening(manager) => OfficeMaps::opening(alloc, manager),
        Start::Demo => OfficeMaps::demo(alloc),
    }
}
