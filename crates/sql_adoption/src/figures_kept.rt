//! Whether the figures that tables keep are what counting their rows gives.
ghost use Rattle.std.specs.Prelude.{◌≡◌, ◌↔◌, true, false, IfOk, IfErr, OnOk, ◌≢◌};
ghost use Rattle.sqlite.specs.Held.{state};
ghost use Rattle.sqlite.specs.State.{HasCleanDisk};
ghost use Rattle.units.specs.Offices.{IsOffice};
ghost use Rattle.office_maps.specs.OfficeIn.{office_in};
ghost use Rattle.sql_figures.specs.KeptTallies.{office_counts};
ghost use Rattle.sql_schema.specs.Layouts.{for_main};
ghost use Rattle.sql_schema.specs.Whole.{IsIdleOver, IsLookUp};
ghost use Rattle.sql_adoption.specs.FigureRows.{ShowFigures};
ghost use Rattle.sql_adoption.specs.declared.faults.OpenFault.TheVariants as faults;
ghost use Rattle.sql_adoption.specs.Reading.{FiguresOf, HoldsAll, RefusesFigureRows, RefusesFigures, RefusesShown, OpensTruly};

use crate::faults::{Mismatch, OpenFault};
use crate::figure_rows::{FigureRows, look_up_main_figures};
use crate::language_tallies::are_tallies;
use crate::office_put::ReadOffice;
use crate::suggestion_sums::are_sums;
use sqlite::{Alter, Connection};
use std::alloc::Global;

/// Whether rows that show the figures are those of an office.
fn are_figures(alloc: Global, read: &ReadOffice, rows: &FigureRows) -> Result<bool, OpenFault>
    requires holds { HoldsAll read.now }
    ensures told { IsOffice (office_in read.now.maps) → IfOk result (λ are. (are ≡ true) ↔ ShowFigures (office_counts (office_in read.now.maps)) rows.now) }
    ensures refused { IfErr result (RefusesFigureRows rows.now) }
    ensures disk { IfErr result (λ fault. fault ≢ faults.Disk) }
{
    let tallies = are_tallies(alloc, read, rows.tallies.as_slice())?;
    match are_sums(alloc, rows) {
        Ok(sums) => Ok(tallies && sums),
        Err(failure) => Err(OpenFault::unread(failure)),
    }
}

/// Tests rows that show the figures that are kept of an office that was read.
fn test_figures(alloc: Global, read: &ReadOffice, rows: FigureRows) -> Result<(), OpenFault>
    requires holds { HoldsAll read.now }
    ensures shown { IsOffice (office_in read.now.maps) → OnOk result (ShowFigures (office_counts (office_in read.now.maps)) rows) }
    ensures refused { IfErr result (RefusesShown (office_in read.now.maps) rows) }
    ensures disk { IfErr result (λ fault. fault ≢ faults.Disk) }
{
    let are = are_figures(alloc, read, &rows)?;
    drop(rows);
    if are {
        Ok(())
    } else {
        Err(OpenFault::Foreign(Mismatch::OtherFigures))
    }
}

/// Tests the figures that tables without a column for a domain keep of an office that was read.
pub(crate) fn keep_main_figures<S: Alter>(
    connection: &mut Connection<S>,
    alloc: Global,
    read: &ReadOffice,
) -> Result<(), OpenFault>
    requires autocommit { connection.old.in_transaction ≡ false }
    requires idle { IsIdleOver (for_main true) (state S.Store connection.old) }
    requires holds { HoldsAll read.now }
    ensures found { IsLookUp (state S.Store connection.old) (state S.Store connection.new) result
        (λ db _. IsOffice (office_in read.now.maps) → FiguresOf (for_main true) (office_in read.now.maps) db) }
    ensures refused { IfErr result (λ fault. HasCleanDisk (state S.Store connection.new) → RefusesFigures (for_main true) (office_in read.now.maps) (state S.Store connection.old).now fault) }
    ensures disk { OpensTruly (state S.Store connection.old) (state S.Store connection.new) result }
{
    let rows = look_up_main_figures(connection)?;
    test_figures(alloc, read, rows)
}
