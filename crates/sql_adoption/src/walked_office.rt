//! Whether tables by domains are those of an office with its book: its frame, the office without the units of its domains, is at hand, and all other rows are walked, one at a
//! time. Nothing is at hand afterwards.
ghost use Rattle.std.specs.Prelude.{◌≡◌, ◌↔◌, ⊤, true, false, IfOk, IfErr, IsTrue};
ghost use Rattle.sqlite.specs.Held.{state};
ghost use Rattle.sqlite.specs.State.{HasCleanDisk};
ghost use Rattle.office_maps.specs.OfficeIn.{office_in};
ghost use Rattle.sql_schema.specs.Layouts.{by_domain};
ghost use Rattle.sql_schema.specs.Whole.{IsIdleOver, IsLookUp};
ghost use Rattle.sql_adoption.specs.Adoption.{IsAdoptedOf};
ghost use Rattle.sql_adoption.specs.FramesKept.{RefusesEither};
ghost use Rattle.sql_adoption.specs.OwnedRows.{RefusesUnless};
ghost use Rattle.sql_adoption.specs.Reading.{HoldsAll, RefusesOf, OpensTruly};
ghost use Rattle.sql_adoption.specs.SumsKept.{VotesStand};
ghost use Rattle.sql_adoption.specs.WalkedOffice.{AreTold, AreUnitsIn, ArePlaced, HasFewDomains, IsFrameOf, RefusesCounted, RefusesUnits};

use crate::book_read::keep_records;
use crate::domains_read::{Part, read_domains};
use crate::faults::{Mismatch, OpenFault};
use crate::figure_rows::look_up_tallies;
use crate::language_tallies::{Counted, are_rows_of};
use crate::office_put::ReadOffice;
use crate::own_domains::hold_own_domains;
use crate::sums_kept::keep_sums;
use crate::unit_sinks::{NoRow, VoteRows};
use crate::units_kept::keep_domains;
use office_maps::OfficeMaps;
use sql_statements::unit_walks::{walk_unplaced, walk_votes};
use sqlite::{Alter, Connection};
use std::alloc::Global;
use units::{DOMAIN_LIMIT, Name};

// ---- the frame

/// The frame of the office, where each row is of a domain that there is.
fn read_frame<S: Alter>(
    connection: &mut Connection<S>,
    alloc: Global,
) -> Result<ReadOffice, OpenFault>
    requires autocommit { connection.old.in_transaction ≡ false }
    requires idle { IsIdleOver by_domain (state S.Store connection.old) }
    ensures found { IsLookUp (state S.Store connection.old) (state S.Store connection.new) result IsFrameOf }
    ensures holds { IfOk result HoldsAll }
    ensures refused { IfErr result (λ fault. HasCleanDisk (state S.Store connection.new) → RefusesOf by_domain (state S.Store connection.old).now fault) }
    ensures disk { OpensTruly (state S.Store connection.old) (state S.Store connection.new) result }
{
    hold_own_domains(connection)?;
    read_domains(connection, alloc, Part::Frame)
}

/// Whether there is `main`, and few domains.
fn has_few_domains(maps: &OfficeMaps) -> bool
    ensures { (result ≡ true) ↔ HasFewDomains (office_in maps.now) }
{
    let count = maps.domain_count();
    if count > DOMAIN_LIMIT {
        return false;
    }
    maps.has_domain(&Name::main_domain())
}

// ---- units, suggestions and votes

/// Tests that each unit has its language, of a connection that is open.
fn keep_placed<S: Alter>(connection: &mut Connection<S>) -> Result<(), OpenFault>
    requires autocommit { connection.old.in_transaction ≡ false }
    requires idle { IsIdleOver by_domain (state S.Store connection.old) }
    requires is_open { HasCleanDisk (state S.Store connection.old) → IsTrue (state S.Store connection.old).is_open }
    ensures found { IsLookUp (state S.Store connection.old) (state S.Store connection.new) result (λ db _. ArePlaced db) }
    ensures refused { IfErr result (λ fault. HasCleanDisk (state S.Store connection.new) → RefusesEither ⊤ (ArePlaced (state S.Store connection.old).now) fault) }
    ensures disk { OpensTruly (state S.Store connection.old) (state S.Store connection.new) result }
{
    let mut rows = NoRow { none: true };
    walk_unplaced(connection, &mut rows)?;
    if rows.none {
        Ok(())
    } else {
        Err(OpenFault::Foreign(Mismatch::BrokenRules))
    }
}

/// Tests that each vote's row stands for one, of a connection that is open.
fn keep_votes<S: Alter>(connection: &mut Connection<S>, alloc: Global) -> Result<(), OpenFault>
    requires autocommit { connection.old.in_transaction ≡ false }
    requires idle { IsIdleOver by_domain (state S.Store connection.old) }
    requires is_open { HasCleanDisk (state S.Store connection.old) → IsTrue (state S.Store connection.old).is_open }
    ensures found { IsLookUp (state S.Store connection.old) (state S.Store connection.new) result (λ db _. VotesStand db) }
    ensures refused { IfErr result (λ fault. HasCleanDisk (state S.Store connection.new) → RefusesUnless (VotesStand (state S.Store connection.old).now) fault) }
    ensures disk { OpensTruly (state S.Store connection.old) (state S.Store connection.new) result }
{
    let mut votes = VoteRows { alloc };
    walk_votes(connection, &mut votes)?;
    Ok(())
}

/// Tests the units of all domains, the suggestions on them and the votes on these, of a connection that is open, and counts the units.
fn keep_units<'a, S: Alter>(
    connection: &mut Connection<S>,
    alloc: Global,
    frame: &'a ReadOffice,
) -> Result<Vec<Counted<'a>>, OpenFault>
    requires autocommit { connection.old.in_transaction ≡ false }
    requires idle { IsIdleOver by_domain (state S.Store connection.old) }
    requires is_open { HasCleanDisk (state S.Store connection.old) → IsTrue (state S.Store connection.old).is_open }
    requires holds { HoldsAll frame.now }
    ensures found { IsLookUp (state S.Store connection.old) (state S.Store connection.new) result (λ db counted. AreUnitsIn db frame.now counted.items) }
    ensures refused { IfErr result (λ fault. HasCleanDisk (state S.Store connection.new) → RefusesUnits (office_in frame.now.maps) (state S.Store connection.old).now fault) }
    ensures disk { OpensTruly (state S.Store connection.old) (state S.Store connection.new) result }
{
    keep_placed(connection)?;
    let counted = keep_domains(connection, alloc, frame)?;
    keep_votes(connection, alloc)?;
    Ok(counted)
}

// ---- tallies

/// Tests that all tallies are those that were counted.
fn keep_counted<S: Alter>(
    connection: &mut Connection<S>,
    counted: &[Counted<'_>],
) -> Result<(), OpenFault>
    requires autocommit { connection.old.in_transaction ≡ false }
    requires idle { IsIdleOver by_domain (state S.Store connection.old) }
    ensures found { IsLookUp (state S.Store connection.old) (state S.Store connection.new) result (λ db _. AreTold counted.now true db) }
    ensures refused { IfErr result (λ fault. HasCleanDisk (state S.Store connection.new) → RefusesCounted counted.now (state S.Store connection.old).now fault) }
    ensures disk { OpensTruly (state S.Store connection.old) (state S.Store connection.new) result }
{
    let rows = look_up_tallies(connection)?;
    let are = are_rows_of(counted, rows.as_slice());
    drop(rows);
    if are {
        Ok(())
    } else {
        Err(OpenFault::Foreign(Mismatch::OtherFigures))
    }
}

// ---- all of it

/// Tests all rows behind a frame, of a connection that is open.
fn keep_walked<S: Alter>(
    connection: &mut Connection<S>,
    alloc: Global,
    frame: &ReadOffice,
) -> Result<(), OpenFault>
    requires autocommit { connection.old.in_transaction ≡ false }
    requires idle { IsIdleOver by_domain (state S.Store connection.old) }
    requires is_open { HasCleanDisk (state S.Store connection.old) → IsTrue (state S.Store connection.old).is_open }
    requires holds { HoldsAll frame.now }
    requires few { HasFewDomains (office_in frame.now.maps) }
    ensures found { IsLookUp (state S.Store connection.old) (state S.Store connection.new) result (λ db _. IsFrameOf db frame.now → IsAdoptedOf by_domain db) }
    ensures refused { IfErr result (λ fault. HasCleanDisk (state S.Store connection.new) → IsFrameOf (state S.Store connection.old).now frame.now
        → RefusesOf by_domain (state S.Store connection.old).now fault) }
    ensures disk { OpensTruly (state S.Store connection.old) (state S.Store connection.new) result }
{
    let counted = keep_units(connection, alloc, frame)?;
    keep_records(connection, alloc)?;
    keep_sums(connection)?;
    keep_counted(connection, counted.as_slice())
}

/// Tests tables by domains: that they are those of an office with its book.
pub(crate) fn keep_by_domain<S: Alter>(
    connection: &mut Connection<S>,
    alloc: Global,
) -> Result<(), OpenFault>
    requires autocommit { connection.old.in_transaction ≡ false }
    requires idle { IsIdleOver by_domain (state S.Store connection.old) }
    ensures found { IsLookUp (state S.Store connection.old) (state S.Store connection.new) result (λ db _. IsAdoptedOf by_domain db) }
    ensures refused { IfErr result (λ fault. HasCleanDisk (state S.Store connection.new) → RefusesOf by_domain (state S.Store connection.old).now fault) }
    ensures disk { OpensTruly (state S.Store connection.old) (state S.Store connection.new) result }
{
    let frame = read_frame(connection, alloc)?;
    if !has_few_domains(&frame.maps) {
        return Err(OpenFault::Foreign(Mismatch::BrokenRules));
    }
    keep_walked(connection, alloc, &frame)
}
