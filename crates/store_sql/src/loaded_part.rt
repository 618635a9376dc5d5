//! The part of the office that an act reads, as it is read.
ghost use Rattle.std.specs.Prelude.{◌≡◌, false, None, Some};
ghost use Rattle.sqlite.specs.Held.{state};
ghost use Rattle.office_maps.specs.OfficeIn.{office_in};
ghost use Rattle.office_specification.specs.Parts.{AreAlikeIn};
ghost use Rattle.sql_schema.specs.Whole.{IsLookUp};
ghost use Rattle.sql_meaning.specs.Domains.{office_of_rows};
ghost use Rattle.store_sql.specs.TablesInFile.{KeepsOffice};
ghost use Rattle.sql_schema.specs.Layouts.{rows_named};
ghost use Rattle.sql_decoding.specs.DiskFailures.{FailsTruly};

use office_maps::OfficeMaps;
use office_specification::Part;
use sql_adoption::load_part;
use sql_decoding::Failure;
use sqlite::{Alter, Connection};
use std::alloc::Global;

/// A part of the office, and maps that are alike to it in that.
#[derive(Drop)]
pub(crate) struct LoadedPart {
    pub(crate) part: Part,
    pub(crate) maps: OfficeMaps,
}

/// Maps that are alike in a part to the office that the rows stand for.
pub fn read_part<S: Alter>(
    connection: &mut Connection<S>,
    alloc: Global,
    part: &Part,
) -> Result<OfficeMaps, Failure>
    requires autocommit { connection.old.in_transaction ≡ false }
    requires keeps { KeepsOffice (state S.Store connection.old) }
    ensures found { IsLookUp (state S.Store connection.old) (state S.Store connection.new) result
        (λ db maps. AreAlikeIn part.now (office_in maps) (office_of_rows (rows_named db))) }
    ensures disk { FailsTruly (state S.Store connection.old) (state S.Store connection.new) result }
{
    load_part(connection, alloc, part)
}

/// Has a part of the office at hand.
pub fn keep(office: &mut Option<LoadedPart>, part: Part, maps: OfficeMaps)
    ensures { office.new ≡ Some (record { part = part; maps = maps }) }
{
    *office = Some(LoadedPart { part, maps });
}

/// How large the pieces of memory are that are asked for once an office was let go.
const LARGE: usize = 131_072;

/// For how many units one is asked for: what they leave is fewer pieces than the C library puts in order at a request.
const UNITS: usize = 500;

/// How many units there are, in all domains.
fn unit_count(maps: &OfficeMaps) -> usize {
    let mut count = 0_usize;
    for domain in maps.domains.values() {
        count = count.saturating_add(domain.units.len());
    }
    count
}

/// Lets an office go. Its maps have very many small pieces of memory, which the C library puts together and in order, 10,000 at a time,
/// when it is asked for large ones: so it is asked at once, and no act waits for that.
fn let_go(alloc: Global, maps: OfficeMaps) {
    let requests = unit_count(&maps) / UNITS + 1;
    drop(maps);
    for _ in 0..requests {
        drop(Vec::<u8>::with_capacity(alloc, LARGE));
    }
}

/// Has none at hand any more.
pub fn forget(alloc: Global, office: &mut Option<LoadedPart>)
    ensures { office.new ≡ None }
{
    if let Some(LoadedPart { part, maps }) = office.take() {
        drop(part);
        let_go(alloc, maps);
    }
}
