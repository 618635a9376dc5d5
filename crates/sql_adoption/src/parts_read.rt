//! A part of the office of tables by domains, in maps: what an act reads.
ghost use Rattle.std.specs.Prelude.{◌≡◌, false, IfOk, OnOk};
ghost use Rattle.sqlite.specs.Held.{state};
ghost use Rattle.office_maps.specs.OfficeIn.{office_in};
ghost use Rattle.office_specification.specs.Parts.{ShareTeam, AreAlikeIn};
ghost use Rattle.office_specification.specs.declared.parts.Part.TheVariants as parts;
ghost use Rattle.sql_schema.specs.Layouts.{by_domain, rows_named};
ghost use Rattle.sql_schema.specs.Whole.{IsIdleOver, IsLookUp};
ghost use Rattle.sql_meaning.specs.Domains.{office_of_rows};
ghost use Rattle.sql_decoding.specs.DiskFailures.{FailsTruly};
ghost use Rattle.sql_adoption.specs.Reading.{with_seen};
ghost use Rattle.sql_adoption.specs.PartsRead as shown;
ghost use Rattle.sql_adoption.specs.ReadParts.{part_of};

use crate::domains_read::{Part as DomainPart, look_up};
use crate::look_ups::{SharedRows, look_up_shared};
use crate::office_put::bare_office;
use office_maps::OfficeMaps;
use office_specification::{Change, Part};
use sql_decoding::{Failure, domain_at, needed};
use sql_loading::{add_domain, set_team};
use sqlite::{Alter, Connection, Row};
use std::alloc::Global;
use units::Name;

/// Puts in the domains that rows name, each with nothing.
fn put_named(alloc: Global, maps: &mut OfficeMaps, rows: &[Row]) -> Result<(), Failure>
    ensures { OnOk result (office_in maps.new ≡ shown.with_named (office_in maps.old) rows.now) }
{
    for row in rows {
        let name = domain_at(alloc, row)?;
        maps.change(alloc, Change::NewDomain(name))?;
    }
    Ok(())
}

/// The office of the team, the policy and the domains' names that rows show, each domain with nothing.
fn shared_office(alloc: Global, rows: &SharedRows) -> Result<OfficeMaps, Failure>
    ensures { IfOk result (λ maps. office_in maps ≡ shown.shared_office rows.now) }
{
    let mut maps = bare_office(alloc)?;
    put_named(alloc, &mut maps, rows.domains.as_slice())?;
    set_team(alloc, &mut maps, rows.team.as_slice(), &rows.policy)?;
    Ok(maps)
}

/// The office with its team, its policy and its domains' names, each domain with nothing.
fn load_shared<S: Alter>(
    connection: &mut Connection<S>,
    alloc: Global,
) -> Result<OfficeMaps, Failure>
    requires autocommit { connection.old.in_transaction ≡ false }
    requires idle { IsIdleOver by_domain (state S.Store connection.old) }
    ensures found { IsLookUp (state S.Store connection.old) (state S.Store connection.new) result
        (λ db maps. ShareTeam (office_in maps) (office_of_rows (rows_named db))) }
    ensures disk { FailsTruly (state S.Store connection.old) (state S.Store connection.new) result }
{
    let rows = look_up_shared(connection)?;
    needed(shared_office(alloc, &rows))
}

/// An office with a domain, or a part of it, and with the team and the policy.
fn with_domain<S: Alter>(
    connection: &mut Connection<S>,
    alloc: Global,
    domain: &Name,
    part: DomainPart,
    maps: OfficeMaps,
) -> Result<OfficeMaps, Failure>
    requires autocommit { connection.old.in_transaction ≡ false }
    requires idle { IsIdleOver by_domain (state S.Store connection.old) }
    ensures found { IsLookUp (state S.Store connection.old) (state S.Store connection.new) result
        (λ db more. office_in more ≡ with_seen (part_of part (rows_named db)) (office_in maps) domain.now) }
    ensures disk { FailsTruly (state S.Store connection.old) (state S.Store connection.new) result }
{
    let mut maps = maps;
    let rows = look_up(connection, alloc, domain.as_str(), part)?;
    needed(add_domain(alloc, &mut maps, domain, &rows))?;
    Ok(maps)
}

/// The office with its team, its policy, its domains' names, and the template and the languages of a domain, where it is there.
fn load_languages<S: Alter>(
    connection: &mut Connection<S>,
    alloc: Global,
    domain: &Name,
) -> Result<OfficeMaps, Failure>
    requires autocommit { connection.old.in_transaction ≡ false }
    requires idle { IsIdleOver by_domain (state S.Store connection.old) }
    ensures found { IsLookUp (state S.Store connection.old) (state S.Store connection.new) result
        (λ db maps. AreAlikeIn (parts.Languages domain.now) (office_in maps) (office_of_rows (rows_named db))) }
    ensures disk { FailsTruly (state S.Store connection.old) (state S.Store connection.new) result }
{
    let maps = load_shared(connection, alloc)?;
    if !maps.has_domain(domain) {
        return Ok(maps);
    }
    with_domain(connection, alloc, domain, DomainPart::Frame, maps)
}

/// The same with all that the domain sees.
fn load_domain<S: Alter>(
    connection: &mut Connection<S>,
    alloc: Global,
    domain: &Name,
) -> Result<OfficeMaps, Failure>
    requires autocommit { connection.old.in_transaction ≡ false }
    requires idle { IsIdleOver by_domain (state S.Store connection.old) }
    ensures found { IsLookUp (state S.Store connection.old) (state S.Store connection.new) result
        (λ db maps. AreAlikeIn (parts.Domain domain.now) (office_in maps) (office_of_rows (rows_named db))) }
    ensures disk { FailsTruly (state S.Store connection.old) (state S.Store connection.new) result }
{
    let maps = load_shared(connection, alloc)?;
    if !maps.has_domain(domain) {
        return Ok(maps);
    }
    with_domain(connection, alloc, domain, DomainPart::Whole, maps)
}

/// A part of the office of tables by domains, in maps: in that they are alike to it. Of what isn't of the part nothing is read. Whether each
/// row is of a domain that there is isn't asked.
///
/// `Memory` where a growth was refused; `Disk` only where the disk failed; `Refused` where a statement was refused, or the rows stand for no
/// office.
pub fn load_part<S: Alter>(
    connection: &mut Connection<S>,
    alloc: Global,
    part: &Part,
) -> Result<OfficeMaps, Failure>
    requires autocommit { connection.old.in_transaction ≡ false }
    requires idle { IsIdleOver by_domain (state S.Store connection.old) }
    ensures found { IsLookUp (state S.Store connection.old) (state S.Store connection.new) result
        (λ db maps. AreAlikeIn part.now (office_in maps) (office_of_rows (rows_named db))) }
    ensures disk { FailsTruly (state S.Store connection.old) (state S.Store connection.new) result }
{
    match part {
        Part::Team => load_shared(connection, alloc),
        Part::Languages(domain) => load_languages(connection, alloc, domain),
        Part::Domain(domain) => load_domain(connection, alloc, domain),
    }
}
