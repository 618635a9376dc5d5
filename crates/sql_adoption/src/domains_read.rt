//! The domains of tables by domains: their names, and each one with all that it sees, or without its units, the rows of one at a time.
ghost use Rattle.std.specs.Prelude.{◌≡◌, ◌++◌, ◌∷◌, [], true, false, List, map, IfOk, IfErr, OnOk};
ghost use Rattle.std.specs.List.{list_all};
ghost use Rattle.sqlite.specs.Held.{state};
ghost use Rattle.sqlite.specs.State.{HasCleanDisk};
ghost use Rattle.po_text.specs.Texts.{Text};
ghost use Rattle.office_maps.specs.OfficeIn.{office_in};
ghost use Rattle.sql_laws.specs.DiskErrors.{BlamesTruly};
ghost use Rattle.sql_schema.specs.Keys.{text_at};
ghost use Rattle.sql_schema.specs.Layouts.{by_domain, rows_named};
ghost use Rattle.sql_schema.specs.Whole.{IsIdleOver, IsLookUp};
ghost use Rattle.sql_decoding.specs.RowTests.{is_domain_row, IsUnread};
ghost use Rattle.sql_schema.specs.SeenRows.{seen_in};
ghost use Rattle.sql_statements.specs.WholeOffice.{ShowsWholeOfficeIn};
ghost use Rattle.sql_adoption.specs.ReadParts.{part_of};
ghost use Rattle.sql_adoption.specs.Reading.{AreNames, AddsDomain, AreDomainsRead, HoldAll, HoldsAll, RefusesOf, OpensTruly};

use crate::faults::{Mismatch, OpenFault};
use crate::look_ups::look_up_domains;
use crate::office_put::{ReadOffice, bare_office, put_told};
use office_maps::OfficeMaps;
use sql_decoding::{Failure, domain_at};
use sql_layouts::Form;
use sql_statements::domain_office::{look_up_domain, look_up_frame};
use sql_statements::whole_office::WholeOffice;
use sqlite::{Alter, Connection, Error, Row};
use std::alloc::Global;
use units::{Lang, Name};

/// The names that rows show.
fn names_in(alloc: Global, rows: &[Row]) -> Result<Vec<Name>, Failure>
    ensures shown { IfOk result (λ names. names.items ≡ map (text_at 0) rows.now) }
    ensures stand { OnOk result (list_all is_domain_row rows.now ≡ true) }
    ensures unread { IfErr result (IsUnread (list_all is_domain_row rows.now)) }
{
    let mut names = Vec::new(alloc);
    for row in rows {
        names.push(domain_at(alloc, row)?)?;
    }
    Ok(names)
}

/// The names of the domains.
fn read_names<S: Alter>(
    connection: &mut Connection<S>,
    alloc: Global,
) -> Result<Vec<Name>, OpenFault>
    requires autocommit { connection.old.in_transaction ≡ false }
    requires idle { IsIdleOver by_domain (state S.Store connection.old) }
    ensures found { IsLookUp (state S.Store connection.old) (state S.Store connection.new) result (λ db names. AreNames (rows_named db) names.items) }
    ensures refused { IfErr result (λ fault. HasCleanDisk (state S.Store connection.new) → RefusesOf by_domain (state S.Store connection.old).now fault) }
    ensures disk { OpensTruly (state S.Store connection.old) (state S.Store connection.new) result }
{
    let rows = look_up_domains(connection)?;
    match names_in(alloc, rows.as_slice()) {
        Ok(names) => Ok(names),
        Err(failure) => Err(OpenFault::unread(failure)),
    }
}

/// How much of a domain is read.
#[derive(Clone, Copy)]
pub(crate) enum Part {
    /// All that it sees.
    Whole,
    /// All but its units, the suggestions on them and the votes on these.
    Frame,
}

/// What a domain sees of the office, or a part of it.
pub(crate) fn look_up<S: Alter>(
    connection: &mut Connection<S>,
    alloc: Global,
    domain: &str,
    part: Part,
) -> Result<WholeOffice, Error>
    requires autocommit { connection.old.in_transaction ≡ false }
    requires idle { IsIdleOver by_domain (state S.Store connection.old) }
    ensures found { IsLookUp (state S.Store connection.old) (state S.Store connection.new) result
        (λ db rows. ShowsWholeOfficeIn (seen_in domain.now (part_of part (rows_named db))) rows) }
    ensures disk { BlamesTruly (state S.Store connection.old) (state S.Store connection.new) result }
{
    match part {
        Part::Whole => look_up_domain(connection, domain),
        Part::Frame => look_up_frame(connection, alloc, domain),
    }
}

/// Puts a domain in, or a part of it.
fn read_domain<S: Alter>(
    connection: &mut Connection<S>,
    alloc: Global,
    domain: &Name,
    part: Part,
    maps: &mut OfficeMaps,
    langs: &mut Vec<Lang>,
) -> Result<(), OpenFault>
    requires autocommit { connection.old.in_transaction ≡ false }
    requires idle { IsIdleOver by_domain (state S.Store connection.old) }
    ensures found { IsLookUp (state S.Store connection.old) (state S.Store connection.new) result (λ db _. AddsDomain domain.now (part_of part (rows_named db)) maps.old maps.new) }
    ensures all { OnOk result ((domains : List Text) → HoldAll (office_in maps.old) domains langs.old.items → HoldAll (office_in maps.new) (domains ++ domain.now ∷ []) langs.new.items) }
    ensures refused { IfErr result (λ fault. HasCleanDisk (state S.Store connection.new) → RefusesOf by_domain (state S.Store connection.old).now fault) }
    ensures disk { OpensTruly (state S.Store connection.old) (state S.Store connection.new) result }
{
    let rows = look_up(connection, alloc, domain.as_str(), part)?;
    let put = put_told(alloc, Form::ByDomain, domain, &rows, maps, langs);
    drop(rows);
    put
}

/// The office of all domains, or of this part of each. Where there is none, the office has no `main`.
pub(crate) fn read_domains<S: Alter>(
    connection: &mut Connection<S>,
    alloc: Global,
    part: Part,
) -> Result<ReadOffice, OpenFault>
    requires autocommit { connection.old.in_transaction ≡ false }
    requires idle { IsIdleOver by_domain (state S.Store connection.old) }
    ensures found { IsLookUp (state S.Store connection.old) (state S.Store connection.new) result (λ db read. AreDomainsRead (part_of part (rows_named db)) read) }
    ensures holds { IfOk result HoldsAll }
    ensures refused { IfErr result (λ fault. HasCleanDisk (state S.Store connection.new) → RefusesOf by_domain (state S.Store connection.old).now fault) }
    ensures disk { OpensTruly (state S.Store connection.old) (state S.Store connection.new) result }
{
    let domains = read_names(connection, alloc)?;
    if domains.is_empty() {
        return Err(OpenFault::Foreign(Mismatch::BrokenRules));
    }
    let mut maps = bare_office(alloc)?;
    let mut langs = Vec::new(alloc);
    let names = domains.as_slice();
    for domain in names {
        read_domain(connection, alloc, domain, part, &mut maps, &mut langs)?;
    }
    Ok(ReadOffice {
        maps,
        domains,
        langs,
    })
}
