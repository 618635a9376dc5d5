//! An office and its languages, into which a domain is put as all rows that it sees show it.
ghost use Rattle.std.specs.Prelude.{◌≡◌, ◌≢◌, ◌↔◌, ◌++◌, ◌∷◌, [], true, List, IfOk, IfErr, OnOk};
ghost use Rattle.sqlite.specs.declared.types.Value.TheVariants.{Int};
ghost use Rattle.sqlite.specs.Order.{column};
ghost use Rattle.po_text.specs.Texts.{Text};
ghost use Rattle.office_maps.specs.OfficeIn.{office_in};
ghost use Rattle.tables.specs.declared.faults.Lost.TheVariants as lost;
ghost use Rattle.sql_decoding.specs.RowTests.{AreOfficeRows};
ghost use Rattle.sql_adoption.specs.Adoption as spec;
ghost use Rattle.sql_adoption.specs.Reading as reading;
ghost use Rattle.sql_adoption.specs.Reading.{ShowsForm, PutsRows, HoldAll, RefusesRows};
ghost use Rattle.sql_adoption.specs.declared.faults.OpenFault.TheVariants as faults;
ghost use Rattle.sql_layouts.specs.Tables.{form_told};

use crate::faults::{Mismatch, OpenFault};
use crate::langs_read::note_langs;
use office_maps::OfficeMaps;
use sql_decoding::Failure;
use sql_layouts::Form;
use sql_loading::add_domain;
use sql_statements::whole_office::WholeOffice;
use sqlite::Row;
use sqlite::types::ValueRef;
use std::alloc::Global;
use std::collections::BTreeMap;
use units::{Lang, Memory, Name};

/// An office that was read, the names of its domains, and the codes of their languages.
#[derive(Drop)]
pub struct ReadOffice {
    pub maps: OfficeMaps,
    pub domains: Vec<Name>,
    pub langs: Vec<Lang>,
}

/// The number of the schema that tells a form of the tables.
fn schema_number(form: Form) -> i64
    ensures { result ≡ spec.schema_number (form_told form) }
{
    match form {
        Form::ForMain => 1,
        Form::WithFigures => 2,
        Form::ByDomain => 3,
    }
}

/// Whether a row's first column is this number.
fn shows_number(row: &Row, number: i64) -> bool
    ensures { (result ≡ true) ↔ (column row.now 0 ≡ Int number) }
{
    match row.get_ref(0) {
        Ok(ValueRef::Int(found)) => found == number,
        _ => false,
    }
}

/// Whether the policy's row says that the tables have this form.
fn shows_form(policy: &Option<Row>, form: Form) -> bool
    ensures { (result ≡ true) ↔ ShowsForm (form_told form) policy.now }
{
    match policy {
        Some(row) => shows_number(row, schema_number(form)),
        None => false,
    }
}

/// An office with no domain. Its team and its policy don't matter: those of the rows take their place.
pub(crate) fn bare_office(alloc: Global) -> Result<OfficeMaps, Memory>
    ensures { IfOk result (λ maps. office_in maps ≡ reading.bare_office) }
{
    let mut maps = OfficeMaps::opening(alloc, &Name::main_domain())?;
    maps.domains = BTreeMap::new(alloc);
    Ok(maps)
}

/// Puts a domain in that rows show, and notes its languages.
fn put_rows(
    alloc: Global,
    domain: &Name,
    rows: &WholeOffice,
    maps: &mut OfficeMaps,
    langs: &mut Vec<Lang>,
) -> Result<(), Failure>
    ensures put { OnOk result (PutsRows domain.now rows.now maps.old maps.new) }
    ensures all { OnOk result ((domains : List Text) → HoldAll (office_in maps.old) domains langs.old.items → HoldAll (office_in maps.new) (domains ++ domain.now ∷ []) langs.new.items) }
    ensures unread { IfErr result (λ failure. failure.lost ≢ lost.Memory → ¬ AreOfficeRows rows.now) }
{
    note_langs(langs, rows.office.languages.as_slice())?;
    add_domain(alloc, maps, domain, rows)
}

/// Puts a domain in that rows show, where the policy's row says that the tables have this form.
pub(crate) fn put_told(
    alloc: Global,
    form: Form,
    domain: &Name,
    rows: &WholeOffice,
    maps: &mut OfficeMaps,
    langs: &mut Vec<Lang>,
) -> Result<(), OpenFault>
    ensures put { OnOk result (PutsRows domain.now rows.now maps.old maps.new) }
    ensures told { OnOk result (ShowsForm (form_told form) rows.now.office.policy) }
    ensures all { OnOk result ((domains : List Text) → HoldAll (office_in maps.old) domains langs.old.items → HoldAll (office_in maps.new) (domains ++ domain.now ∷ []) langs.new.items) }
    ensures refused { IfErr result (RefusesRows (form_told form) rows.now) }
    ensures disk { IfErr result (λ fault. fault ≢ faults.Disk) }
{
    if !shows_form(&rows.office.policy, form) {
        return Err(OpenFault::Foreign(Mismatch::OtherForm));
    }
    match put_rows(alloc, domain, rows, maps, langs) {
        Ok(()) => Ok(()),
        Err(failure) => Err(OpenFault::unread(failure)),
    }
}
