//! A domain with the team and the policy of its office, as all rows of its tables are read.
ghost use Rattle.std.specs.Prelude.{◌≡◌, ◌≢◌, ◌&&◌, true, IfOk, IfErr, OnOk, fold};
ghost use Rattle.std.specs.List.{list_all};
ghost use Rattle.std.specs.FinMap as finite;
ghost use Rattle.units.specs.Project.{with_unit};
ghost use Rattle.office_maps.specs.OfficeIn.{office_in, place_of};
ghost use Rattle.sql_meaning.specs.Meaning.{key_at};
ghost use Rattle.sql_meaning.specs.OfficeShown.{with_shown, unit_shown, place_shown};
ghost use Rattle.sql_loading.specs.DomainChanged.{ChangesDomain};
ghost use Rattle.sql_decoding.specs.TablesRead.{with_suggestions};
ghost use Rattle.sql_decoding.specs.RowTests.{has_place, is_unit, is_unit_row, are_unit_tables, AreOfficeRows, IsUnread};
ghost use Rattle.tables.specs.declared.faults.Lost.TheVariants.{Memory};

use crate::office_tables::{put_languages, put_policy, put_team, put_template};
use crate::unit_tables::{all_suggestions, suggestions_on};
use office_maps::{OfficeMaps, OrderedKey, Place};
use office_specification::Change;
use po_text::{Duplicate, Items};
use sql_decoding::{Failure, key_at, lang_at, unit_with};
use sql_statements::whole_office::{UnitTables, WholeOffice};
use sqlite::Row;
use std::alloc::Global;
use std::collections::BTreeMap;
use units::{Key, Name, Suggestion, Unit};

// ---- units

/// The place of a row's unit.
pub fn place_in(alloc: Global, row: &Row) -> Result<Place, Failure>
    ensures shown { IfOk result (λ place. place_of place ≡ place_shown row.now) }
    ensures stands { OnOk result (has_place row.now ≡ true) }
    ensures unread { IfErr result (IsUnread (has_place row.now)) }
{
    let lang = lang_at(alloc, row, 7)?;
    let key = key_at(alloc, row, 8)?;
    Ok(Place {
        lang,
        key: OrderedKey { key },
    })
}

/// The unit of a row and of its key, with the suggestions on it.
fn unit_of(
    alloc: Global,
    suggestions: &BTreeMap<(String, String), Items<Suggestion>>,
    key: &Key,
    row: &Row,
) -> Result<Unit, Failure>
    requires { key.now ≡ key_at 8 row.now }
    ensures shown { IfOk result (λ unit. unit ≡ with_suggestions suggestions.now row.now) }
    ensures stands { OnOk result (is_unit row.now ≡ true) }
    ensures unread { IfErr result (IsUnread (has_place row.now && is_unit row.now)) }
{
    let own = suggestions_on(alloc, suggestions, row)?;
    unit_with(alloc, key, row, own)
}

/// Puts the unit of a row at its place in a domain.
fn put_unit(
    alloc: Global,
    maps: &mut OfficeMaps,
    domain: &Name,
    suggestions: &BTreeMap<(String, String), Items<Suggestion>>,
    row: &Row,
) -> Result<(), Failure>
    ensures shown { OnOk result (ChangesDomain domain.now maps.old maps.new (λ project. with_unit project (place_shown row.now) (with_suggestions suggestions.now row.now))) }
    ensures stands { OnOk result (is_unit_row row.now ≡ true) }
    ensures unread { IfErr result (IsUnread (is_unit_row row.now)) }
{
    let place = place_in(alloc, row)?;
    let unit = unit_of(alloc, suggestions, &place.key.key, row)?;
    maps.put_unit(domain, place, unit)?;
    Ok(())
}

/// Puts the units of rows at their places in a domain.
fn put_each_unit(
    alloc: Global,
    maps: &mut OfficeMaps,
    domain: &Name,
    suggestions: &BTreeMap<(String, String), Items<Suggestion>>,
    rows: &[Row],
) -> Result<(), Failure>
    ensures shown { OnOk result (ChangesDomain domain.now maps.old maps.new
        (λ project. fold (λ p row. with_unit p (place_shown row) (with_suggestions suggestions.now row)) project rows.now)) }
    ensures stands { OnOk result (list_all is_unit_row rows.now ≡ true) }
    ensures unread { IfErr result (IsUnread (list_all is_unit_row rows.now)) }
{
    for row in rows {
        put_unit(alloc, maps, domain, suggestions, row)?;
    }
    Ok(())
}

/// Puts the units of whole tables into a domain.
fn put_units(
    alloc: Global,
    maps: &mut OfficeMaps,
    domain: &Name,
    rows: &UnitTables,
) -> Result<(), Failure>
    ensures shown { OnOk result (ChangesDomain domain.now maps.old maps.new (λ project.
        record project { units = fold (λ units row. finite.insert units (place_shown row) (unit_shown rows.now row)) project.units rows.now.units.items })) }
    ensures stands { OnOk result (are_unit_tables rows.now ≡ true) }
    ensures unread { IfErr result (IsUnread (are_unit_tables rows.now)) }
{
    let suggestions = all_suggestions(alloc, rows)?;
    put_each_unit(alloc, maps, domain, &suggestions, rows.units.as_slice())?;
    Ok(())
}

// ---- all of it

/// Puts a domain that all rows of its tables stand for into an office, with their team and policy. It is put in anew where there is one
/// of its name.
///
/// `Memory` where a growth was refused, and `Disk` exactly where a row stands for no value, or the template's entries are no valid
/// catalogue; then a part of them may be put in.
pub fn add_domain(
    alloc: Global,
    maps: &mut OfficeMaps,
    domain: &Name,
    rows: &WholeOffice,
) -> Result<(), Failure>
    ensures shown { OnOk result (office_in maps.new ≡ with_shown (office_in maps.old) domain.now rows.now) }
    ensures stands { OnOk result (AreOfficeRows rows.now) }
    ensures unread { IfErr result (λ failure. failure.lost ≢ Memory → ¬ AreOfficeRows rows.now) }
{
    let own = domain.duplicate()?;
    maps.change(alloc, Change::NewDomain(own))?;
    put_template(alloc, maps, domain, rows.office.template.as_slice())?;
    put_languages(alloc, maps, domain, rows.office.languages.as_slice())?;
    put_team(alloc, maps, rows.office.team.as_slice())?;
    put_policy(alloc, maps, &rows.office.policy)?;
    put_units(alloc, maps, domain, &rows.units)?;
    Ok(())
}
