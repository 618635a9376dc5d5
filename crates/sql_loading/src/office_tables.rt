//! The team, the policy, the template and the languages of whole tables, put into a domain of an office.
ghost use Rattle.std.specs.Prelude.{◌≡◌, ◌≢◌, ◌&&◌, true, IfOk, IfErr, OnOk, fold};
ghost use Rattle.std.specs.List.{list_all};
ghost use Rattle.std.specs.Option.{option_map_or};
ghost use Rattle.po_text.specs.Texts.{Text};
ghost use Rattle.sql_schema.specs.Keys.{text_at};
ghost use Rattle.sql_meaning.specs.Shown.{shown_header};
ghost use Rattle.sql_meaning.specs.OfficeShown.{team_shown, policy_shown, template_shown};
ghost use Rattle.sql_loading.specs.DomainChanged.{ChangesDomain};
ghost use Rattle.sql_decoding.specs.RowTests.{is_member_row, is_policy_row, is_entry_row, is_language, is_language_row, IsTemplate, IsUnread};
ghost use Rattle.tables.specs.declared.faults.Lost.TheVariants.{Memory};
ghost use Rattle.std.specs.FinMap as finite;
ghost use Rattle.office_maps.specs.Rows as maps_read;
ghost use Rattle.office_maps.specs.OfficeIn.{office_in};
ghost use Rattle.sql_meaning.specs.Values as values;

use office_maps::OfficeMaps;
use office_specification::{Change, DomainChange, Language, Tally};
use po_text::{Catalogue, Duplicate, Entry, Items};
use sql_columns::rule_from;
use sql_decoding::{
    Failure, header_in, lang_at, name_text_at, policy_in, role_at, template_entry, text_in,
};
use sqlite::Row;
use std::alloc::Global;
use std::collections::BTreeMap;
use tables::Lost;
use template_update::{Counts, Plan};
use units::{Name, Policy, Role};

// ---- the team and the policy

/// Puts in the member of a row.
fn put_member(team: &mut BTreeMap<String, Role>, row: &Row) -> Result<(), Failure>
    ensures shown { OnOk result (maps_read.team_in team.new ≡ finite.insert (maps_read.team_in team.old) (text_at 1 row.now) (values.role_at 0 row.now)) }
    ensures stands { OnOk result (is_member_row row.now ≡ true) }
    ensures unread { IfErr result (IsUnread (is_member_row row.now)) }
{
    let role = role_at(row, 0)?;
    let name = name_text_at(row, 1)?;
    team.insert(name, role)?;
    Ok(())
}

/// The team of rows.
fn team_in(alloc: Global, rows: &[Row]) -> Result<BTreeMap<String, Role>, Failure>
    ensures shown { IfOk result (λ team. maps_read.team_in team ≡ team_shown rows.now) }
    ensures stands { OnOk result (list_all is_member_row rows.now ≡ true) }
    ensures unread { IfErr result (IsUnread (list_all is_member_row rows.now)) }
{
    let mut team = BTreeMap::new(alloc);
    for row in rows {
        put_member(&mut team, row)?;
    }
    Ok(team)
}

/// Puts the team of rows in.
pub(crate) fn put_team(alloc: Global, maps: &mut OfficeMaps, rows: &[Row]) -> Result<(), Failure>
    ensures shown { OnOk result ((domain : Text) → ChangesDomain domain maps.old maps.new (λ project. record project { team = team_shown rows.now })) }
    ensures stands { OnOk result (list_all is_member_row rows.now ≡ true) }
    ensures unread { IfErr result (IsUnread (list_all is_member_row rows.now)) }
{
    maps.team = team_in(alloc, rows)?;
    Ok(())
}

/// The policy of a row, and without a row the one that an office opens with.
fn policy_of(alloc: Global, row: &Option<Row>) -> Result<Policy, Failure>
    ensures shown { IfOk result (λ policy. policy ≡ policy_shown row.now) }
    ensures stands { OnOk result (option_map_or is_policy_row row.now true ≡ true) }
    ensures unread { IfErr result (IsUnread (option_map_or is_policy_row row.now true)) }
{
    match row {
        Some(row) => policy_in(row),
        None => {
            let bare = OfficeMaps::opening(alloc, &Name::main_domain())?;
            Ok(bare.policy)
        }
    }
}

/// Puts the policy of a row in.
pub(crate) fn put_policy(
    alloc: Global,
    maps: &mut OfficeMaps,
    row: &Option<Row>,
) -> Result<(), Failure>
    ensures shown { OnOk result ((domain : Text) → ChangesDomain domain maps.old maps.new (λ project. record project { policy = policy_shown row.now })) }
    ensures stands { OnOk result (option_map_or is_policy_row row.now true ≡ true) }
    ensures unread { IfErr result (IsUnread (option_map_or is_policy_row row.now true)) }
{
    maps.policy = policy_of(alloc, row)?;
    Ok(())
}

/// Puts the team and the policy of rows into an office, in the place of those that it has. Nothing else of it changes.
///
/// `Memory` where a growth was refused, and `Disk` where a row stands for no value.
pub fn set_team(
    alloc: Global,
    maps: &mut OfficeMaps,
    team: &[Row],
    policy: &Option<Row>,
) -> Result<(), Failure>
    ensures shown { OnOk result (office_in maps.new ≡ record (office_in maps.old) { team = team_shown team.now; policy = policy_shown policy.now }) }
    ensures stands { OnOk result ((list_all is_member_row team.now && option_map_or is_policy_row policy.now true) ≡ true) }
    ensures unread { IfErr result (IsUnread (list_all is_member_row team.now && option_map_or is_policy_row policy.now true)) }
{
    let members = team_in(alloc, team)?;
    let rules = policy_of(alloc, policy)?;
    maps.team = members;
    maps.policy = rules;
    Ok(())
}

// ---- the template

/// The template's entries of rows.
fn entries_in(alloc: Global, rows: &[Row]) -> Result<Vec<Entry>, Failure>
    ensures shown { IfOk result (λ entries. entries.items ≡ template_shown rows.now) }
    ensures stands { OnOk result (list_all is_entry_row rows.now ≡ true) }
    ensures unread { IfErr result (IsUnread (list_all is_entry_row rows.now)) }
{
    let mut entries = Vec::new(alloc);
    for row in rows {
        entries.push(template_entry(alloc, row)?)?;
    }
    Ok(entries)
}

/// The template of rows.
fn template_in(alloc: Global, rows: &[Row]) -> Result<Catalogue, Failure>
    ensures shown { IfOk result (λ template. template ≡ template_shown rows.now) }
    ensures stands { OnOk result (IsTemplate rows.now) }
    ensures unread { IfErr result (λ failure. failure.lost ≢ Memory → ¬ IsTemplate rows.now) }
{
    let entries = entries_in(alloc, rows)?;
    match Catalogue::try_new(alloc, entries)? {
        Some(template) => Ok(template),
        None => Err(Failure { lost: Lost::Disk }),
    }
}

/// Puts the template of rows into a domain, and no unit.
pub(crate) fn put_template(
    alloc: Global,
    maps: &mut OfficeMaps,
    domain: &Name,
    rows: &[Row],
) -> Result<(), Failure>
    ensures shown { OnOk result (ChangesDomain domain.now maps.old maps.new (λ project. record project { template = template_shown rows.now; units = finite.empty })) }
    ensures stands { OnOk result (IsTemplate rows.now) }
    ensures unread { IfErr result (λ failure. failure.lost ≢ Memory → ¬ IsTemplate rows.now) }
{
    let own = domain.duplicate()?;
    let template = template_in(alloc, rows)?;
    let tallies = Vec::new(alloc);
    let bare = DomainChange::NewTemplate(template, Vec::new(alloc), tallies);
    maps.change(alloc, Change::InDomain(own, bare))?;
    Ok(())
}

// ---- the languages

/// The language of a row.
fn language_in(alloc: Global, row: &Row) -> Result<Language, Failure>
    ensures shown { IfOk result (λ language. language.header ≡ shown_header row.now) }
    ensures stands { OnOk result (is_language row.now ≡ true) }
    ensures unread { IfErr result (IsUnread (is_language row.now)) }
{
    let column = text_in(row, 1)?;
    let header = header_in(alloc, row)?;
    match rule_from(alloc, &header, column.as_str()) {
        Ok(rule) => Ok(Language { header, rule }),
        Err(fault) => {
            drop(header);
            Err(Failure::from(fault))
        }
    }
}

/// Puts the language of a row into a domain, without units.
fn put_language(
    alloc: Global,
    maps: &mut OfficeMaps,
    domain: &Name,
    row: &Row,
) -> Result<(), Failure>
    ensures shown { OnOk result (ChangesDomain domain.now maps.old maps.new
        (λ project. record project { headers = finite.insert project.headers (text_at 2 row.now) (shown_header row.now) })) }
    ensures stands { OnOk result (is_language_row row.now ≡ true) }
    ensures unread { IfErr result (IsUnread (is_language_row row.now)) }
{
    let own = domain.duplicate()?;
    let lang = lang_at(alloc, row, 2)?;
    let language = language_in(alloc, row)?;
    let plan = Plan {
        units: Items::new(alloc),
        stays: Items::new(alloc),
        counts: Counts::Loaded {
            loaded: 0,
            missing: 0,
            obsolete: 0,
        },
    };
    let loaded = DomainChange::NewLanguage(lang, language, plan, Tally::none());
    maps.change(alloc, Change::InDomain(own, loaded))?;
    Ok(())
}

/// Puts the languages of rows into a domain, without units.
pub(crate) fn put_languages(
    alloc: Global,
    maps: &mut OfficeMaps,
    domain: &Name,
    rows: &[Row],
) -> Result<(), Failure>
    ensures shown { OnOk result (ChangesDomain domain.now maps.old maps.new (λ project.
        record project { headers = fold (λ headers row. finite.insert headers (text_at 2 row) (shown_header row)) project.headers rows.now })) }
    ensures stands { OnOk result (list_all is_language_row rows.now ≡ true) }
    ensures unread { IfErr result (IsUnread (list_all is_language_row rows.now)) }
{
    for row in rows {
        put_language(alloc, maps, domain, row)?;
    }
    Ok(())
}
