//! Whether an office keeps the rules of one with its book.

ghost use Rattle.std.specs.Prelude.{◌≡◌, ◌↔◌, ◌++◌, List, true, IfOk, OnOk};
ghost use Rattle.std.specs.List.{IsDistinct};
ghost use Rattle.po_text.specs.Texts.{Text, text_eq};
ghost use Rattle.request_book.specs.Book.{Book, with_record};
ghost use Rattle.office_specification.specs.OfficeRules.{KeepsRules, numbers_in, all_numbers};
ghost use Rattle.office_maps.specs.OfficeIn.{domain_in, office_in};
ghost use Rattle.rule_tests.specs.Given.{AreAllLangs, AreStatusesOf};
ghost use Rattle.rule_tests.specs.Books.{is_status, HasStatuses, AreRecorded, HasRecords, HaveRecords, numbers_of, AreSeen};

use crate::domain_rules::is_office;
use crate::unit_rules::hold_all;
use office_maps::{DomainMaps, OfficeMaps};
use request_book::Record;
use std::alloc::{AllocError, Global};
use std::collections::{BTreeMap, BTreeSet};
use units::{Lang, Suggestion, Unit};
use uuid::Uuid;

/// Notes the status of a record's reply under its number.
///
/// `AllocError` where a growth was refused.
pub fn note_status(statuses: &mut BTreeMap<Uuid, u16>, known: &Record) -> Result<(), AllocError>
    ensures { (book : Book) → AreStatusesOf book statuses.old → OnOk result (AreStatusesOf (with_record book known.now) statuses.new) }
{
    let before = statuses.insert(known.number, known.reply.status())?;
    let _ = before;
    Ok(())
}

/// Whether a reply may have this status.
pub fn is_status(status: u16) -> bool
    ensures { result ≡ is_status status }
{
    status == 200 || status == 403 || status == 404 || status == 409 || status == 422
}

/// Whether replies may have all these statuses.
fn are_statuses(statuses: &BTreeMap<Uuid, u16>) -> bool
    ensures { (book : Book) → AreStatusesOf book statuses.now → (result ≡ true) ↔ HasStatuses book }
{
    statuses.values().all(|status| is_status(*status))
}

/// Whether the number of each suggestion on a unit is recorded.
fn is_recorded(statuses: &BTreeMap<Uuid, u16>, unit: &Unit) -> bool
    ensures { (result ≡ true) ↔ AreRecorded statuses.now unit.now }
{
    for suggestion in unit.suggestions.as_slice() {
        if !statuses.contains_key(&suggestion.number) {
            return false;
        }
    }
    true
}

/// Whether the number of each suggestion of a domain is recorded.
fn are_recorded(statuses: &BTreeMap<Uuid, u16>, domain: &DomainMaps) -> bool
    ensures { (result ≡ true) ↔ HasRecords statuses.now (domain_in domain.now) }
{
    for (_place, unit) in domain.units.iter() {
        if !is_recorded(statuses, unit) {
            return false;
        }
    }
    true
}

/// Whether the number of each suggestion of an office is recorded.
fn have_records(statuses: &BTreeMap<Uuid, u16>, maps: &OfficeMaps) -> bool
    ensures { (result ≡ true) ↔ HaveRecords statuses.now (office_in maps.now) }
{
    for (_name, domain) in maps.domains.iter() {
        if !are_recorded(statuses, domain) {
            return false;
        }
    }
    true
}

/// Adds the numbers of suggestions to those that were seen, and tells whether none of them was.
fn add_numbers(seen: &mut BTreeSet<Uuid>, unit: &Unit) -> Result<bool, AllocError>
    ensures new { (before : List Text) → AreSeen before seen.old → IsDistinct text_eq before
        → IfOk result (λ new. (new ≡ true) ↔ IsDistinct text_eq (before ++ numbers_of unit.now)) }
    ensures seen { (before : List Text) → AreSeen before seen.old → IfOk result (λ new. new ≡ true → AreSeen (before ++ numbers_of unit.now) seen.new) }
{
    for suggestion in unit.suggestions.as_slice() {
        if !seen.insert(suggestion.number)? {
            return Ok(false);
        }
    }
    Ok(true)
}

/// Adds the numbers of a domain's suggestions to those that were seen, and tells whether none of them was.
fn add_domain_numbers(seen: &mut BTreeSet<Uuid>, domain: &DomainMaps) -> Result<bool, AllocError>
    ensures new { (before : List Text) → AreSeen before seen.old → IsDistinct text_eq before
        → IfOk result (λ new. (new ≡ true) ↔ IsDistinct text_eq (before ++ numbers_in (domain_in domain.now))) }
    ensures seen { (before : List Text) → AreSeen before seen.old
        → IfOk result (λ new. new ≡ true → AreSeen (before ++ numbers_in (domain_in domain.now)) seen.new) }
{
    for (_place, unit) in domain.units.iter() {
        if !add_numbers(seen, unit)? {
            return Ok(false);
        }
    }
    Ok(true)
}

/// Whether no two suggestions of an office share a number.
fn have_own_numbers(alloc: Global, maps: &OfficeMaps) -> Result<bool, AllocError>
    ensures { IfOk result (λ own. (own ≡ true) ↔ IsDistinct text_eq (all_numbers (office_in maps.now))) }
{
    let mut seen = BTreeSet::new(alloc);
    for (_name, domain) in maps.domains.iter() {
        if !add_domain_numbers(&mut seen, domain)? {
            return Ok(false);
        }
    }
    Ok(true)
}

/// Whether an office keeps the rules of one with its book, of whose records these are the statuses by their numbers.
/// All languages of all its domains have to be among `langs`.
///
/// `AllocError` where a growth was refused.
pub fn keeps_rules(
    alloc: Global,
    maps: &OfficeMaps,
    langs: &[Lang],
    statuses: &BTreeMap<Uuid, u16>,
) -> Result<bool, AllocError>
    requires all { AreAllLangs (office_in maps.now) langs.now }
    ensures { (book : Book) → AreStatusesOf book statuses.now
        → IfOk result (λ holds. (holds ≡ true) ↔ KeepsRules (record { office = office_in maps.now; book = book })) }
{
    if !is_office(alloc, maps, langs)? {
        return Ok(false);
    }
    let recorded = have_records(statuses, maps);
    let own = have_own_numbers(alloc, maps)?;
    Ok(hold_all(recorded, own, are_statuses(statuses)))
}
