//! An office in ordered maps, with the records of its requests. Contracts see them as the office with its book that they stand
//! for.

ghost use Rattle.std.specs.Prelude.{◌≡◌, Some, IfOk, OnOk, OnErr, IfErr, IsTrue, is_none, option_map};
ghost use Rattle.std.specs.FinMap as maps;
ghost use Rattle.std.specs.BTreeMap.{insert_entry};
ghost use Rattle.po_text.specs.Texts.{text_cmp};
ghost use Rattle.request_book.specs.Book.{row_of, with_record};
ghost use Rattle.units.specs.Project.{with_unit};
ghost use Rattle.units.specs.Office.{project_in, with_project};
ghost use Rattle.office_maps.specs.OfficeIn.{office_in};
ghost use Rattle.tables.specs.declared.faults.Lost.TheVariants.{Memory};

use crate::domain_reads::{bare_context_in, context_in, suggestion_in, suggestions_in, written_in};
use crate::faults::Lost;
use office_maps::{OfficeMaps, Place};
use office_specification::{ActContext, Change, UnitWrite};
use po_text::{Duplicate, Items, Text};
use request_book::{Record, Reply};
use std::alloc::{AllocError, Global};
use std::collections::BTreeMap;
use units::{Key, Lang, Name, Suggestion, Unit};
use uuid::Uuid;

/// What is kept under a request's number: the text of its content and its first reply.
#[derive(Drop)]
pub(crate) struct Kept {
    content: Text,
    reply: Reply,
}

impl Kept {
    ghost use Rattle.tables.specs.MapsMeaning.{recorded_of};

    /// What is kept of a row.
    pub(crate) fn of(row: Record) -> Kept
        ensures { recorded_of result ≡ record { content = row.content; reply = row.reply } }
    {
        Kept {
            content: row.content,
            reply: row.reply,
        }
    }

    /// A copy of what is kept, as the row of its number.
    fn row(&self, number: &Uuid) -> Result<Record, AllocError>
        ensures { IfOk result (λ row. row ≡ row_of number.now (recorded_of self.now)) }
    {
        Ok(Record {
            number: *number,
            content: self.content.duplicate()?,
            reply: self.reply.duplicate()?,
        })
    }
}

/// Keeps this under a number.
fn keep(records: &mut BTreeMap<Uuid, Kept>, number: Uuid, kept: Kept) -> Result<(), Lost>
    ensures ok { OnOk result (records.new.entries ≡ insert_entry text_cmp records.old.entries number kept) }
    ensures err { OnErr result (records.new.entries ≡ records.old.entries) }
    ensures memory { IfErr result (λ e. e ≡ Memory) }
{
    let before = records.insert(number, kept)?;
    drop(before);
    Ok(())
}

/// The office, and what is kept under each number.
#[derive(Drop)]
pub(crate) struct Maps {
    pub(crate) office: OfficeMaps,
    pub(crate) records: BTreeMap<Uuid, Kept>,
}

impl Maps {
    ghost use Rattle.tables.specs.MapsMeaning.{meaning, place_of};
    ghost use Rattle.office_specification.specs.UnitAccess.{context_of, without_suggestions, suggestions_at, suggestion_at, with_write_in};
    ghost use Rattle.office_specification.specs.OfficeChanges.{changed, changed_by, IsPossible, IsPossibleChange};

    /// An office of which nothing is recorded.
    pub(crate) fn new(alloc: Global, office: OfficeMaps) -> Maps
        ensures { meaning result ≡ record { office = office_in office; book = maps.empty } }
    {
        Maps {
            office,
            records: BTreeMap::new(alloc),
        }
    }

    /// What is recorded under a number.
    pub(crate) fn record_of(&self, number: &Uuid) -> Result<Option<Record>, Lost>
        ensures answer { IfOk result (λ r. r ≡ option_map (row_of number.now) (maps.get (meaning self.now).book number.now)) }
        ensures memory { IfErr result (λ e. e ≡ Memory) }
    {
        match self.records.get(number) {
            Some(kept) => Ok(Some(kept.row(number)?)),
            None => Ok(None),
        }
    }

    /// What a unit act needs to know; nothing where the domain or its language isn't there.
    pub(crate) fn context_of(
        &self,
        domain: &Name,
        lang: &Lang,
        key: &Key,
        name: &Name,
    ) -> Result<Option<ActContext>, Lost>
        ensures answer { IfOk result (λ r. r ≡ context_of (project_in (meaning self.now).office domain.now) lang.now key.now name.now) }
        ensures memory { IfErr result (λ e. e ≡ Memory) }
    {
        Ok(context_in(&self.office, domain, lang, key, name)?)
    }

    /// The same but for the unit's suggestions: the view has none.
    pub(crate) fn unit_of(
        &self,
        alloc: Global,
        domain: &Name,
        lang: &Lang,
        key: &Key,
        name: &Name,
    ) -> Result<Option<ActContext>, Lost>
        ensures answer { IfOk result (λ r. r ≡ without_suggestions (context_of (project_in (meaning self.now).office domain.now) lang.now key.now name.now)) }
        ensures memory { IfErr result (λ e. e ≡ Memory) }
    {
        Ok(bare_context_in(alloc, &self.office, domain, lang, key, name)?)
    }

    /// The suggestions on a unit, without the votes on them; none where the unit isn't there.
    pub(crate) fn suggestions_of(
        &self,
        alloc: Global,
        domain: &Name,
        lang: &Lang,
        key: &Key,
    ) -> Result<Items<Suggestion>, Lost>
        ensures answer { IfOk result (λ r. r ≡ suggestions_at (project_in (meaning self.now).office domain.now) lang.now key.now) }
        ensures memory { IfErr result (λ e. e ≡ Memory) }
    {
        Ok(suggestions_in(alloc, &self.office, domain, lang, key)?)
    }

    /// The suggestion of a number on a unit, with the votes on it; nothing where the unit or the suggestion isn't there.
    pub(crate) fn suggestion_of(
        &self,
        domain: &Name,
        lang: &Lang,
        key: &Key,
        number: &Uuid,
    ) -> Result<Option<Suggestion>, Lost>
        ensures answer { IfOk result (λ r. r ≡ suggestion_at (project_in (meaning self.now).office domain.now) lang.now key.now number.now) }
        ensures memory { IfErr result (λ e. e ≡ Memory) }
    {
        Ok(suggestion_in(&self.office, domain, lang, key, number)?)
    }

    /// Writes what an act writes of a unit, if it writes anything and the unit is there, and the request's record; or neither.
    pub(crate) fn commit_unit(
        &mut self,
        alloc: Global,
        row: Record,
        domain: &Name,
        lang: &Lang,
        key: &Key,
        write: Option<UnitWrite>,
    ) -> Result<(), Lost>
        requires new { IsTrue (is_none (maps.get (meaning self.old).book row.number)) }
        ensures ok { OnOk result (meaning self.new
            ≡ record { office = with_write_in (meaning self.old).office domain.now lang.now key.now write; book = with_record (meaning self.old).book row }) }
        ensures err { OnErr result (meaning self.new ≡ meaning self.old) }
        ensures memory { IfErr result (λ e. e ≡ Memory) }
    {
        match write {
            Some(write) => self.commit_write(alloc, row, domain, lang, key, write),
            None => self.commit_record(row),
        }
    }

    /// Writes this of a unit, if it is there, and a record; or neither. What can fail comes first.
    fn commit_write(
        &mut self,
        alloc: Global,
        row: Record,
        domain: &Name,
        lang: &Lang,
        key: &Key,
        write: UnitWrite,
    ) -> Result<(), Lost>
        requires new { IsTrue (is_none (maps.get (meaning self.old).book row.number)) }
        ensures ok { OnOk result (meaning self.new
            ≡ record { office = with_write_in (meaning self.old).office domain.now lang.now key.now (Some write); book = with_record (meaning self.old).book row }) }
        ensures err { OnErr result (meaning self.new ≡ meaning self.old) }
        ensures memory { IfErr result (λ e. e ≡ Memory) }
    {
        let place = Place::of(lang, key)?;
        match written_in(alloc, &self.office, domain, lang, key, write)? {
            Some(unit) => self.commit_both(row, domain, place, unit),
            None => self.commit_record(row),
        }
    }

    /// Writes a record.
    fn commit_record(&mut self, row: Record) -> Result<(), Lost>
        ensures ok { OnOk result (meaning self.new
            ≡ record { office = (meaning self.old).office; book = with_record (meaning self.old).book row }) }
        ensures err { OnErr result (meaning self.new ≡ meaning self.old) }
        ensures memory { IfErr result (λ e. e ≡ Memory) }
    {
        keep(&mut self.records, row.number, Kept::of(row))
    }

    /// Writes a unit, if its domain is there, and a record; or neither.
    fn commit_both(
        &mut self,
        row: Record,
        domain: &Name,
        place: Place,
        unit: Unit,
    ) -> Result<(), Lost>
        requires new { IsTrue (is_none (maps.get (meaning self.old).book row.number)) }
        ensures ok { OnOk result (meaning self.new
            ≡ record { office = with_project (meaning self.old).office domain.now (with_unit (project_in (meaning self.old).office domain.now) (place_of place) unit); book = with_record (meaning self.old).book row }) }
        ensures err { OnErr result (meaning self.new ≡ meaning self.old) }
        ensures memory { IfErr result (λ e. e ≡ Memory) }
    {
        let number = row.number;
        if let Err(lost) = keep(&mut self.records, number, Kept::of(row)) {
            drop(place);
            drop(unit);
            return Err(lost);
        }
        match self.office.put_unit(domain, place, unit) {
            Ok(()) => Ok(()),
            Err(_) => {
                drop(self.records.remove(&number));
                Err(Lost::Memory)
            }
        }
    }

    /// Writes what an office act changes, if it changes anything, and the request's record; or neither.
    pub(crate) fn commit_office(
        &mut self,
        alloc: Global,
        row: Record,
        change: Option<Change>,
    ) -> Result<(), Lost>
        requires new { IsTrue (is_none (maps.get (meaning self.old).book row.number)) }
        requires possible { IsPossibleChange (meaning self.old).office change }
        ensures ok { OnOk result (meaning self.new
            ≡ record { office = changed_by (meaning self.old).office change; book = with_record (meaning self.old).book row }) }
        ensures err { OnErr result (meaning self.new ≡ meaning self.old) }
        ensures memory { IfErr result (λ e. e ≡ Memory) }
    {
        match change {
            None => self.commit_record(row),
            Some(change) => self.commit_change(alloc, row, change),
        }
    }

    /// Writes what an office act changes and the request's record, or neither.
    fn commit_change(&mut self, alloc: Global, row: Record, change: Change) -> Result<(), Lost>
        requires new { IsTrue (is_none (maps.get (meaning self.old).book row.number)) }
        requires possible { IsPossible (meaning self.old).office change }
        ensures ok { OnOk result (meaning self.new
            ≡ record { office = changed (meaning self.old).office change; book = with_record (meaning self.old).book row }) }
        ensures err { OnErr result (meaning self.new ≡ meaning self.old) }
        ensures memory { IfErr result (λ e. e ≡ Memory) }
    {
        let number = row.number;
        if let Err(lost) = keep(&mut self.records, number, Kept::of(row)) {
            drop(change);
            return Err(lost);
        }
        match self.office.change(alloc, change) {
            Ok(()) => Ok(()),
            Err(_) => {
                drop(self.records.remove(&number));
                Err(Lost::Memory)
            }
        }
    }
}
