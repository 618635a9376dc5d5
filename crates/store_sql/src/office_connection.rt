//! A connection to an office's tables and what was read of it: what `SqliteTables` does, by the clauses of the trait.
//!
//! `SqliteTables` adds the two facts that the trait's laws hand to callers, as ghost fields, and takes nothing apart: the connection, the flag and
//! the maps change here alone, each change keeps the invariant of `OfficeConnection`, and that the two facts follow from it is shown once, in `rules`.
ghost use Rattle.std.specs.Prelude.{◌≡◌, ◌≢◌, Bool, false, true, Ok, Err, IfOk, IfErr, OnOk, OnErr, option_map};
ghost use Rattle.std.specs.Coded.{coded×, coded_bool, coded_option};
ghost use Rattle.std.specs.FinMap as maps;
ghost use Rattle.sqlite.specs.Held.{Held, held_code, state};
ghost use Rattle.request_book.specs.Book.{row_of, with_record};
ghost use Rattle.office_specification.specs.UnitAccess.{context_of, without_suggestions, suggestions_at, suggestion_at, IsPossibleWrite, with_write_in};
ghost use Rattle.office_specification.specs.OfficeChanges.{changed_by, IsPossibleChange};
ghost use Rattle.office_specification.specs.OfficeRules.{KeepsRules};
ghost use Rattle.request_book.specs.Contents.{IsContent};
ghost use Rattle.tables.specs.KeptByCalls.{IsKept};
ghost use Rattle.tables.specs.Stops.{Nothing};
ghost use Rattle.tables.specs.Sinks.{WasCutShort};
ghost use Rattle.tables.specs.Entries.{entries_of};
ghost use Rattle.office_specification.specs.Approvals.{approvals_in};
ghost use Rattle.office_specification.specs.Tally.{counts_of};
ghost use Rattle.tables.specs.declared.faults.EachFault.TheVariants.{NoTables};
ghost use Rattle.units.specs.Project.{role_in};
ghost use Rattle.units.specs.Office.{project_in};
ghost use Rattle.office_maps.specs.OfficeIn.{office_in};
ghost use Rattle.office_specification.specs.Parts.{AreAlikeIn};
ghost use Rattle.office_specification.specs.declared.parts.Part.{Part as PartValue};
ghost use Rattle.office_specification.specs.contracts.parts.Part as part_contracts;
ghost use Rattle.tables.specs.declared.faults.Lost.TheVariants.{Disk};
ghost use Rattle.sqlite.specs.State.{HasCleanDisk};
ghost use Rattle.sql_schema.specs.Schema.{no_schema};
ghost use Rattle.sql_adoption.specs.Adoption.{Refuses};
ghost use Rattle.sql_adoption.specs.declared.faults.OpenFault.TheVariants as faults;
ghost use Rattle.sql_conversion.specs.Conversion.{IsGivenBack};
ghost use Rattle.sql_files.specs.Files.{IsOfficeFile, IsLost, KeepsFile, LeavesFiles};
ghost use Rattle.sqlite.specs.Effect.{IsDatabase};
ghost use Rattle.store_sql.specs.Adopting.{AreAdopted};
ghost use Rattle.store_sql.specs.Faults.{RefusesIn};
ghost use Rattle.store_sql.specs.TablesInFile.{KeepsOffice, KeepsOwnRules, LeavesItsOwn, LeavesOwnTrees, LeavesReadable, IsAtHand, IsPartAtHand, Flags, held_part, is_honest, is_whole, means, may_leave, faults, is_stopped, is_loaded};
ghost use Rattle.store_sql.specs.Making.{AreMade, IsHandedBack};
ghost use Rattle.store_sql.specs.RecordsBehind.{WereHanded};
ghost use Rattle.store_sql.specs.declared.recorded.HandingFault.TheVariants.{NoTables as Unreadable};
ghost use Rattle.sql_laws.specs.DiskErrors.{HasFailed};

use crate::act_contexts::{read_context, read_role, read_suggestion, read_suggestions, read_unit};
use crate::approvals::read_approvals;
use crate::entries::hand_entries;
use crate::keepable_values::{change_fits, record_fits, write_fits};
use crate::loaded_part::{LoadedPart, forget, keep, read_part};
use crate::making::make;
use crate::office_part::{Kept, nothing_kept};
use crate::recorded::{HandingFault, hand_records};
use crate::records::read_record;
use crate::tallies::read_tally;
use office_maps::OfficeMaps;
use office_specification::{ActContext, Approvals, Change, Part, Tally, UnitWrite};
use po_text::Items;
use request_book::Record;
use sql_adoption::OpenFault;
use sql_commits::{commit_act, commit_change};
use sql_conversion::take_over;
use sql_decoding::Failure;
use sql_keepable::key_fits;
use sql_streams::RowSink;
use sqlite::{Alter, Connection};
use std::alloc::Global;
use std::marker::Model;
use tables::{EachFault, EntrySink, Lost, Start};
use units::{Key, Lang, Name, Role, Suggestion};
use uuid::Uuid;

/// A connection to an office's tables by domains, between transactions, and what was read of them.
pub(crate) struct OfficeConnection<S: Alter> {
    connection: Connection<S>,
    /// A failure of the disk came: nothing is asked of the connection any more.
    stopped: bool,
    alloc: Global,
    /// What the last looks at units kept.
    kept: Kept,
    /// The part of the office that was read last, where nothing was written since.
    office: Option<LoadedPart>,
}

impl<S: Alter> Model for OfficeConnection<S> {
    ghost Value = { Held S × Flags };

    ghost coded = { coded× (held_code S.code) (coded× coded_bool (coded_option (part_contracts.the_row).coded)) };

    ghost view = { λ t. (t.connection, (t.stopped, held_part t.office)) };

    ghost invariant = { λ t. (t.connection.in_transaction ≡ false) × KeepsOffice (state S.Store t.connection) × IsAtHand (state S.Store t.connection) t.office × IsPartAtHand (state S.Store t.connection) t.kept.part };
}

// It is written out, so that a caller does not prove again how each part is dropped.
impl<S: Alter + Drop> Drop for OfficeConnection<S> {
    fn drop(self) {
        let OfficeConnection {
            connection,
            stopped: _,
            alloc: _,
            kept,
            office,
        } = self;
        drop(kept);
        drop(office);
        drop(connection);
    }
}

impl<S: Alter> OfficeConnection<S> {
    /// Makes the tables in a database that has none, and the rows of a start, in one transaction: the office of the start, of
    /// which nothing is recorded.
    ///
    /// On a fault the connection is handed back with its rows as before: `Exists` where an office is there already, `Foreign` where
    /// other tables are, `Memory` where a growth was refused, `Refused` where a statement was, `Disk` only where the disk failed.
    pub(crate) fn create(
        connection: Connection<S>,
        alloc: Global,
        start: &Start,
    ) -> Result<OfficeConnection<S>, (OpenFault, Connection<S>)>
        requires autocommit { connection.in_transaction ≡ false }
        ensures made { IfOk result (AreMade S.Store start.now) }
        ensures allowed { OnOk result ((state S.Store connection).now.schema ≡ no_schema) }
        ensures refused { IfErr result (λ refusal. RefusesIn (state S.Store connection).now.schema refusal.0) }
        ensures untouched { IfErr result (λ refusal. (state S.Store connection).now.schema ≢ no_schema → refusal.1 ≡ connection) }
        ensures handed_back { IfErr result (λ refusal. IsHandedBack start.now (state S.Store connection) (state S.Store refusal.1)) }
        ensures disk { IfErr result (λ refusal. HasCleanDisk (state S.Store refusal.1) → refusal.0 ≡ faults.Disk → HasFailed (state S.Store connection) (state S.Store refusal.1)) }
    {
        let mut connection = connection;
        match make(&mut connection, alloc, start) {
            Ok(()) => Ok(OfficeConnection {
                connection,
                stopped: false,
                alloc,
                kept: nothing_kept(),
                office: None,
            }),
            Err(fault) => Err((fault, connection)),
        }
    }

    /// Takes the tables of a connection over, if their rows keep the rules: tables by domains as they stand, and those of the first form
    /// when they are converted.
    pub(crate) fn adopt(
        connection: Connection<S>,
        alloc: Global,
    ) -> Result<OfficeConnection<S>, (OpenFault, Connection<S>)>
        requires autocommit { connection.in_transaction ≡ false }
        ensures adopted { IfOk result (AreAdopted S.Store connection) }
        ensures refused { IfErr result (λ refusal. HasCleanDisk (state S.Store refusal.1) → Refuses (state S.Store connection).now refusal.0) }
        ensures again { IfErr result (λ refusal. HasCleanDisk (state S.Store refusal.1) → IsDatabase (state S.Store connection).now → IsOfficeFile (state S.Store connection).now.trees → IsLost refusal.0) }
        ensures handed_back { IfErr result (λ refusal. IsGivenBack (state S.Store connection) (state S.Store refusal.1)) }
        ensures disk { IfErr result (λ refusal. HasCleanDisk (state S.Store refusal.1) → refusal.0 ≡ faults.Disk → HasFailed (state S.Store connection) (state S.Store refusal.1)) }
    {
        let mut connection = connection;
        match take_over(&mut connection, alloc) {
            Ok(()) => Ok(OfficeConnection {
                connection,
                stopped: false,
                alloc,
                kept: nothing_kept(),
                office: None,
            }),
            Err(fault) => Err((fault, connection)),
        }
    }

    /// The connection, between transactions.
    pub(crate) fn into_connection(self) -> Connection<S>
        ensures held { result ≡ self.0 }
        ensures between { result.in_transaction ≡ false }
        ensures file { KeepsFile (state S.Store result) }
        ensures leaves { LeavesFiles (state S.Store result) }
        ensures settled { LeavesOwnTrees (state S.Store result) }
    {
        let OfficeConnection {
            connection,
            stopped: _,
            alloc: _,
            kept,
            office,
        } = self;
        drop(kept);
        drop(office);
        connection
    }

    /// The rules of an office with its book hold, and a stop leaves what the tables mean, and always what can be read. (A law: what it
    /// reads says so, and is compiled away.)
    pub(crate) fn rules(&self)
        ensures rules { KeepsOwnRules S.Store self.now }
        ensures settled { LeavesItsOwn S.Store self.now }
        ensures readable { LeavesReadable S.Store self.now }
    {
        let _read = self.stopped;
    }

    /// The rows of a connection that isn't shut are an office's file, and so is what a stop leaves. (A law as the one above.)
    pub(crate) fn keeps_file(&self)
        ensures file { KeepsFile (state S.Store self.now.0) }
        ensures leaves { LeavesFiles (state S.Store self.now.0) }
    {
        let _read = self.stopped;
    }

    /// Whether they answer `Disk` until they are opened again.
    pub(crate) fn stopped(&self) -> bool
        ensures { result ≡ is_stopped S.Store self.now }
    {
        self.stopped
    }

    /// What is recorded under a request's number: its content and its first reply.
    pub(crate) fn record_of(&mut self, number: &Uuid) -> Result<Option<Record>, Lost>
        ensures answer { is_honest S.Store self.new → IfOk result (λ r. r ≡ option_map (row_of number.now) (maps.get (means S.Store self.old).book number.now)) }
        ensures same { is_honest S.Store self.new → is_whole S.Store self.new → means S.Store self.new ≡ means S.Store self.old }
        ensures kept { IsKept (is_honest S.Store) (is_whole S.Store) (means S.Store) (may_leave S.Store) (faults S.Store) (is_stopped S.Store) self.old self.new result Disk Nothing }
    {
        if self.stopped {
            return Err(Lost::Disk);
        }
        match read_record(&mut self.connection, self.alloc, *number) {
            Ok(record) => Ok(record),
            Err(failure) => {
                forget(self.alloc, &mut self.office);
                Err(self.lost(failure))
            }
        }
    }

    /// A caller's role: who isn't in the team is a guest.
    pub(crate) fn role_of(&mut self, name: &Name) -> Result<Role, Lost>
        ensures answer { is_honest S.Store self.new → IfOk result (λ role. role ≡ role_in (means S.Store self.old).office.team name.now) }
        ensures same { is_honest S.Store self.new → is_whole S.Store self.new → means S.Store self.new ≡ means S.Store self.old }
        ensures kept { IsKept (is_honest S.Store) (is_whole S.Store) (means S.Store) (may_leave S.Store) (faults S.Store) (is_stopped S.Store) self.old self.new result Disk Nothing }
    {
        if self.stopped {
            return Err(Lost::Disk);
        }
        match read_role(&mut self.connection, name) {
            Ok(role) => Ok(role),
            Err(failure) => {
                forget(self.alloc, &mut self.office);
                Err(self.lost(failure))
            }
        }
    }

    /// What an act on a unit needs to know: the language's plural rule, the policy, the caller's role, and the unit's view, if there
    /// is one. Nothing where the domain or its language isn't there.
    pub(crate) fn context_of(
        &mut self,
        domain: &Name,
        lang: &Lang,
        key: &Key,
        name: &Name,
    ) -> Result<Option<ActContext>, Lost>
        ensures answer { is_honest S.Store self.new → IfOk result (λ r. r ≡ context_of (project_in (means S.Store self.old).office domain.now) lang.now key.now name.now) }
        ensures same { is_honest S.Store self.new → is_whole S.Store self.new → means S.Store self.new ≡ means S.Store self.old }
        ensures kept { IsKept (is_honest S.Store) (is_whole S.Store) (means S.Store) (may_leave S.Store) (faults S.Store) (is_stopped S.Store) self.old self.new result Disk Nothing }
    {
        if self.stopped {
            return Err(Lost::Disk);
        }
        match read_context(
            &mut self.connection,
            self.alloc,
            domain,
            lang,
            key,
            name,
            &mut self.kept,
        ) {
            Ok(found) => Ok(found),
            Err(failure) => {
                forget(self.alloc, &mut self.office);
                Err(self.lost(failure))
            }
        }
    }

    /// The same but for the unit's suggestions, which aren't read: the view has none.
    pub(crate) fn unit_of(
        &mut self,
        domain: &Name,
        lang: &Lang,
        key: &Key,
        name: &Name,
    ) -> Result<Option<ActContext>, Lost>
        ensures answer { is_honest S.Store self.new → IfOk result (λ r. r ≡ without_suggestions (context_of (project_in (means S.Store self.old).office domain.now) lang.now key.now name.now)) }
        ensures same { is_honest S.Store self.new → is_whole S.Store self.new → means S.Store self.new ≡ means S.Store self.old }
        ensures kept { IsKept (is_honest S.Store) (is_whole S.Store) (means S.Store) (may_leave S.Store) (faults S.Store) (is_stopped S.Store) self.old self.new result Disk Nothing }
    {
        if self.stopped {
            return Err(Lost::Disk);
        }
        match read_unit(
            &mut self.connection,
            self.alloc,
            domain,
            lang,
            key,
            name,
            &mut self.kept,
        ) {
            Ok(found) => Ok(found),
            Err(failure) => {
                forget(self.alloc, &mut self.office);
                Err(self.lost(failure))
            }
        }
    }

    /// The suggestions on a unit, in their order, without the votes on them, which aren't read. None where the unit isn't there.
    pub(crate) fn suggestions_of(
        &mut self,
        domain: &Name,
        lang: &Lang,
        key: &Key,
    ) -> Result<Items<Suggestion>, Lost>
        ensures answer { is_honest S.Store self.new → IfOk result (λ r. r ≡ suggestions_at (project_in (means S.Store self.old).office domain.now) lang.now key.now) }
        ensures same { is_honest S.Store self.new → is_whole S.Store self.new → means S.Store self.new ≡ means S.Store self.old }
        ensures kept { IsKept (is_honest S.Store) (is_whole S.Store) (means S.Store) (may_leave S.Store) (faults S.Store) (is_stopped S.Store) self.old self.new result Disk Nothing }
    {
        if self.stopped {
            return Err(Lost::Disk);
        }
        match read_suggestions(&mut self.connection, self.alloc, domain, lang, key) {
            Ok(found) => Ok(found),
            Err(failure) => {
                forget(self.alloc, &mut self.office);
                Err(self.lost(failure))
            }
        }
    }

    /// The suggestion of a number on a unit, with the votes on it; nothing where the unit or the suggestion isn't there.
    pub(crate) fn suggestion_of(
        &mut self,
        domain: &Name,
        lang: &Lang,
        key: &Key,
        number: &Uuid,
    ) -> Result<Option<Suggestion>, Lost>
        ensures answer { is_honest S.Store self.new → IfOk result (λ r. r ≡ suggestion_at (project_in (means S.Store self.old).office domain.now) lang.now key.now number.now) }
        ensures same { is_honest S.Store self.new → is_whole S.Store self.new → means S.Store self.new ≡ means S.Store self.old }
        ensures kept { IsKept (is_honest S.Store) (is_whole S.Store) (means S.Store) (may_leave S.Store) (faults S.Store) (is_stopped S.Store) self.old self.new result Disk Nothing }
    {
        if self.stopped {
            return Err(Lost::Disk);
        }
        match read_suggestion(&mut self.connection, self.alloc, domain, lang, key, *number) {
            Ok(found) => Ok(found),
            Err(failure) => {
                forget(self.alloc, &mut self.office);
                Err(self.lost(failure))
            }
        }
    }

    /// Reads a part of the office: what an act on the office needs. `at_hand` then shows it.
    pub(crate) fn load_part(&mut self, part: Part) -> Result<(), Lost>
        ensures loaded { OnOk result (is_loaded S.Store self.new part) }
        ensures same { is_honest S.Store self.new → is_whole S.Store self.new → means S.Store self.new ≡ means S.Store self.old }
        ensures kept { IsKept (is_honest S.Store) (is_whole S.Store) (means S.Store) (may_leave S.Store) (faults S.Store) (is_stopped S.Store) self.old self.new result Disk Nothing }
    {
        if self.stopped {
            return Err(Lost::Disk);
        }
        forget(self.alloc, &mut self.office);
        match read_part(&mut self.connection, self.alloc, &part) {
            Ok(maps) => {
                keep(&mut self.office, part, maps);
                Ok(())
            }
            Err(failure) => Err(self.lost(failure)),
        }
    }

    /// What was read of the office, in maps; it isn't copied.
    pub(crate) fn at_hand(&self) -> &OfficeMaps
        requires loaded { (part : PartValue) × is_loaded S.Store self.now part }
        ensures whole { is_honest S.Store self.now → is_whole S.Store self.now }
        ensures alike { is_honest S.Store self.now → (part : PartValue) → is_loaded S.Store self.now part → AreAlikeIn part (office_in result.now) (means S.Store self.now).office }
    {
        match &self.office {
            Some(loaded) => &loaded.maps,
            None => unreachable!(),
        }
    }

    /// Hands the entries of a domain's language to a sink: its header, the template's entries in order, each with its unit, and the obsolete
    /// units that have a translation, in the order of their keys. None where the language isn't there. After a fault the sink has
    /// taken a beginning of them. They are read row by row; the office need not be at hand, and isn't read.
    pub(crate) fn each_entry<K: EntrySink>(
        &mut self,
        domain: &Name,
        lang: &Lang,
        sink: &mut K,
    ) -> Result<(), EachFault<K::Refusal>>
        ensures all { is_honest S.Store self.new → OnOk result (K.Took sink.old (entries_of (project_in (means S.Store self.old).office domain.now) lang.now) sink.new) }
        ensures cut { is_honest S.Store self.new → IfErr result (WasCutShort K.Took K.Refuses sink.old sink.new (entries_of (project_in (means S.Store self.old).office domain.now) lang.now)) }
        ensures same { is_honest S.Store self.new → is_whole S.Store self.new → means S.Store self.new ≡ means S.Store self.old }
        ensures kept { IsKept (is_honest S.Store) (is_whole S.Store) (means S.Store) (may_leave S.Store) (faults S.Store) (is_stopped S.Store) self.old self.new result (NoTables Disk) Nothing }
    {
        if self.stopped {
            return Err(EachFault::NoTables(Lost::Disk));
        }
        match hand_entries(&mut self.connection, self.alloc, domain, lang, sink) {
            Ok(()) => Ok(()),
            Err(fault) => {
                forget(self.alloc, &mut self.office);
                Err(self.cut_off(fault))
            }
        }
    }

    /// Hands the records behind the record of a number to a sink, in the order in which the office took them; where no number is named, all of
    /// them. After a fault the sink has taken the first of them.
    pub(crate) fn each_record<K: RowSink>(
        &mut self,
        after: Option<Uuid>,
        sink: &mut K,
    ) -> Result<(), HandingFault<K::Refusal>>
        ensures handed { is_honest S.Store self.new → WereHanded K.Took K.Refuses after (state S.Store self.old.0).now sink.old sink.new result }
        ensures disk { IfErr result (λ fault. fault ≡ Unreadable Disk → is_stopped S.Store self.new ≡ true) }
        ensures kept { IsKept (is_honest S.Store) (is_whole S.Store) (means S.Store) (may_leave S.Store) (faults S.Store) (is_stopped S.Store) self.old self.new result (Unreadable Disk) Nothing }
        ensures same { is_honest S.Store self.new → is_whole S.Store self.new → (state S.Store self.new.0).now ≡ (state S.Store self.old.0).now }
    {
        if self.stopped {
            return Err(HandingFault::NoTables(Lost::Disk));
        }
        match hand_records(&mut self.connection, self.alloc, after, sink) {
            Ok(()) => Ok(()),
            Err(fault) => {
                forget(self.alloc, &mut self.office);
                Err(self.unread(fault))
            }
        }
    }

    /// How many units of a domain's language callers see in each state; nothing where the domain or its language isn't there. One row is
    /// read; the office need not be at hand, and isn't read.
    pub(crate) fn counts(&mut self, domain: &Name, lang: &Lang) -> Result<Option<Tally>, Lost>
        ensures answer { is_honest S.Store self.new → IfOk result (λ r. r ≡ counts_of (project_in (means S.Store self.old).office domain.now) lang.now) }
        ensures same { is_honest S.Store self.new → is_whole S.Store self.new → means S.Store self.new ≡ means S.Store self.old }
        ensures kept { IsKept (is_honest S.Store) (is_whole S.Store) (means S.Store) (may_leave S.Store) (faults S.Store) (is_stopped S.Store) self.old self.new result Disk Nothing }
    {
        if self.stopped {
            return Err(Lost::Disk);
        }
        match read_tally(&mut self.connection, domain, lang) {
            Ok(counts) => Ok(counts),
            Err(failure) => {
                forget(self.alloc, &mut self.office);
                Err(self.lost(failure))
            }
        }
    }

    /// How many units are approved, and how many of these are at the last revision. No unit is read; the office need not be at hand, and isn't
    /// read.
    pub(crate) fn approvals(&mut self) -> Result<Approvals, Lost>
        ensures answer { is_honest S.Store self.new → IfOk result (λ r. r ≡ approvals_in (means S.Store self.old).office) }
        ensures same { is_honest S.Store self.new → is_whole S.Store self.new → means S.Store self.new ≡ means S.Store self.old }
        ensures kept { IsKept (is_honest S.Store) (is_whole S.Store) (means S.Store) (may_leave S.Store) (faults S.Store) (is_stopped S.Store) self.old self.new result Disk Nothing }
    {
        if self.stopped {
            return Err(Lost::Disk);
        }
        match read_approvals(&mut self.connection) {
            Ok(approvals) => Ok(approvals),
            Err(failure) => {
                forget(self.alloc, &mut self.office);
                Err(self.lost(failure))
            }
        }
    }

    /// Writes a request's record and what its act writes of a unit, if it writes anything and the unit is there; or neither. The number must be
    /// new, the content a request's, what is written of the unit that is there, and what the commit leaves must keep the rules.
    pub(crate) fn commit_unit(
        &mut self,
        row: &Record,
        domain: &Name,
        lang: &Lang,
        key: &Key,
        write: &Option<UnitWrite>,
    ) -> Result<(), Lost>
        requires content { IsContent row.now.content }
        requires possible { is_honest S.Store self.old → IsPossibleWrite (project_in (means S.Store self.old).office domain.now) lang.now key.now write.now }
        requires rules { is_honest S.Store self.old → KeepsRules (record { office = with_write_in (means S.Store self.old).office domain.now lang.now key.now write.now; book = with_record (means S.Store self.old).book row.now }) }
        ensures done { is_honest S.Store self.new → OnOk result (means S.Store self.new ≡ record { office = with_write_in (means S.Store self.old).office domain.now lang.now key.now write.now; book = with_record (means S.Store self.old).book row.now }) }
        ensures same { is_honest S.Store self.new → is_whole S.Store self.new → OnErr result (means S.Store self.new ≡ means S.Store self.old) }
        ensures kept { IsKept (is_honest S.Store) (is_whole S.Store) (means S.Store) (may_leave S.Store) (faults S.Store) (is_stopped S.Store) self.old self.new result Disk
            (λ m. m ≡ record { office = with_write_in (means S.Store self.old).office domain.now lang.now key.now write.now; book = with_record (means S.Store self.old).book row.now }) }
    {
        if self.stopped {
            return Err(Lost::Disk);
        }
        key_fits(key);
        write_fits(lang, key, write);
        record_fits(row);
        forget(self.alloc, &mut self.office);
        match commit_act(
            &mut self.connection,
            self.alloc,
            row,
            domain,
            lang,
            key,
            write,
        ) {
            Ok(()) => Ok(()),
            Err(failure) => Err(self.lost(failure)),
        }
    }

    /// Writes a request's record and what its act changes, if it changes anything; or neither. The number must be new, the
    /// content a request's, the change possible, and what the commit leaves must keep the rules.
    pub(crate) fn commit_office(
        &mut self,
        row: &Record,
        change: &Option<Change>,
    ) -> Result<(), Lost>
        requires content { IsContent row.now.content }
        requires possible { is_honest S.Store self.old → IsPossibleChange (means S.Store self.old).office change.now }
        requires rules { is_honest S.Store self.old → KeepsRules (record { office = changed_by (means S.Store self.old).office change.now; book = with_record (means S.Store self.old).book row.now }) }
        ensures done { is_honest S.Store self.new → OnOk result (means S.Store self.new ≡ record { office = changed_by (means S.Store self.old).office change.now; book = with_record (means S.Store self.old).book row.now }) }
        ensures same { is_honest S.Store self.new → is_whole S.Store self.new → OnErr result (means S.Store self.new ≡ means S.Store self.old) }
        ensures kept { IsKept (is_honest S.Store) (is_whole S.Store) (means S.Store) (may_leave S.Store) (faults S.Store) (is_stopped S.Store) self.old self.new result Disk
            (λ m. m ≡ record { office = changed_by (means S.Store self.old).office change.now; book = with_record (means S.Store self.old).book row.now }) }
    {
        if self.stopped {
            return Err(Lost::Disk);
        }
        record_fits(row);
        change_fits(change);
        forget(self.alloc, &mut self.office);
        self.kept.part = None;
        match commit_change(&mut self.connection, self.alloc, row, change) {
            Ok(()) => Ok(()),
            Err(failure) => Err(self.lost(failure)),
        }
    }

    /// What a failure comes to: one of the disk stops the tables.
    fn lost(&mut self, failure: Failure) -> Lost
        ensures result { result ≡ failure.lost }
        ensures connection { self.new.0 ≡ self.old.0 }
        ensures stops { result ≡ Disk → self.new.1.0 ≡ true }
        ensures runs { self.old.1.0 ≡ false → self.new.1.0 ≡ true → result ≡ Disk }
    {
        if let Lost::Disk = failure.lost {
            self.stopped = true;
        }
        failure.lost
    }

    /// The same where entries were handed out.
    fn cut_off<R: Drop>(&mut self, fault: EachFault<R>) -> EachFault<R>
        ensures result { result ≡ fault }
        ensures connection { self.new.0 ≡ self.old.0 }
        ensures stops { result ≡ NoTables Disk → self.new.1.0 ≡ true }
        ensures runs { self.old.1.0 ≡ false → self.new.1.0 ≡ true → result ≡ NoTables Disk }
    {
        if let EachFault::NoTables(Lost::Disk) = &fault {
            self.stopped = true;
        }
        fault
    }

    /// The same where records were handed out.
    fn unread<R: Drop>(&mut self, fault: HandingFault<R>) -> HandingFault<R>
        ensures result { result ≡ fault }
        ensures connection { self.new.0 ≡ self.old.0 }
        ensures stops { result ≡ Unreadable Disk → self.new.1.0 ≡ true }
        ensures runs { self.old.1.0 ≡ false → self.new.1.0 ≡ true → result ≡ Unreadable Disk }
    {
        if let HandingFault::NoTables(Lost::Disk) = &fault {
            self.stopped = true;
        }
        fault
    }
}
