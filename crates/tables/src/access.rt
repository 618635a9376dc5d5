//! Tables of an office with its book.
ghost use Rattle.std.specs.Prelude.{◌≡◌, ℕ, Bool, IfOk, OnOk, OnErr, IfErr, IsTrue, option_map, is_none};
ghost use Rattle.std.specs.FinMap as maps;
ghost use Rattle.request_book.specs.Book.{OfficeWithBook, row_of, with_record};
ghost use Rattle.units.specs.Project.{role_in};
ghost use Rattle.units.specs.Office.{project_in};
ghost use Rattle.office_specification.specs.UnitAccess.{context_of, without_suggestions, suggestions_at, suggestion_at, with_write_in, IsPossibleWrite};
ghost use Rattle.office_specification.specs.OfficeChanges.{changed_by, IsPossibleChange};
ghost use Rattle.office_specification.specs.OfficeRules.{KeepsRules};
ghost use Rattle.office_specification.specs.Approvals.{approvals_in};
ghost use Rattle.office_specification.specs.Parts.{AreAlikeIn};
ghost use Rattle.office_specification.specs.declared.parts.Part.{Part as OfficePart};
ghost use Rattle.request_book.specs.Contents.{IsContent};
ghost use Rattle.tables.specs.Stops.{Nothing, LeavesOnly, IsReadable};
ghost use Rattle.tables.specs.KeptByCalls.{IsKept};
ghost use Rattle.tables.specs.Sinks.{WasCutShort};
ghost use Rattle.tables.specs.Entries.{entries_of};
ghost use Rattle.office_specification.specs.Tally.{counts_of};
ghost use Rattle.office_maps.specs.OfficeIn.{office_in};
ghost use Rattle.tables.specs.declared.faults.Lost.TheVariants.{Disk};
ghost use Rattle.tables.specs.declared.faults.EachFault.TheVariants.{NoTables};

use crate::faults::{EachFault, Lost};
use crate::sink::EntrySink;
use office_maps::OfficeMaps;
use office_specification::{ActContext, Approvals, Change, Part, Tally, UnitWrite};
use po_text::Items;
use request_book::Record;
use units::{Key, Lang, Name, Role, Suggestion};
use uuid::Uuid;

/// Tables of an office with its book.
///
/// Each call says what it answers or writes, what the tables mean then, and by `IsKept` what it keeps, whatever it answers. What it
/// answers holds while the disk returns what was written; what the tables mean then, while no failure has shut the store. An error
/// is `Memory`, as where a growth was refused, or `Refused`, where the file takes no such rows or shows rows that stand for no value,
/// and the tables run on; or `Disk`, as where the disk failed: then the tables are stopped, and answer `Disk` to each further call.
pub trait Tables: Drop {
    /// So far the disk has returned what was written.
    ghost is_honest: { Self → Type 0 };

    /// No failure has shut the store.
    ghost is_whole: { Self → Type 0 };

    /// The office with its book that they stand for; of tables that aren't whole it says nothing.
    ghost means: { Self → OfficeWithBook };

    /// What an opening after a stop at this moment may find.
    ghost may_leave: { Self → OfficeWithBook → Type 0 };

    /// What a stop leaves, of a file its trees.
    ghost Left: { Type 0 };

    /// Whether a stop at this moment may leave this.
    ghost leaves: { Self → Left → Type 0 };

    /// What an opening reads of what is left.
    ghost reads: { Left → OfficeWithBook → Type 0 };

    /// How many times the disk has failed or refused.
    ghost faults: { Self → ℕ };

    /// Whether they answer `Disk` until they are opened again.
    ghost is_stopped: { Self → Bool };

    /// This part of the office is at hand, as `office` shows it.
    ghost is_loaded: { Self → OfficePart → Type 0 };

    /// Whether they answer `Disk` until they are opened again.
    fn stopped(&self) -> bool
        ensures { result ≡ is_stopped self.now };

    /// What is recorded under a request's number: its content and its first reply.
    fn record_of(&mut self, number: &Uuid) -> Result<Option<Record>, Lost>
        ensures answer { is_honest self.new → IfOk result (λ r. r ≡ option_map (row_of number.now) (maps.get (means self.old).book number.now)) }
        ensures same { is_honest self.new → is_whole self.new → means self.new ≡ means self.old }
        ensures kept { IsKept is_honest is_whole means may_leave faults is_stopped self.old self.new result Disk Nothing };

    /// A caller's role: who isn't in the team is a guest.
    fn role_of(&mut self, name: &Name) -> Result<Role, Lost>
        ensures answer { is_honest self.new → IfOk result (λ role. role ≡ role_in (means self.old).office.team name.now) }
        ensures same { is_honest self.new → is_whole self.new → means self.new ≡ means self.old }
        ensures kept { IsKept is_honest is_whole means may_leave faults is_stopped self.old self.new result Disk Nothing };

    /// What an act on a unit needs to know: the language's plural rule, the policy, the caller's role, and the unit's view, if there
    /// is one. Nothing where the domain or its language isn't there.
    fn context_of(
        &mut self,
        domain: &Name,
        lang: &Lang,
        key: &Key,
        name: &Name,
    ) -> Result<Option<ActContext>, Lost>
        ensures answer { is_honest self.new → IfOk result (λ r. r ≡ context_of (project_in (means self.old).office domain.now) lang.now key.now name.now) }
        ensures same { is_honest self.new → is_whole self.new → means self.new ≡ means self.old }
        ensures kept { IsKept is_honest is_whole means may_leave faults is_stopped self.old self.new result Disk Nothing };

    /// The same but for the unit's suggestions, which aren't read: the view has none.
    fn unit_of(
        &mut self,
        domain: &Name,
        lang: &Lang,
        key: &Key,
        name: &Name,
    ) -> Result<Option<ActContext>, Lost>
        ensures answer { is_honest self.new → IfOk result (λ r. r ≡ without_suggestions (context_of (project_in (means self.old).office domain.now) lang.now key.now name.now)) }
        ensures same { is_honest self.new → is_whole self.new → means self.new ≡ means self.old }
        ensures kept { IsKept is_honest is_whole means may_leave faults is_stopped self.old self.new result Disk Nothing };

    /// The suggestions on a unit, in their order, without the votes on them, which aren't read. None where the unit isn't there.
    fn suggestions_of(
        &mut self,
        domain: &Name,
        lang: &Lang,
        key: &Key,
    ) -> Result<Items<Suggestion>, Lost>
        ensures answer { is_honest self.new → IfOk result (λ r. r ≡ suggestions_at (project_in (means self.old).office domain.now) lang.now key.now) }
        ensures same { is_honest self.new → is_whole self.new → means self.new ≡ means self.old }
        ensures kept { IsKept is_honest is_whole means may_leave faults is_stopped self.old self.new result Disk Nothing };

    /// The suggestion of a number on a unit, with the votes on it; nothing where the unit or the suggestion isn't there.
    fn suggestion_of(
        &mut self,
        domain: &Name,
        lang: &Lang,
        key: &Key,
        number: &Uuid,
    ) -> Result<Option<Suggestion>, Lost>
        ensures answer { is_honest self.new → IfOk result (λ r. r ≡ suggestion_at (project_in (means self.old).office domain.now) lang.now key.now number.now) }
        ensures same { is_honest self.new → is_whole self.new → means self.new ≡ means self.old }
        ensures kept { IsKept is_honest is_whole means may_leave faults is_stopped self.old self.new result Disk Nothing };

    /// Reads a part of the office: what an act on the office needs. `office` then shows it.
    fn load_part(&mut self, part: Part) -> Result<(), Lost>
        ensures loaded { OnOk result (is_loaded self.new part) }
        ensures same { is_honest self.new → is_whole self.new → means self.new ≡ means self.old }
        ensures kept { IsKept is_honest is_whole means may_leave faults is_stopped self.old self.new result Disk Nothing };

    /// What was read of the office, in maps; it isn't copied. In each part that is at hand it is the office's; of the rest it says
    /// nothing.
    fn office(&self) -> &OfficeMaps
        requires loaded { (part : OfficePart) × is_loaded self.now part }
        ensures { is_honest self.now → is_whole self.now → (part : OfficePart) → is_loaded self.now part → AreAlikeIn part (office_in result.now) (means self.now).office };

    /// How many units are approved, in all languages of all domains and also obsolete ones, and how many of these are at the last revision:
    /// what a policy needs of the units.
    fn approvals(&mut self) -> Result<Approvals, Lost>
        ensures answer { is_honest self.new → IfOk result (λ r. r ≡ approvals_in (means self.old).office) }
        ensures same { is_honest self.new → is_whole self.new → means self.new ≡ means self.old }
        ensures kept { IsKept is_honest is_whole means may_leave faults is_stopped self.old self.new result Disk Nothing };

    /// Writes a request's record and what its act writes of a unit, if it writes anything and the unit is there; or neither. The number must be
    /// new, the content a request's, what is written of the unit that is there, and what the commit leaves must keep the rules.
    fn commit_unit(
        &mut self,
        row: Record,
        domain: &Name,
        lang: &Lang,
        key: &Key,
        write: Option<UnitWrite>,
    ) -> Result<(), Lost>
        requires new { is_honest self.old → IsTrue (is_none (maps.get (means self.old).book row.number)) }
        requires content { IsContent row.content }
        requires possible { is_honest self.old → IsPossibleWrite (project_in (means self.old).office domain.now) lang.now key.now write }
        requires rules { is_honest self.old → KeepsRules (record { office = with_write_in (means self.old).office domain.now lang.now key.now write; book = with_record (means self.old).book row }) }
        ensures done { is_honest self.new → OnOk result (means self.new ≡ record { office = with_write_in (means self.old).office domain.now lang.now key.now write; book = with_record (means self.old).book row }) }
        ensures same { is_honest self.new → is_whole self.new → OnErr result (means self.new ≡ means self.old) }
        ensures kept { IsKept is_honest is_whole means may_leave faults is_stopped self.old self.new result Disk
            (λ m. m ≡ record { office = with_write_in (means self.old).office domain.now lang.now key.now write; book = with_record (means self.old).book row }) };

    /// Writes a request's record and what its act changes, if it changes anything; or neither. The number must be new, the content a
    /// request's, the change possible, and what the commit leaves must keep the rules.
    fn commit_office(&mut self, row: Record, change: Option<Change>) -> Result<(), Lost>
        requires new { is_honest self.old → IsTrue (is_none (maps.get (means self.old).book row.number)) }
        requires content { IsContent row.content }
        requires possible { is_honest self.old → IsPossibleChange (means self.old).office change }
        requires rules { is_honest self.old → KeepsRules (record { office = changed_by (means self.old).office change; book = with_record (means self.old).book row }) }
        ensures done { is_honest self.new → OnOk result (means self.new ≡ record { office = changed_by (means self.old).office change; book = with_record (means self.old).book row }) }
        ensures same { is_honest self.new → is_whole self.new → OnErr result (means self.new ≡ means self.old) }
        ensures kept { IsKept is_honest is_whole means may_leave faults is_stopped self.old self.new result Disk
            (λ m. m ≡ record { office = changed_by (means self.old).office change; book = with_record (means self.old).book row }) };

    /// Hands the entries of a domain's language to a sink: its header, the template's entries in order, each with its unit, and the obsolete
    /// units that have a translation, in the order of their keys. None where the domain or its language isn't there. After a fault the sink has
    /// taken a beginning of them.
    fn each_entry<S: EntrySink>(
        &mut self,
        domain: &Name,
        lang: &Lang,
        sink: &mut S,
    ) -> Result<(), EachFault<S::Refusal>>
        ensures all { is_honest self.new → OnOk result (S.Took sink.old (entries_of (project_in (means self.old).office domain.now) lang.now) sink.new) }
        ensures cut { is_honest self.new → IfErr result (WasCutShort S.Took S.Refuses sink.old sink.new (entries_of (project_in (means self.old).office domain.now) lang.now)) }
        ensures same { is_honest self.new → is_whole self.new → means self.new ≡ means self.old }
        ensures kept { IsKept is_honest is_whole means may_leave faults is_stopped self.old self.new result (NoTables Disk) Nothing };

    /// How many units of a domain's language callers see in each state; nothing where the domain or its language isn't there.
    fn counts(&mut self, domain: &Name, lang: &Lang) -> Result<Option<Tally>, Lost>
        ensures answer { is_honest self.new → IfOk result (λ r. r ≡ counts_of (project_in (means self.old).office domain.now) lang.now) }
        ensures same { is_honest self.new → is_whole self.new → means self.new ≡ means self.old }
        ensures kept { IsKept is_honest is_whole means may_leave faults is_stopped self.old self.new result Disk Nothing };

    /// The rules of an office with its book hold.
    ghost rules: { (t : Self) → is_honest t → is_whole t → KeepsRules (means t) };

    /// While no failure has shut the store, a stop leaves what the tables mean, and nothing else.
    ghost settled: { (t : Self) → is_honest t → is_whole t → LeavesOnly (may_leave t) (means t) };

    /// A stop always leaves something, and whatever it leaves can be read, as what an opening may find and as nothing else; also where a
    /// failure has shut the store.
    ghost readable: { (t : Self) → is_honest t → IsReadable (leaves t) reads (may_leave t) };
}
