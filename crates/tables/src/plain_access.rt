//! What tables in maps answer and write.

ghost use Rattle.std.specs.Prelude.{◌≡◌, false, ⊤};

use crate::access::Tables;
use crate::approval_counts::approvals_in;
use crate::counting::counts_in;
use crate::domain_reads::hand_in;
use crate::faults::{EachFault, Lost};
use crate::plain::PlainTables;
use crate::sink::EntrySink;
use office_maps::OfficeMaps;
use office_specification::{ActContext, Approvals, Change, Part, Tally, UnitWrite};
use po_text::Items;
use request_book::Record;
use units::{Key, Lang, Name, Role, Suggestion};
use uuid::Uuid;

impl Tables for PlainTables {
    ghost use Rattle.request_book.specs.Book.{OfficeWithBook};
    ghost use Rattle.tables.specs.PlainMeaning.{meaning_of};
    ghost use Rattle.tables.specs.Stops.{left_readable};

    ghost is_honest = { λ t. ⊤ };

    ghost is_whole = { λ t. ⊤ };

    ghost means = { meaning_of };

    ghost may_leave = { λ t m. m ≡ meaning_of t };

    ghost Left = { OfficeWithBook };

    ghost leaves = { λ t left. left ≡ meaning_of t };

    ghost reads = { λ left m. m ≡ left };

    ghost faults = { λ t. 0 };

    ghost is_stopped = { λ t. false };

    ghost is_loaded = { λ t part. ⊤ };

    ghost rules = { λ t honest whole. t.kept };

    ghost settled = { λ t honest whole other left. left };

    ghost readable = { λ t honest. left_readable (meaning_of t) };

    fn stopped(&self) -> bool {
        false
    }

    fn record_of(&mut self, number: &Uuid) -> Result<Option<Record>, Lost> {
        self.maps.record_of(number)
    }

    fn role_of(&mut self, name: &Name) -> Result<Role, Lost> {
        Ok(self.maps.office.role_of(name))
    }

    fn context_of(
        &mut self,
        domain: &Name,
        lang: &Lang,
        key: &Key,
        name: &Name,
    ) -> Result<Option<ActContext>, Lost> {
        self.maps.context_of(domain, lang, key, name)
    }

    fn unit_of(
        &mut self,
        domain: &Name,
        lang: &Lang,
        key: &Key,
        name: &Name,
    ) -> Result<Option<ActContext>, Lost> {
        self.maps.unit_of(self.alloc, domain, lang, key, name)
    }

    fn suggestions_of(
        &mut self,
        domain: &Name,
        lang: &Lang,
        key: &Key,
    ) -> Result<Items<Suggestion>, Lost> {
        self.maps.suggestions_of(self.alloc, domain, lang, key)
    }

    fn suggestion_of(
        &mut self,
        domain: &Name,
        lang: &Lang,
        key: &Key,
        number: &Uuid,
    ) -> Result<Option<Suggestion>, Lost> {
        self.maps.suggestion_of(domain, lang, key, number)
    }

    fn load_part(&mut self, part: Part) -> Result<(), Lost> {
        drop(part);
        Ok(())
    }

    fn office(&self) -> &OfficeMaps {
        &self.maps.office
    }

    fn approvals(&mut self) -> Result<Approvals, Lost> {
        Ok(approvals_in(&self.maps.office)?)
    }

    fn commit_unit(
        &mut self,
        row: Record,
        domain: &Name,
        lang: &Lang,
        key: &Key,
        write: Option<UnitWrite>,
    ) -> Result<(), Lost> {
        self.maps
            .commit_unit(self.alloc, row, domain, lang, key, write)
    }

    fn commit_office(&mut self, row: Record, change: Option<Change>) -> Result<(), Lost> {
        self.maps.commit_office(self.alloc, row, change)
    }

    fn each_entry<S: EntrySink>(
        &mut self,
        domain: &Name,
        lang: &Lang,
        sink: &mut S,
    ) -> Result<(), EachFault<S::Refusal>> {
        hand_in(self.alloc, &self.maps.office, domain, lang, sink)
    }

    fn counts(&mut self, domain: &Name, lang: &Lang) -> Result<Option<Tally>, Lost> {
        Ok(counts_in(self.alloc, &self.maps.office, domain, lang)?)
    }
}
