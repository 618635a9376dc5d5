//! What callers ask about the office: of units and counts, answered as JSON texts, and which languages there are.
ghost use Rattle.std.specs.Prelude.{◌≡◌, ◌≢◌, ◌⊎◌, Err, Some, None, IfOk, IfErr, IsSome, option_map, string_bytes};
ghost use Rattle.std.specs.FinMap as maps;
ghost use Rattle.views.specs.UnitTexts.{unit_text_of, unit_text_at};
ghost use Rattle.views.specs.CountsTexts.{counts_text_at};
ghost use Rattle.units.specs.Office.{project_in};
ghost use Rattle.units.specs.Project.{languages};
ghost use Rattle.office_maps.specs.OfficeIn.{office_in};
ghost use Rattle.tables.specs.Stops.{Nothing};
ghost use Rattle.tables.specs.KeptByCalls.{IsKept};
ghost use Rattle.office.specs.declared.faults.QueryFault.TheVariants.{NoLanguage, NoUnit, Disk};
ghost use Rattle.tables.specs.declared.faults.Lost.TheVariants as lost;

use crate::desk::Desk;
use crate::faults::QueryFault;
use office_maps::OfficeMaps;
use office_specification::{ActContext, Part};
use po_text::Duplicate;
use std::alloc::{AllocError, Global};
use tables::{Lost, Tables};
use units::{Key, Lang, Name};
use views::{counts_text, unit_text};

/// A name to read a unit with: what is shown of a unit doesn't depend on it.
fn reader() -> Name {
    match Name::try_new("reader") {
        Some(name) => name,
        None => unreachable!(),
    }
}

/// The text of the unit that was found.
fn text_of(alloc: Global, found: &ActContext) -> Result<String, QueryFault>
    ensures ok { IfOk result
        (λ text. option_map (λ view. unit_text_of view found.now.rule) found.now.view ≡ Some (string_bytes text)) }
    ensures no_unit { result ≡ Err NoUnit → found.now.view ≡ None }
    ensures faults { IfErr result (λ e. (e ≢ NoLanguage) × (e ≢ Disk)) }
{
    match &found.view {
        None => Err(QueryFault::NoUnit),
        Some(view) => Ok(unit_text(alloc, view, &found.rule)?),
    }
}

/// The text of a unit as callers see it.
fn unit_of<T: Tables>(
    alloc: Global,
    tables: &mut T,
    domain: &Name,
    lang: &Lang,
    key: &Key,
) -> Result<String, QueryFault>
    ensures ok { T.is_honest tables.new → IfOk result
        (λ text. unit_text_at (project_in (T.means tables.old).office domain.now) lang.now key.now ≡ Some (string_bytes text)) }
    ensures no_language { T.is_honest tables.new → result ≡ Err NoLanguage → maps.get (project_in (T.means tables.old).office domain.now).headers lang.now ≡ None }
    ensures no_unit { T.is_honest tables.new → result ≡ Err NoUnit
        → IsSome (maps.get (project_in (T.means tables.old).office domain.now).headers lang.now) × (maps.get (project_in (T.means tables.old).office domain.now).units (lang.now, key.now) ≡ None) }
    // What isn't there is told by tables that aren't shut.
    ensures open_still { T.is_honest tables.new → (result ≡ Err NoLanguage) ⊎ (result ≡ Err NoUnit) → T.is_whole tables.new }
    ensures same { T.is_honest tables.new → T.is_whole tables.new → T.means tables.new ≡ T.means tables.old }
    ensures kept { IsKept T.is_honest T.is_whole T.means T.may_leave T.faults T.is_stopped tables.old tables.new result Disk Nothing }
{
    if tables.stopped() {
        return Err(QueryFault::Disk);
    }
    let name = reader();
    match tables.context_of(domain, lang, key, &name)? {
        None => Err(QueryFault::NoLanguage),
        Some(found) => {
            let text = text_of(alloc, &found);
            drop(found);
            text
        }
    }
}

/// The text of a language's counts.
fn counts_of<T: Tables>(
    alloc: Global,
    tables: &mut T,
    domain: &Name,
    lang: &Lang,
) -> Result<String, QueryFault>
    ensures ok { T.is_honest tables.new → IfOk result
        (λ text. counts_text_at (project_in (T.means tables.old).office domain.now) lang.now ≡ Some (string_bytes text)) }
    ensures no_language { T.is_honest tables.new → result ≡ Err NoLanguage → maps.get (project_in (T.means tables.old).office domain.now).headers lang.now ≡ None }
    ensures no_unit { result ≢ Err NoUnit }
    // What isn't there is told by tables that aren't shut.
    ensures open_still { T.is_honest tables.new → result ≡ Err NoLanguage → T.is_whole tables.new }
    ensures same { T.is_honest tables.new → T.is_whole tables.new → T.means tables.new ≡ T.means tables.old }
    ensures kept { IsKept T.is_honest T.is_whole T.means T.may_leave T.faults T.is_stopped tables.old tables.new result Disk Nothing }
{
    match tables.counts(domain, lang)? {
        None => Err(QueryFault::NoLanguage),
        Some(counts) => Ok(counts_text(alloc, counts)?),
    }
}

/// The languages of a domain of an office.
fn languages_in(alloc: Global, office: &OfficeMaps, domain: &Name) -> Result<Vec<Lang>, AllocError>
    ensures { IfOk result (λ all. all.items ≡ languages (project_in (office_in office.now) domain.now)) }
{
    match office.project(domain) {
        Some(project) => project.languages(alloc),
        None => Ok(Vec::new(alloc)),
    }
}

/// The languages of a domain, which are read with its template.
fn languages_of<T: Tables>(alloc: Global, tables: &mut T, domain: &Name) -> Result<Vec<Lang>, Lost>
    ensures answer { T.is_honest tables.new → IfOk result (λ all. all.items ≡ languages (project_in (T.means tables.old).office domain.now)) }
    ensures same { T.is_honest tables.new → T.is_whole tables.new → T.means tables.new ≡ T.means tables.old }
    ensures kept { IsKept T.is_honest T.is_whole T.means T.may_leave T.faults T.is_stopped tables.old tables.new result lost.Disk Nothing }
{
    if tables.stopped() {
        return Err(Lost::Disk);
    }
    let own = domain.duplicate()?;
    tables.load_part(Part::Languages(own))?;
    let all = languages_in(alloc, tables.office(), domain);
    Ok(all?)
}

impl<T: Tables> Desk<T> {
    /// The languages of a domain, in the order of their codes; none where the domain isn't there. They are read with the domain's
    /// template, and no unit is. The tables mean what they meant, unless a failure has shut them.
    ///
    /// `Memory`, as where a growth was refused, `Refused`, as where a row stands for no value, and `Disk`, as where the disk failed, after
    /// which the desk answers `Disk` until the tables are opened again.
    pub fn languages(&mut self, domain: &Name) -> Result<Vec<Lang>, Lost>
        ensures answer { T.is_honest self.new → IfOk result (λ all. all.items ≡ languages (project_in (T.means self.old).office domain.now)) }
        ensures same { T.is_honest self.new → T.is_whole self.new → T.means self.new ≡ T.means self.old }
        // Nothing is written, and the tables are stopped just where `Disk` is answered.
        ensures kept { IsKept T.is_honest T.is_whole T.means T.may_leave T.faults T.is_stopped self.old self.new result lost.Disk Nothing }
    {
        languages_of(self.alloc, &mut self.tables, domain)
    }

    /// A domain's unit as callers see it, as compact JSON (RFC 8259): its key, forms, comment and suggestions, its state, and what the checks
    /// find in its forms. The tables mean what they meant, unless a failure has shut them.
    ///
    /// `NoLanguage` only where the domain or its language isn't there, and `NoUnit` only where the language is there without the unit; `Memory`, as
    /// where a growth was refused, `Refused`, as where a row stands for no value, and `Disk`, as where the disk failed, after which the desk
    /// answers `Disk` until the tables are opened again.
    pub fn unit(&mut self, domain: &Name, lang: &Lang, key: &Key) -> Result<String, QueryFault>
        ensures ok { T.is_honest self.new → IfOk result
            (λ text. unit_text_at (project_in (T.means self.old).office domain.now) lang.now key.now ≡ Some (string_bytes text)) }
        ensures no_language { T.is_honest self.new → result ≡ Err NoLanguage → maps.get (project_in (T.means self.old).office domain.now).headers lang.now ≡ None }
        ensures no_unit { T.is_honest self.new → result ≡ Err NoUnit
            → IsSome (maps.get (project_in (T.means self.old).office domain.now).headers lang.now) × (maps.get (project_in (T.means self.old).office domain.now).units (lang.now, key.now) ≡ None) }
        // What isn't there is told by tables that aren't shut.
        ensures open_still { T.is_honest self.new → (result ≡ Err NoLanguage) ⊎ (result ≡ Err NoUnit) → T.is_whole self.new }
        ensures same { T.is_honest self.new → T.is_whole self.new → T.means self.new ≡ T.means self.old }
        // Nothing is written, and the tables are stopped just where `Disk` is answered.
        ensures kept { IsKept T.is_honest T.is_whole T.means T.may_leave T.faults T.is_stopped self.old self.new result Disk Nothing }
    {
        unit_of(self.alloc, &mut self.tables, domain, lang, key)
    }

    /// The counts of a domain's language as compact JSON (RFC 8259): how many of its units callers see in each state, how many are obsolete, and how
    /// many suggestions there are. The tables mean what they meant, unless a failure has shut them.
    ///
    /// `NoLanguage` only where the domain or its language isn't there; `Memory`, as where a growth was refused, `Refused`, as where a row stands for no value,
    /// and `Disk`, as where the disk failed, after which the desk answers `Disk` until the tables are opened again.
    pub fn stats(&mut self, domain: &Name, lang: &Lang) -> Result<String, QueryFault>
        ensures ok { T.is_honest self.new → IfOk result
            (λ text. counts_text_at (project_in (T.means self.old).office domain.now) lang.now ≡ Some (string_bytes text)) }
        ensures no_language { T.is_honest self.new → result ≡ Err NoLanguage → maps.get (project_in (T.means self.old).office domain.now).headers lang.now ≡ None }
        ensures no_unit { result ≢ Err NoUnit }
        // What isn't there is told by tables that aren't shut.
        ensures open_still { T.is_honest self.new → result ≡ Err NoLanguage → T.is_whole self.new }
        ensures same { T.is_honest self.new → T.is_whole self.new → T.means self.new ≡ T.means self.old }
        // Nothing is written, and the tables are stopped just where `Disk` is answered.
        ensures kept { IsKept T.is_honest T.is_whole T.means T.may_leave T.faults T.is_stopped self.old self.new result Disk Nothing }
    {
        counts_of(self.alloc, &mut self.tables, domain, lang)
    }
}
