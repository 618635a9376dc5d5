//! Changes of an office in maps: each is made whole, or nothing changes.

ghost use Rattle.std.specs.Prelude.{◌≡◌, IfOk, OnOk, OnErr, fold, string_bytes};
ghost use Rattle.std.specs.FinMap as maps;
ghost use Rattle.units.specs.Office.{Office, empty_domain, as_project, domain_of, project_in, with_project};
ghost use Rattle.units.specs.Changes.{set_role, office_under, with_team, with_domain};
ghost use Rattle.office_specification.specs.ProjectActs.{with_language, with_template};
ghost use Rattle.office_specification.specs.OfficeChanges.{changed_project, AreWithin};
ghost use Rattle.office_maps.specs.Rows.{headers_in, units_in, team_in};
ghost use Rattle.office_maps.specs.OfficeIn.{domain_in, domains_in};
ghost use Rattle.office_maps.specs.Policies.{IsUnapproved};
ghost use Rattle.office_maps.specs.DisplacedUnits.{Units, AreDisplaced, at_places};

use crate::domain_maps::DomainMaps;
use crate::languages::Languages;
use crate::office_maps::OfficeMaps;
use crate::place::Place;
use crate::puts::put_in;
use crate::template::Template;
use crate::unit_rows::{Displaced, put_all, put_at, put_back, unapprove_all, units_of_plans};
use office_specification::{Change, DomainChange, Language};
use po_text::Catalogue;
use std::alloc::{AllocError, Global};
use std::collections::BTreeMap;
use template_update::Plan;
use units::{Lang, Memory, Name, Policy, Role, Unit};

/// Puts a name with a role into a team.
pub(crate) fn add_member(
    alloc: Global,
    team: &mut BTreeMap<String, Role>,
    name: &str,
    role: Role,
) -> Result<(), AllocError>
    ensures ok { OnOk result (team_in team.new ≡ maps.insert (team_in team.old) name.now role) }
    ensures err { OnErr result (team_in team.new ≡ team_in team.old) }
{
    let own = String::from_str(alloc, name)?;
    put_in(team, own, role)
}

/// Sets a name's role: a guest isn't in the team.
fn put_role(
    alloc: Global,
    team: &mut BTreeMap<String, Role>,
    name: &Name,
    role: Role,
) -> Result<(), AllocError>
    ensures ok { OnOk result (team_in team.new ≡ set_role name.now role (team_in team.old)) }
    ensures err { OnErr result (team_in team.new ≡ team_in team.old) }
{
    match role {
        Role::Guest => {
            let _ = team.remove(name.as_str());
            Ok(())
        }
        _ => add_member(alloc, team, name.as_str(), role),
    }
}

/// Puts a domain under a name.
pub(crate) fn put_domain(
    alloc: Global,
    domains: &mut BTreeMap<String, DomainMaps>,
    name: &str,
    domain: DomainMaps,
) -> Result<(), AllocError>
    ensures ok { OnOk result (domains_in domains.new ≡ maps.insert (domains_in domains.old) name.now (domain_in domain)) }
    ensures err { OnErr result (domains_in domains.new ≡ domains_in domains.old) }
{
    match String::from_str(alloc, name) {
        Ok(own) => put_under(domains, own, domain),
        Err(refused) => {
            drop(domain);
            Err(refused)
        }
    }
}

fn put_under(
    domains: &mut BTreeMap<String, DomainMaps>,
    own: String,
    domain: DomainMaps,
) -> Result<(), AllocError>
    ensures ok { OnOk result (domains_in domains.new ≡ maps.insert (domains_in domains.old) (string_bytes own) (domain_in domain)) }
    ensures err { OnErr result (domains_in domains.new ≡ domains_in domains.old) }
{
    put_in(domains, own, domain)
}

/// Puts a language with its units in, or neither.
fn put_language(
    alloc: Global,
    languages: &mut Languages,
    units: &mut BTreeMap<Place, Unit>,
    lang: &Lang,
    language: Language,
    more: Vec<Unit>,
) -> Result<(), AllocError>
    ensures headers { OnOk result (headers_in languages.new.rows ≡ maps.insert (headers_in languages.old.rows) lang.now language.header) }
    ensures units { OnOk result (units_in units.new ≡ fold (λ m e. maps.insert m e.0 e.1) (units_in units.old) (at_places lang.now more.items)) }
    ensures no_header { OnErr result (headers_in languages.new.rows ≡ headers_in languages.old.rows) }
    ensures no_units { OnErr result (units_in units.new ≡ units_in units.old) }
{
    match put_all(alloc, units, lang, more) {
        Ok(befores) => put_header(alloc, languages, units, lang, language, befores),
        Err(refused) => {
            drop(language);
            Err(refused)
        }
    }
}

/// Puts a language in, whose units took the places of what stood there; or puts that back.
fn put_header(
    alloc: Global,
    languages: &mut Languages,
    units: &mut BTreeMap<Place, Unit>,
    lang: &Lang,
    language: Language,
    befores: Vec<Displaced>,
) -> Result<(), AllocError>
    ensures headers { OnOk result (headers_in languages.new.rows ≡ maps.insert (headers_in languages.old.rows) lang.now language.header) }
    ensures units { OnOk result (units_in units.new ≡ units_in units.old) }
    ensures no_header { OnErr result (headers_in languages.new.rows ≡ headers_in languages.old.rows) }
    ensures no_units { OnErr result ((was : Units) → AreDisplaced was befores.items (units_in units.old) → units_in units.new ≡ was) }
{
    match languages.insert(alloc, lang, language) {
        Ok(()) => {
            drop(befores);
            Ok(())
        }
        Err(refused) => {
            put_back(units, befores);
            Err(refused)
        }
    }
}

impl DomainMaps {
    ghost use Rattle.units.specs.Project.{with_unit};
    ghost use Rattle.office_maps.specs.OfficeIn.{place_of};

    /// A domain with no message and no language.
    pub(crate) fn empty(alloc: Global) -> Result<DomainMaps, AllocError>
        ensures { IfOk result (λ domain. domain_in domain ≡ empty_domain) }
    {
        Ok(DomainMaps {
            template: Template::of(alloc, Catalogue::empty(alloc))?,
            languages: Languages::new(alloc),
            units: BTreeMap::new(alloc),
        })
    }

    /// Leaves no unit approved.
    fn unapprove(&mut self)
        ensures { IsUnapproved (domain_in self.old) (domain_in self.new) }
    {
        unapprove_all(&mut self.units);
    }

    /// Puts a unit at a place, instead of what stood there.
    fn put_unit(&mut self, place: Place, unit: Unit) -> Result<(), AllocError>
        ensures ok { OnOk result ((office : Office) → domain_in self.new ≡ domain_of (with_unit (as_project office (domain_in self.old)) (place_of place) unit)) }
        ensures err { OnErr result (domain_in self.new ≡ domain_in self.old) }
    {
        put_at(&mut self.units, place, unit)
    }

    /// Makes what a language or a template changes.
    fn change(&mut self, alloc: Global, change: DomainChange) -> Result<(), Memory>
        ensures ok { OnOk result ((office : Office) → domain_in self.new ≡ domain_of (changed_project (as_project office (domain_in self.old)) change)) }
        ensures err { OnErr result (domain_in self.new ≡ domain_in self.old) }
    {
        match change {
            DomainChange::NewLanguage(lang, language, plan, _) => {
                let done = self.add_language(alloc, &lang, language, plan);
                drop(lang);
                done
            }
            DomainChange::NewTemplate(template, plans, tallies) => {
                drop(tallies);
                self.change_template(alloc, template, plans)
            }
        }
    }

    /// Puts a language with its units in.
    fn add_language(
        &mut self,
        alloc: Global,
        lang: &Lang,
        language: Language,
        plan: Plan,
    ) -> Result<(), Memory>
        ensures ok { OnOk result ((office : Office) → domain_in self.new ≡ domain_of (with_language (as_project office (domain_in self.old)) lang.now language.header plan)) }
        ensures err { OnErr result (domain_in self.new ≡ domain_in self.old) }
    {
        let Plan {
            units,
            stays,
            counts: _,
        } = plan;
        drop(stays);
        Ok(put_language(
            alloc,
            &mut self.languages,
            &mut self.units,
            lang,
            language,
            units.into_vec(),
        )?)
    }

    /// Puts a template in, with the units that each language then has.
    fn change_template(
        &mut self,
        alloc: Global,
        template: Catalogue,
        plans: Vec<(Lang, Plan)>,
    ) -> Result<(), Memory>
        ensures ok { OnOk result ((office : Office) → domain_in self.new ≡ domain_of (with_template (as_project office (domain_in self.old)) template plans.items)) }
        ensures err { OnErr result (domain_in self.new ≡ domain_in self.old) }
    {
        let units = units_of_plans(alloc, plans)?;
        let template = Template::of(alloc, template)?;
        self.units = units;
        self.template = template;
        Ok(())
    }
}

/// Puts the domains under a policy.
fn put_domains(domains: &mut BTreeMap<String, DomainMaps>, policy: &Policy)
    ensures { (office : Office) → office.domains ≡ domains_in domains.old → AreWithin office policy.now → domains_in domains.new ≡ (office_under office policy.now).domains }
{
    if !policy.reviews {
        domains.retain(|_, domain| {
            domain.unapprove();
            true
        });
    }
}

impl OfficeMaps {
    ghost use Rattle.units.specs.Project.{with_unit};
    ghost use Rattle.office_maps.specs.OfficeIn.{office_in, place_of};
    ghost use Rattle.office_specification.specs.OfficeChanges.{changed, StaysWithin};

    /// Puts a unit at a place of a domain, instead of what stood there; nothing where there is no such domain.
    ///
    /// `AllocError` where a growth was refused; then nothing changed.
    pub fn put_unit(&mut self, domain: &Name, place: Place, unit: Unit) -> Result<(), AllocError>
        ensures ok { OnOk result (office_in self.new
            ≡ with_project (office_in self.old) domain.now (with_unit (project_in (office_in self.old) domain.now) (place_of place) unit)) }
        ensures err { OnErr result (office_in self.new ≡ office_in self.old) }
    {
        match self.domains.get_mut(domain.as_str()) {
            Some(own) => own.put_unit(place, unit),
            None => {
                drop(place);
                drop(unit);
                Ok(())
            }
        }
    }

    /// Makes what an office act changes.
    ///
    /// `Memory` where a growth was refused; then nothing changed.
    pub fn change(&mut self, alloc: Global, change: Change) -> Result<(), Memory>
        requires within { StaysWithin (office_in self.old) change }
        ensures ok { OnOk result (office_in self.new ≡ changed (office_in self.old) change) }
        ensures err { OnErr result (office_in self.new ≡ office_in self.old) }
    {
        match change {
            Change::OneRole(name, role) => {
                let done = self.change_role(alloc, &name, role);
                drop(name);
                done
            }
            Change::NewPolicy(policy) => {
                self.change_policy(policy);
                Ok(())
            }
            Change::NewDomain(domain) => {
                let done = self.add_domain(alloc, &domain);
                drop(domain);
                done
            }
            Change::InDomain(domain, change) => {
                let done = self.change_domain(alloc, &domain, change);
                drop(domain);
                done
            }
        }
    }

    /// Sets a name's role.
    fn change_role(&mut self, alloc: Global, name: &Name, role: Role) -> Result<(), Memory>
        ensures ok { OnOk result (office_in self.new ≡ with_team (office_in self.old) (set_role name.now role (office_in self.old).team)) }
        ensures err { OnErr result (office_in self.new ≡ office_in self.old) }
    {
        Ok(put_role(alloc, &mut self.team, name, role)?)
    }

    /// Sets the policy, with what it does to units of all domains.
    fn change_policy(&mut self, policy: Policy)
        requires within { AreWithin (office_in self.old) policy }
        ensures { office_in self.new ≡ office_under (office_in self.old) policy }
    {
        put_domains(&mut self.domains, &policy);
        self.policy = policy;
    }

    /// Puts a domain in, with no message and no language.
    fn add_domain(&mut self, alloc: Global, domain: &Name) -> Result<(), Memory>
        ensures ok { OnOk result (office_in self.new ≡ with_domain (office_in self.old) domain.now) }
        ensures err { OnErr result (office_in self.new ≡ office_in self.old) }
    {
        let empty = DomainMaps::empty(alloc)?;
        Ok(put_domain(alloc, &mut self.domains, domain.as_str(), empty)?)
    }

    /// Changes a domain; nothing where there is no such domain.
    fn change_domain(
        &mut self,
        alloc: Global,
        domain: &Name,
        change: DomainChange,
    ) -> Result<(), Memory>
        ensures ok { OnOk result (office_in self.new
            ≡ with_project (office_in self.old) domain.now (changed_project (project_in (office_in self.old) domain.now) change)) }
        ensures err { OnErr result (office_in self.new ≡ office_in self.old) }
    {
        match self.domains.get_mut(domain.as_str()) {
            Some(own) => own.change(alloc, change),
            None => {
                drop(change);
                Ok(())
            }
        }
    }
}
