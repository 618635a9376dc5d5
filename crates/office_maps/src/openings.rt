//! The offices that a desk may open with.

ghost use Rattle.std.specs.Prelude.{◌≡◌, [], ◌∷◌, Ok, true, codes, IfOk, OnOk};
ghost use Rattle.plural_expr.specs.Faults.{reading_of};
ghost use Rattle.office_maps.specs.OfficeIn.{domain_in, domains_in, office_in};
ghost use Rattle.std.specs.FinMap as maps;
ghost use Rattle.units.specs.Office.{empty_domain, main};
ghost use Rattle.units.specs.declared.unit.Role.TheVariants.{Manager};
ghost use Rattle.po_text.specs.Strings.{is_string};
ghost use Rattle.units.specs.Openings as opens;

use crate::changes::{add_member, put_domain};
use crate::domain_maps::DomainMaps;
use crate::languages::Languages;
use crate::office_maps::OfficeMaps;
use crate::template::Template;
use crate::unit_rows::add_unit;
use office_specification::Language;
use plural_expr::{PluralFault, PluralForms};
use po_text::{Catalogue, Entry, Forms, Items, PoString};
use std::alloc::{AllocError, Global};
use std::collections::BTreeMap;
use std::mem::replace;
use units::{
    AcceptAt, Key, Lang, Memory, Name, Policy, Revision, Role, Unit, UnitState, no_previous,
};

const DEMO_HEADER: &str =
    "Content-Type: text/plain; charset=UTF-8\nPlural-Forms: nplurals=2; plural=n != 1;\n";

const DEMO_RULE: &str = "nplurals=2; plural=n != 1;";

/// A policy that allows nothing but translations.
pub fn closed_policy() -> Policy
    ensures { result ≡ opens.closed_policy }
{
    Policy {
        reviews: false,
        guests_suggest: false,
        voting: false,
        accept_at: AcceptAt::try_new(0).unwrap(),
        placeholders: false,
        line_ends: false,
    }
}

/// A string of its own for a text that is one.
fn string(alloc: Global, text: &str) -> Result<PoString, AllocError>
    requires { is_string text.now ≡ true }
    ensures { IfOk result (λ string. string ≡ text.now) }
{
    match PoString::try_new(alloc, text)? {
        Some(string) => Ok(string),
        None => unreachable!(),
    }
}

fn one_form(alloc: Global, text: &str) -> Result<Forms, AllocError>
    requires { is_string text.now ≡ true }
    ensures { IfOk result (λ forms. forms ≡ text.now ∷ []) }
{
    Forms::one(alloc, string(alloc, text)?)
}

/// An entry with a msgid and one form.
fn plain_entry(alloc: Global, id: &str, form: &str) -> Result<Entry, AllocError>
    requires id { is_string id.now ≡ true }
    requires form { is_string form.now ≡ true }
    ensures { IfOk result (λ entry. entry ≡ opens.plain_entry id.now form.now) }
{
    let id = string(alloc, id)?;
    match one_form(alloc, form) {
        Ok(forms) => Ok(Entry {
            translator: Items::new(alloc),
            extracted: Items::new(alloc),
            references: Items::new(alloc),
            flags: Items::new(alloc),
            previous: no_previous(),
            ctx: None,
            id,
            plural: None,
            forms,
            obsolete: false,
        }),
        Err(refused) => {
            drop(id);
            Err(refused)
        }
    }
}

/// The demo's one unit, `Hello`, which has no translation.
pub fn demo_unit(alloc: Global) -> Result<Unit, AllocError>
    ensures { IfOk result (λ unit. unit ≡ opens.demo_unit) }
{
    let id = string(alloc, "Hello")?;
    match Forms::one(alloc, PoString::empty(alloc)) {
        Ok(forms) => Ok(Unit {
            key: Key { ctx: None, id },
            plural: None,
            forms,
            state: UnitState::Untranslated,
            obsolete: false,
            revision: Revision::try_new(1).unwrap(),
            comment: Items::new(alloc),
            previous: no_previous(),
            suggestions: Items::new(alloc),
        }),
        Err(refused) => {
            drop(id);
            Err(refused)
        }
    }
}

fn demo_rule(alloc: Global) -> Result<PluralForms, AllocError>
    ensures { IfOk result (λ rule. reading_of (codes "nplurals=2; plural=n != 1;") ≡ Ok rule) }
{
    match PluralForms::parse(alloc, DEMO_RULE) {
        Ok(rule) => Ok(rule),
        Err(fault) => match fault {
            PluralFault::Memory => Err(AllocError),
            _ => unreachable!(),
        },
    }
}

/// The code of the demo's one language.
pub fn demo_lang() -> Lang
    ensures { result ≡ codes "de" }
{
    match Lang::try_new("de") {
        Some(lang) => lang,
        None => unreachable!(),
    }
}

/// The demo's one language: its header, and the rule that this names.
pub fn demo_language(alloc: Global) -> Result<Language, AllocError>
    ensures { IfOk result (λ language. language.header ≡ opens.plain_entry [] opens.demo_header) }
{
    let header = plain_entry(alloc, "", DEMO_HEADER)?;
    match demo_rule(alloc) {
        Ok(rule) => Ok(Language { header, rule }),
        Err(refused) => {
            drop(header);
            Err(refused)
        }
    }
}

/// The one entry of the demo's template, `Hello`.
pub fn demo_entry(alloc: Global) -> Result<Entry, AllocError>
    ensures { IfOk result (λ entry. entry ≡ opens.plain_entry (codes "Hello") []) }
{
    plain_entry(alloc, "Hello", "")
}

fn demo_catalogue(alloc: Global) -> Result<Catalogue, AllocError>
    ensures { IfOk result (λ catalogue. catalogue ≡ opens.demo_domain.template) }
{
    let entry = demo_entry(alloc)?;
    let mut entries = Vec::new(alloc);
    entries.push(entry)?;
    let made = Catalogue::try_new(alloc, entries)?;
    match made {
        Some(catalogue) => Ok(catalogue),
        None => unreachable!(),
    }
}

/// Makes an empty domain that of the demo office, whose language is this one.
fn put_demo(alloc: Global, domain: &mut DomainMaps, lang: &Lang) -> Result<(), AllocError>
    requires empty { domain_in domain.old ≡ empty_domain }
    requires lang { lang.now ≡ codes "de" }
    ensures { OnOk result (domain_in domain.new ≡ opens.demo_domain) }
{
    add_unit(&mut domain.units, lang, demo_unit(alloc)?)?;
    domain.languages.insert(alloc, lang, demo_language(alloc)?)?;
    let template = Template::of(alloc, demo_catalogue(alloc)?)?;
    drop(replace(&mut domain.template, template));
    Ok(())
}

fn demo_domain(alloc: Global, lang: &Lang) -> Result<DomainMaps, AllocError>
    requires { lang.now ≡ codes "de" }
    ensures { IfOk result (λ domain. domain_in domain ≡ opens.demo_domain) }
{
    let mut domain = DomainMaps::empty(alloc)?;
    match put_demo(alloc, &mut domain, lang) {
        Ok(()) => Ok(domain),
        Err(refused) => {
            drop(domain);
            Err(refused)
        }
    }
}

/// The domain `main` alone.
fn main_alone(alloc: Global, domain: DomainMaps) -> Result<BTreeMap<String, DomainMaps>, AllocError>
    ensures { IfOk result (λ domains. domains_in domains ≡ maps.insert maps.empty main (domain_in domain)) }
{
    let mut domains = BTreeMap::new(alloc);
    match put_domain(alloc, &mut domains, "main", domain) {
        Ok(()) => Ok(domains),
        Err(refused) => {
            drop(domains);
            Err(refused)
        }
    }
}

/// An office with one manager, and with this domain for its one.
fn opened(alloc: Global, manager: &str, domain: DomainMaps) -> Result<OfficeMaps, AllocError>
    ensures domains { IfOk result (λ office. (office_in office).domains ≡ maps.insert maps.empty main (domain_in domain)) }
    ensures team { IfOk result (λ office. (office_in office).team ≡ maps.insert maps.empty manager.now Manager) }
    ensures policy { IfOk result (λ office. (office_in office).policy ≡ opens.closed_policy) }
{
    let domains = main_alone(alloc, domain)?;
    let mut office = OfficeMaps {
        domains,
        team: BTreeMap::new(alloc),
        policy: closed_policy(),
    };
    match add_member(alloc, &mut office.team, manager, Role::Manager) {
        Ok(()) => Ok(office),
        Err(refused) => {
            drop(office);
            Err(refused)
        }
    }
}

fn demo_in(alloc: Global, lang: &Lang) -> Result<OfficeMaps, AllocError>
    requires { lang.now ≡ codes "de" }
    ensures { IfOk result (λ office. office_in office ≡ opens.demo) }
{
    let domain = demo_domain(alloc, lang)?;
    let mut office = opened(alloc, "root", domain)?;
    match add_member(alloc, &mut office.team, "ann", Role::Translator) {
        Ok(()) => Ok(office),
        Err(refused) => {
            drop(office);
            Err(refused)
        }
    }
}

impl OfficeMaps {
    /// An office with one manager and nothing else.
    ///
    /// `Memory` where a growth was refused.
    pub fn opening(alloc: Global, manager: &Name) -> Result<OfficeMaps, Memory>
        ensures { IfOk result (λ office. office_in office ≡ opens.opening manager.now) }
    {
        let domain = DomainMaps::empty(alloc)?;
        Ok(opened(alloc, manager.as_str(), domain)?)
    }

    /// The demo office: the manager `root` and the translator `ann`, and the language `de` with the message `Hello`, which has no
    /// translation yet.
    ///
    /// `Memory` where a growth was refused.
    pub fn demo(alloc: Global) -> Result<OfficeMaps, Memory>
        ensures { IfOk result (λ office. office_in office ≡ opens.demo) }
    {
        Ok(demo_in(alloc, &demo_lang())?)
    }
}
