//! A domain of an office in maps, lent with the office's team and policy: what acts read of it.

ghost use Rattle.std.specs.Prelude.{◌≡◌, Some, IfOk, option_map};
ghost use Rattle.std.specs.Option.{option_copied};
ghost use Rattle.std.specs.FinMap as maps;
ghost use Rattle.units.specs.Project.{entry_of, role_of, view_of};
ghost use Rattle.review.specs.Parts.{bare};

use crate::domain_maps::DomainMaps;
use crate::place::{OrderedKey, Place};
use crate::unit_parts::{copies_without_votes, copy_of_number, unit_written};
use office_specification::{ActContext, UnitWrite};
use po_text::{Duplicate, Entry, Items};
use review::with_suggestions;
use std::alloc::{AllocError, Global};
use std::collections::BTreeMap;
use units::{Key, Lang, Name, Policy, Role, Suggestion, Unit, UnitView};
use uuid::Uuid;

/// One domain of an office, with the office's team and policy.
#[derive(Drop)]
pub struct ProjectMaps<'a> {
    pub domain: &'a DomainMaps,
    pub team: &'a BTreeMap<String, Role>,
    pub policy: Policy,
}

impl<'a> ProjectMaps<'a> {
    ghost use Rattle.office_maps.specs.OfficeIn.{lent_project, place_of};
    ghost use Rattle.office_maps.specs.ActContexts.{context_with};
    ghost use Rattle.office_specification.specs.UnitAccess.{context_of, without_suggestions, suggestions_at, suggestion_at, written_at};

    /// What an act on a unit needs to know; nothing where the language isn't there.
    ///
    /// `AllocError` where a growth was refused.
    pub fn context_of(
        &self,
        lang: &Lang,
        key: &Key,
        name: &Name,
    ) -> Result<Option<ActContext>, AllocError>
        ensures { IfOk result (λ r. r ≡ context_of (lent_project self.now) lang.now key.now name.now) }
    {
        let view = self.unit_of(lang, key)?;
        self.context_with(lang, name, view)
    }

    /// The same but for the unit's suggestions, which aren't copied: the view has none.
    ///
    /// `AllocError` where a growth was refused.
    pub fn bare_context_of(
        &self,
        alloc: Global,
        lang: &Lang,
        key: &Key,
        name: &Name,
    ) -> Result<Option<ActContext>, AllocError>
        ensures { IfOk result (λ r. r ≡ without_suggestions (context_of (lent_project self.now) lang.now key.now name.now)) }
    {
        let view = self.bare_unit_of(alloc, lang, key)?;
        self.context_with(lang, name, view)
    }

    /// The suggestions on a unit, in their order, without the votes on them; none where the unit isn't there.
    ///
    /// `AllocError` where a growth was refused.
    pub fn suggestions_of(
        &self,
        alloc: Global,
        lang: &Lang,
        key: &Key,
    ) -> Result<Items<Suggestion>, AllocError>
        ensures { IfOk result (λ all. all ≡ suggestions_at (lent_project self.now) lang.now key.now) }
    {
        match self.unit_there(lang, key)? {
            Some(unit) => copies_without_votes(alloc, unit.suggestions.as_slice()),
            None => Ok(Items::new(alloc)),
        }
    }

    /// The suggestion of a number on a unit, with the votes on it; nothing where the unit or the suggestion isn't there.
    ///
    /// `AllocError` where a growth was refused.
    pub fn suggestion_of(
        &self,
        lang: &Lang,
        key: &Key,
        number: &Uuid,
    ) -> Result<Option<Suggestion>, AllocError>
        ensures { IfOk result (λ r. r ≡ suggestion_at (lent_project self.now) lang.now key.now number.now) }
    {
        match self.unit_there(lang, key)? {
            Some(unit) => copy_of_number(unit, *number),
            None => Ok(None),
        }
    }

    /// What a write leaves of a unit; nothing where the unit isn't there.
    ///
    /// `AllocError` where a growth was refused.
    pub fn written(
        &self,
        alloc: Global,
        lang: &Lang,
        key: &Key,
        write: UnitWrite,
    ) -> Result<Option<Unit>, AllocError>
        ensures { IfOk result (λ r. r ≡ option_map (λ view. view.unit) (written_at (lent_project self.now) lang.now key.now (Some write))) }
    {
        match self.unit_there(lang, key)? {
            Some(unit) => Ok(Some(unit_written(alloc, unit, write)?)),
            None => Ok(None),
        }
    }

    /// What an act needs to know that finds this view of its unit; nothing where the language isn't there.
    fn context_with(
        &self,
        lang: &Lang,
        name: &Name,
        view: Option<UnitView>,
    ) -> Result<Option<ActContext>, AllocError>
        ensures { IfOk result (λ r. r ≡ context_with (lent_project self.now) lang.now name.now view) }
    {
        let Some(language) = self.domain.languages.get(lang) else {
            drop(view);
            return Ok(None);
        };
        match language.rule.duplicate() {
            Ok(rule) => Ok(Some(ActContext {
                rule,
                policy: self.policy,
                role: self.role_of(name),
                view,
            })),
            Err(refused) => {
                drop(view);
                Err(refused)
            }
        }
    }

    /// A caller's role: who isn't in the team is a guest.
    pub fn role_of(&self, name: &Name) -> Role
        ensures { result ≡ role_of (lent_project self.now) name.now }
    {
        self.team.get(name.as_str()).copied().unwrap_or(Role::Guest)
    }

    /// A copy of a unit with its template's entry.
    fn unit_of(&self, lang: &Lang, key: &Key) -> Result<Option<UnitView>, AllocError>
        ensures { IfOk result (λ view. view ≡ view_of (lent_project self.now) (lang.now, key.now)) }
    {
        let place = Place::of(lang, key)?;
        let view = self.unit_at(&place);
        drop(place);
        view
    }

    /// A copy of the unit at a place with its template's entry.
    fn unit_at(&self, place: &Place) -> Result<Option<UnitView>, AllocError>
        ensures { IfOk result (λ view. view ≡ view_of (lent_project self.now) (place_of place.now)) }
    {
        let Some(unit) = self.domain.units.get(place) else {
            return Ok(None);
        };
        let source = self.source_of(&place.key)?;
        match unit.duplicate() {
            Ok(unit) => Ok(Some(UnitView { unit, source })),
            Err(refused) => {
                drop(source);
                Err(refused)
            }
        }
    }

    /// A copy of a unit without its suggestions, with its template's entry.
    fn bare_unit_of(
        &self,
        alloc: Global,
        lang: &Lang,
        key: &Key,
    ) -> Result<Option<UnitView>, AllocError>
        ensures { IfOk result (λ view. view ≡ option_map bare (view_of (lent_project self.now) (lang.now, key.now))) }
    {
        let place = Place::of(lang, key)?;
        let view = self.bare_unit_at(alloc, &place);
        drop(place);
        view
    }

    /// The same of the unit at a place.
    fn bare_unit_at(&self, alloc: Global, place: &Place) -> Result<Option<UnitView>, AllocError>
        ensures { IfOk result (λ view. view ≡ option_map bare (view_of (lent_project self.now) (place_of place.now))) }
    {
        let Some(unit) = self.domain.units.get(place) else {
            return Ok(None);
        };
        let source = self.source_of(&place.key)?;
        match with_suggestions(unit, Items::new(alloc)) {
            Ok(unit) => Ok(Some(UnitView { unit, source })),
            Err(refused) => {
                drop(source);
                Err(refused)
            }
        }
    }

    /// The unit of a language with a key.
    fn unit_there(&self, lang: &Lang, key: &Key) -> Result<Option<&Unit>, AllocError>
        ensures { IfOk result (λ unit. option_copied unit ≡ maps.get (lent_project self.now).units (lang.now, key.now)) }
    {
        let place = Place::of(lang, key)?;
        let unit = self.domain.units.get(&place);
        drop(place);
        Ok(unit)
    }

    /// A copy of the template's entry of a key.
    fn source_of(&self, key: &OrderedKey) -> Result<Option<Entry>, AllocError>
        ensures { IfOk result (λ entry. entry ≡ entry_of (lent_project self.now).template key.now.key) }
    {
        match self.domain.template.entry_of(key) {
            Some(entry) => Ok(Some(entry.duplicate()?)),
            None => Ok(None),
        }
    }
}
