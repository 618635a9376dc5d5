//! What acts on a template and a language need to know of their domain.

ghost use Rattle.std.specs.Prelude.{◌≡◌, true, Some, IfOk, option_map};
ghost use Rattle.std.specs.FinMap as maps;
ghost use Rattle.units.specs.Limits.{is_lang};
ghost use Rattle.units.specs.Project.{languages, units_of};
ghost use Rattle.units.specs.Rules.{rule_at};
ghost use Rattle.template_update.specs.Updates.{plan_of};
ghost use Rattle.office_specification.specs.ProjectActs.{plan_at, plans};

use crate::project_maps::ProjectMaps;
use crate::unit_rows::units_of;
use office_specification::Language;
use po_text::Catalogue;
use std::alloc::{AllocError, Global};
use template_update::{Plan, plan};
use units::{Lang, Memory};

/// The language of a code.
fn lang_of(code: &str) -> Lang
    requires { is_lang code.now ≡ true }
    ensures { result ≡ code.now }
{
    match Lang::try_new(code) {
        Some(lang) => lang,
        None => unreachable!(),
    }
}

impl<'a> ProjectMaps<'a> {
    ghost use Rattle.office_maps.specs.OfficeIn.{lent_project};

    /// How many languages there are.
    pub fn language_count(&self) -> usize
        ensures { result ≡ maps.len (lent_project self.now).headers }
    {
        self.domain.languages.rows.len()
    }

    /// The languages, in the order of their codes.
    pub fn languages(&self, alloc: Global) -> Result<Vec<Lang>, AllocError>
        ensures { IfOk result (λ all. all.items ≡ languages (lent_project self.now)) }
    {
        let mut all = Vec::new(alloc);
        for (code, _language) in self.domain.languages.rows.iter() {
            all.push(lang_of(code.as_str()))?;
        }
        Ok(all)
    }

    /// What a new template makes of a language.
    fn plan_at(
        &self,
        alloc: Global,
        lang: &Lang,
        language: &Language,
        next: &Catalogue,
    ) -> Result<Option<Plan>, Memory>
        ensures { Some language.now.header ≡ maps.get (lent_project self.now).headers lang.now
            → IfOk result (λ found. found ≡ plan_of (lent_project self.now).template (units_of (lent_project self.now) lang.now) next.now (rule_at (lent_project self.now) lang.now)) }
    {
        let units = units_of(alloc, &self.domain.units, lang)?;
        let planned = plan(
            alloc,
            &self.domain.template.catalogue,
            units.as_slice(),
            next,
            &language.rule,
        );
        drop(units);
        planned
    }

    /// What a new template makes of the language with a code.
    fn planned(
        &self,
        alloc: Global,
        code: &str,
        language: &Language,
        next: &Catalogue,
    ) -> Result<Option<(Lang, Plan)>, Memory>
        requires { is_lang code.now ≡ true }
        ensures { Some language.now.header ≡ maps.get (lent_project self.now).headers code.now
            → IfOk result (λ found. found ≡ plan_at (lent_project self.now) next.now code.now) }
    {
        let lang = lang_of(code);
        match self.plan_at(alloc, &lang, language, next)? {
            Some(plan) => Ok(Some((lang, plan))),
            None => Ok(None),
        }
    }

    /// What a new template makes of each language. None where a limit would be passed.
    pub fn plans(
        &self,
        alloc: Global,
        next: &Catalogue,
    ) -> Result<Option<Vec<(Lang, Plan)>>, Memory>
        ensures { IfOk result (λ found. option_map (λ all. all.items) found ≡ plans (lent_project self.now) next.now) }
    {
        let mut all = Vec::new(alloc);
        for (code, language) in self.domain.languages.rows.iter() {
            let Some(planned) = self.planned(alloc, code.as_str(), language, next)? else {
                return Ok(None);
            };
            all.push(planned)?;
        }
        Ok(Some(all))
    }
}
