//! How the counts of a language's units move with what is done to an office.

ghost use Rattle.std.specs.Prelude.{◌≡◌, List, map, flat_map, true, false, Some, None, option_map};
ghost use Rattle.std.specs.List.{IsDistinct};
ghost use Rattle.std.specs.FinMap as maps;
ghost use Rattle.po_text.specs.declared.entry.Entry.{Entry};
ghost use Rattle.po_text.specs.Texts.{Text, text_eq};
ghost use Rattle.units.specs.Changes.{office_under, with_domain};
ghost use Rattle.units.specs.Office.{Office, same_domain, project_in, with_project};
ghost use Rattle.units.specs.Offices.{IsOffice};
ghost use Rattle.units.specs.Project.{Project, place_eq};
ghost use Rattle.units.specs.declared.unit.Policy.{Policy};
ghost use Rattle.units.specs.declared.unit.Role.{Role};
ghost use Rattle.units.specs.declared.unit.Key.{Key};
ghost use Rattle.units.specs.declared.unit.Unit.{Unit};
ghost use Rattle.units.specs.declared.unit.UnitView.{UnitView};
ghost use Rattle.template_update.specs.declared.plans.Plan.{Plan};
ghost use Rattle.office_specification.specs.ProjectActs.{LanguagePlan, placed, with_language, with_template};
ghost use Rattle.office_specification.specs.OfficeChanges.{changed};
ghost use Rattle.office_specification.specs.UnitAccess.{with_view_in};
ghost use Rattle.office_specification.specs.declared.values.Change.TheVariants.{OneRole};
ghost use Rattle.office_specification.specs.Tally.{counts_in, counts_of};
ghost use Rattle.office_laws.specs.Tallies.{counted, moved, counts_under, planned};

/// A unit's new view takes off its language's counts what the unit counted and adds what it counts now; those of every other language
/// and of every other domain stay, and with no view all stay.
pub fn counts_follow_a_unit()
    ensures moves { (office : Office) (domain lang : Text) (key : Key) (old : Unit) (view : UnitView) → maps.get (project_in office domain).units (lang, key) ≡ Some old
        → counts_of (project_in (with_view_in office domain lang key (Some view)) domain) lang
        ≡ option_map (λ counts. moved counts (counted (project_in office domain).template old) (counted (project_in office domain).template view.unit)) (counts_of (project_in office domain) lang) }
    ensures others { (office : Office) (domain lang other : Text) (key : Key) (old : Unit) (view : UnitView) → maps.get (project_in office domain).units (lang, key) ≡ Some old
        → text_eq other lang ≡ false
        → counts_of (project_in (with_view_in office domain lang key (Some view)) domain) other ≡ counts_of (project_in office domain) other }
    ensures other_domains { (office : Office) (domain other lang any : Text) (key : Key) (view : UnitView) → same_domain other domain ≡ false
        → counts_of (project_in (with_view_in office domain lang key (Some view)) other) any ≡ counts_of (project_in office other) any }
    ensures refused { (office : Office) (domain other lang any : Text) (key : Key)
        → counts_of (project_in (with_view_in office domain lang key None) other) any ≡ counts_of (project_in office other) any }
{}

/// A role and a new domain move no language's counts. A policy without reviews counts in each domain what was approved as translated, one
/// with reviews moves none. A new language has the counts of its plan's units, and moves no other's of its domain. A new template gives
/// each language of its domain the counts of its plan's units, by the new template. Neither moves those of another domain. In a plan no
/// two units stand at one place, as none do in a domain.
pub fn counts_follow_an_office_act()
    ensures role { (office : Office) (name domain lang : Text) (role : Role)
        → counts_of (project_in (changed office (OneRole name role)) domain) lang ≡ counts_of (project_in office domain) lang }
    ensures policy { (office : Office) (policy : Policy) (domain lang : Text)
        → counts_of (project_in (office_under office policy) domain) lang ≡ option_map (counts_under policy) (counts_of (project_in office domain) lang) }
    ensures domain { (office : Office) (domain other lang : Text) → maps.contains_key office.domains domain ≡ false
        → counts_of (project_in (with_domain office domain) other) lang ≡ counts_of (project_in office other) lang }
    ensures language { (office : Office) → IsOffice office → (domain lang : Text) → maps.contains_key office.domains domain ≡ true
        → (header : Entry) (plan : Plan) → maps.contains_key (project_in office domain).headers lang ≡ false → IsDistinct place_eq (map (λ e. e.0) (placed (lang, plan)))
        → counts_of (project_in (with_project office domain (with_language (project_in office domain) lang header plan)) domain) lang
        ≡ Some (counts_in (project_in office domain).template plan.units) }
    ensures other_languages { (office : Office) → IsOffice office → (domain lang : Text)
        → (header : Entry) (plan : Plan) → maps.contains_key (project_in office domain).headers lang ≡ false → IsDistinct place_eq (map (λ e. e.0) (placed (lang, plan)))
        → (other : Text) → text_eq other lang ≡ false
        → counts_of (project_in (with_project office domain (with_language (project_in office domain) lang header plan)) domain) other
        ≡ counts_of (project_in office domain) other }
    ensures template { (office : Office) (domain : Text) (template : List Entry) (plans : List LanguagePlan) (lang : Text)
        → IsDistinct place_eq (map (λ e. e.0) (flat_map placed plans))
        → counts_of (project_in (with_project office domain (with_template (project_in office domain) template plans)) domain) lang
        ≡ option_map (λ _. counts_in template (planned lang plans)) (maps.get (project_in office domain).headers lang) }
    ensures other_domains { (office : Office) (domain other : Text) (project : Project) (lang : Text) → same_domain other domain ≡ false
        → counts_of (project_in (with_project office domain project) other) lang ≡ counts_of (project_in office other) lang }
{}
