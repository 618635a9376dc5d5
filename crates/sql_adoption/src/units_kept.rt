//! Whether the domains of tables by domains keep their rules: the units of one language after the other are walked, and the suggestions on them, and of each
//! language it is told what its units count.
ghost use Rattle.std.specs.Prelude.{◌≡◌, ◌≤◌, ◌↔◌, true, false, Some, length, IfErr, IsTrue, OnOk};
ghost use Rattle.sqlite.specs.Held.{state};
ghost use Rattle.sqlite.specs.State.{HasCleanDisk};
ghost use Rattle.office_maps.specs.OfficeIn.{lent_project, office_in};
ghost use Rattle.po_text.specs.Texts.{Text};
ghost use Rattle.sql_schema.specs.Layouts.{by_domain};
ghost use Rattle.sql_schema.specs.Whole.{IsIdleOver, IsLookUp};
ghost use Rattle.units.specs.Office.{project_in};
ghost use Rattle.units.specs.Rules.{rule_at};
ghost use Rattle.rule_tests.specs.Given.{AreAll};
ghost use Rattle.sql_adoption.specs.FigureRows.{AreCounted, CountsOneMore, places_of};
ghost use Rattle.sql_adoption.specs.FramesKept.{AreLanguageRows, CountsLangs, KeepsDomain, KeepsFrame, KeepsLang, KeepsThere, RefusesEither, StandsDomain, StandsFrame, StandsThere, TestsDomain, TestsDomains, TestsLang, TestsLangs, TestsProject, walked_counts, walked_of};
ghost use Rattle.sql_adoption.specs.LanguagesKept.{AreUnitsTold, IsLanguageKept, StandsLanguage, SuggestionsAreFormed, SuggestionsStand, UnitsStand, walked_tally};
ghost use Rattle.sql_adoption.specs.OwnedRows.{RefusesUnless};
ghost use Rattle.sql_adoption.specs.Reading.{HoldsAll, OpensTruly};

use crate::faults::{Mismatch, OpenFault};
use crate::language_tallies::Counted;
use crate::office_put::ReadOffice;
use crate::unit_sinks::{Suggestions, Told, Units};
use office_maps::ProjectMaps;
use office_specification::{Language, Tally};
use rule_tests::keeps_bare_rules;
use sql_statements::unit_walks::{walk_suggestions, walk_units};
use sqlite::{Alter, Connection};
use std::alloc::{AllocError, Global};
use units::{Lang, Name};

/// What is told of a language's units.
fn told_units<S: Alter>(
    connection: &mut Connection<S>,
    alloc: Global,
    project: &ProjectMaps<'_>,
    domain: &Name,
    lang: &Lang,
) -> Result<Told, OpenFault>
    requires autocommit { connection.old.in_transaction ≡ false }
    requires idle { IsIdleOver by_domain (state S.Store connection.old) }
    requires is_open { HasCleanDisk (state S.Store connection.old) → IsTrue (state S.Store connection.old).is_open }
    ensures found { IsLookUp (state S.Store connection.old) (state S.Store connection.new) result (λ db told. AreUnitsTold db (lent_project project.now) domain.now lang.now told) }
    ensures refused { IfErr result (λ fault. HasCleanDisk (state S.Store connection.new) → RefusesUnless (UnitsStand (state S.Store connection.old).now domain.now lang.now) fault) }
    ensures disk { OpensTruly (state S.Store connection.old) (state S.Store connection.new) result }
{
    let mut units = Units {
        alloc,
        project,
        told: Told::nothing(),
    };
    walk_units(connection, domain.as_str(), lang.as_str(), &mut units)?;
    Ok(units.told)
}

/// Tests the suggestions on a language's units.
fn keep_suggestions<S: Alter>(
    connection: &mut Connection<S>,
    alloc: Global,
    language: &Language,
    domain: &Name,
    lang: &Lang,
) -> Result<(), OpenFault>
    requires autocommit { connection.old.in_transaction ≡ false }
    requires idle { IsIdleOver by_domain (state S.Store connection.old) }
    requires is_open { HasCleanDisk (state S.Store connection.old) → IsTrue (state S.Store connection.old).is_open }
    ensures found { IsLookUp (state S.Store connection.old) (state S.Store connection.new) result (λ db _. SuggestionsStand db domain.now lang.now × SuggestionsAreFormed db language.now.rule domain.now lang.now) }
    ensures refused { IfErr result (λ fault. HasCleanDisk (state S.Store connection.new) → RefusesEither (SuggestionsStand (state S.Store connection.old).now domain.now lang.now) (SuggestionsAreFormed (state S.Store connection.old).now language.now.rule domain.now lang.now) fault) }
    ensures disk { OpensTruly (state S.Store connection.old) (state S.Store connection.new) result }
{
    let mut suggestions = Suggestions {
        alloc,
        rule: &language.rule,
        kept: true,
    };
    walk_suggestions(connection, domain.as_str(), lang.as_str(), &mut suggestions)?;
    if suggestions.kept {
        Ok(())
    } else {
        Err(OpenFault::Foreign(Mismatch::BrokenRules))
    }
}

/// Whether all of a language's units keep the rules, and no fewer are current than the template has entries.
fn is_whole(project: &ProjectMaps<'_>, told: &Told) -> bool
    ensures { (result ≡ true) ↔ ((told.now.kept ≡ true) × (length (lent_project project.now).template ≤ told.now.current)) }
{
    told.kept && told.current >= project.domain.template.catalogue.entries().len()
}

/// Notes what a language's units count.
fn note_counted<'a>(
    counted: &mut Vec<Counted<'a>>,
    domain: &'a Name,
    lang: &'a Lang,
    tally: Tally,
) -> Result<(), AllocError>
    ensures { OnOk result (CountsOneMore (Some tally) (domain.now, lang.now) counted.old.items counted.new.items) }
{
    counted.push(Counted {
        domain,
        lang,
        tally,
    })?;
    Ok(())
}

/// Tests a language of a domain, and counts its units.
fn keep_language<'a, S: Alter>(
    connection: &mut Connection<S>,
    alloc: Global,
    project: &ProjectMaps<'_>,
    domain: &'a Name,
    lang: &'a Lang,
    language: &Language,
    counted: &mut Vec<Counted<'a>>,
) -> Result<(), OpenFault>
    requires autocommit { connection.old.in_transaction ≡ false }
    requires idle { IsIdleOver by_domain (state S.Store connection.old) }
    requires is_open { HasCleanDisk (state S.Store connection.old) → IsTrue (state S.Store connection.old).is_open }
    requires rule { rule_at (lent_project project.now) lang.now ≡ language.now.rule }
    ensures found { IsLookUp (state S.Store connection.old) (state S.Store connection.new) result (λ db _. AreLanguageRows db (lent_project project.now) domain.now lang.now
        × CountsOneMore (Some (walked_tally db (lent_project project.now).template domain.now lang.now)) (domain.now, lang.now) counted.old.items counted.new.items) }
    ensures refused { IfErr result (λ fault. HasCleanDisk (state S.Store connection.new) → RefusesEither (StandsLanguage (state S.Store connection.old).now domain.now lang.now) (IsLanguageKept (state S.Store connection.old).now (lent_project project.now) domain.now lang.now) fault) }
    ensures disk { OpensTruly (state S.Store connection.old) (state S.Store connection.new) result }
{
    let told = told_units(connection, alloc, project, domain, lang)?;
    if !is_whole(project, &told) {
        return Err(OpenFault::Foreign(Mismatch::BrokenRules));
    }
    keep_suggestions(connection, alloc, language, domain, lang)?;
    note_counted(counted, domain, lang, told.tally)?;
    Ok(())
}

/// Tests a language of a domain, if it is there.
fn keep_if_there<'a, S: Alter>(
    connection: &mut Connection<S>,
    alloc: Global,
    project: &ProjectMaps<'_>,
    domain: &'a Name,
    lang: &'a Lang,
    counted: &mut Vec<Counted<'a>>,
) -> Result<(), OpenFault>
    requires autocommit { connection.old.in_transaction ≡ false }
    requires idle { IsIdleOver by_domain (state S.Store connection.old) }
    requires is_open { HasCleanDisk (state S.Store connection.old) → IsTrue (state S.Store connection.old).is_open }
    ensures found { IsLookUp (state S.Store connection.old) (state S.Store connection.new) result (λ db _. TestsLang db (lent_project project.now) domain.now lang.now × CountsOneMore (walked_of db (lent_project project.now) domain.now lang.now) (domain.now, lang.now) counted.old.items counted.new.items) }
    ensures refused { IfErr result (λ fault. HasCleanDisk (state S.Store connection.new) → RefusesEither (StandsDomain (state S.Store connection.old).now (lent_project project.now) domain.now) (KeepsLang (state S.Store connection.old).now (lent_project project.now) domain.now lang.now) fault) }
    ensures disk { OpensTruly (state S.Store connection.old) (state S.Store connection.new) result }
{
    match project.domain.languages.get(lang) {
        Some(language) => keep_language(
            connection, alloc, project, domain, lang, language, counted,
        ),
        None => Ok(()),
    }
}

/// Tests the languages of a domain.
fn keep_languages<'a, S: Alter>(
    connection: &mut Connection<S>,
    alloc: Global,
    project: &ProjectMaps<'_>,
    domain: &'a Name,
    langs: &'a [Lang],
    counted: &mut Vec<Counted<'a>>,
) -> Result<(), OpenFault>
    requires autocommit { connection.old.in_transaction ≡ false }
    requires idle { IsIdleOver by_domain (state S.Store connection.old) }
    requires is_open { HasCleanDisk (state S.Store connection.old) → IsTrue (state S.Store connection.old).is_open }
    ensures found { IsLookUp (state S.Store connection.old) (state S.Store connection.new) result (λ db _. TestsLangs db (lent_project project.now) domain.now langs.now × CountsLangs db (lent_project project.now) domain.now langs.now counted.old.items counted.new.items) }
    ensures refused { IfErr result (λ fault. HasCleanDisk (state S.Store connection.new) → RefusesEither (StandsDomain (state S.Store connection.old).now (lent_project project.now) domain.now) ((lang : Text) → KeepsLang (state S.Store connection.old).now (lent_project project.now) domain.now lang) fault) }
    ensures disk { OpensTruly (state S.Store connection.old) (state S.Store connection.new) result }
{
    for lang in langs {
        keep_if_there(connection, alloc, project, domain, lang, counted)?;
    }
    Ok(())
}

/// Tests a domain that is there. All its languages have to be among `langs`.
fn keep_project<'a, S: Alter>(
    connection: &mut Connection<S>,
    alloc: Global,
    project: &ProjectMaps<'_>,
    domain: &'a Name,
    langs: &'a [Lang],
    counted: &mut Vec<Counted<'a>>,
) -> Result<(), OpenFault>
    requires autocommit { connection.old.in_transaction ≡ false }
    requires idle { IsIdleOver by_domain (state S.Store connection.old) }
    requires is_open { HasCleanDisk (state S.Store connection.old) → IsTrue (state S.Store connection.old).is_open }
    requires all { AreAll (lent_project project.now).headers langs.now }
    ensures found { IsLookUp (state S.Store connection.old) (state S.Store connection.new) result (λ db _. TestsProject db (lent_project project.now) domain.now × CountsLangs db (lent_project project.now) domain.now langs.now counted.old.items counted.new.items) }
    ensures refused { IfErr result (λ fault. HasCleanDisk (state S.Store connection.new) → RefusesEither (StandsDomain (state S.Store connection.old).now (lent_project project.now) domain.now) (KeepsDomain (state S.Store connection.old).now (lent_project project.now) domain.now) fault) }
    ensures disk { OpensTruly (state S.Store connection.old) (state S.Store connection.new) result }
{
    if !keeps_bare_rules(alloc, project, langs)? {
        return Err(OpenFault::Foreign(Mismatch::BrokenRules));
    }
    keep_languages(connection, alloc, project, domain, langs, counted)
}

/// Tests a domain, if it is there.
fn keep_domain<'a, S: Alter>(
    connection: &mut Connection<S>,
    alloc: Global,
    frame: &'a ReadOffice,
    domain: &'a Name,
    counted: &mut Vec<Counted<'a>>,
) -> Result<(), OpenFault>
    requires autocommit { connection.old.in_transaction ≡ false }
    requires idle { IsIdleOver by_domain (state S.Store connection.old) }
    requires is_open { HasCleanDisk (state S.Store connection.old) → IsTrue (state S.Store connection.old).is_open }
    requires holds { HoldsAll frame.now }
    ensures found { IsLookUp (state S.Store connection.old) (state S.Store connection.new) result (λ db _. TestsDomain db (office_in frame.now.maps) domain.now
        × CountsLangs db (project_in (office_in frame.now.maps) domain.now) domain.now frame.now.langs.items counted.old.items counted.new.items) }
    ensures refused { IfErr result (λ fault. HasCleanDisk (state S.Store connection.new) → RefusesEither (StandsThere (state S.Store connection.old).now (office_in frame.now.maps) domain.now) (KeepsThere (state S.Store connection.old).now (office_in frame.now.maps) domain.now) fault) }
    ensures disk { OpensTruly (state S.Store connection.old) (state S.Store connection.new) result }
{
    let langs = frame.langs.as_slice();
    match frame.maps.project(domain) {
        Some(project) => keep_project(connection, alloc, &project, domain, langs, counted),
        None => Ok(()),
    }
}

/// Tests all domains of a frame, and counts the units of all their languages.
pub(crate) fn keep_domains<'a, S: Alter>(
    connection: &mut Connection<S>,
    alloc: Global,
    frame: &'a ReadOffice,
) -> Result<Vec<Counted<'a>>, OpenFault>
    requires autocommit { connection.old.in_transaction ≡ false }
    requires idle { IsIdleOver by_domain (state S.Store connection.old) }
    requires is_open { HasCleanDisk (state S.Store connection.old) → IsTrue (state S.Store connection.old).is_open }
    requires holds { HoldsAll frame.now }
    ensures found { IsLookUp (state S.Store connection.old) (state S.Store connection.new) result (λ db counted. TestsDomains db (office_in frame.now.maps) frame.now.domains.items
        × AreCounted (walked_counts db (office_in frame.now.maps)) (places_of frame.now.domains.items frame.now.langs.items) counted.items) }
    ensures refused { IfErr result (λ fault. HasCleanDisk (state S.Store connection.new) → RefusesEither (StandsFrame (state S.Store connection.old).now (office_in frame.now.maps)) (KeepsFrame (state S.Store connection.old).now (office_in frame.now.maps)) fault) }
    ensures disk { OpensTruly (state S.Store connection.old) (state S.Store connection.new) result }
{
    let domains = frame.domains.as_slice();
    let mut counted = Vec::new(alloc);
    for domain in domains {
        keep_domain(connection, alloc, frame, domain, &mut counted)?;
    }
    Ok(counted)
}
