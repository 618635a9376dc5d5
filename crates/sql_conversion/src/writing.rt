//! The office of one domain, written by domains inside a transaction, where nothing of it is yet.
ghost use Rattle.std.specs.Prelude.{◌≡◌, [], ◌∷◌, unwrap_or, IfOk, IsTrue, ◌≢◌, IfErr};
ghost use Rattle.sqlite.specs.Held.{state};
ghost use Rattle.sqlite.specs.State.{HasCleanDisk};
ghost use Rattle.units.specs.Office.{project_in};
ghost use Rattle.units.specs.Offices.{IsOffice};
ghost use Rattle.units.specs.Project.{units_of};
ghost use Rattle.office_specification.specs.Counting.{none_counted};
ghost use Rattle.office_specification.specs.Tally.{counts_of};
ghost use Rattle.office_maps.specs.OfficeIn.{lent_project, office_in};
ghost use Rattle.sql_schema.specs.Layouts.{by_domain};
ghost use Rattle.sql_schema.specs.Inside.{IsSteadyForMain, IsSteadyOver, IsInsideOf};
ghost use Rattle.sql_changes.specs.OnDomains.{OnDomain};
ghost use Rattle.sql_figures.specs.Figures.{FiguresStay};
ghost use Rattle.sql_conversion.specs.Conversion.{WritesKept, WritesThere, WritesLanguages, WritesProject, WritesAnew, FollowsLanguages, FollowsLanguagesIn};
ghost use Rattle.sql_decoding.specs.DiskFailures.{FailsTruly};
ghost use Rattle.tables.specs.declared.faults.Lost.TheVariants.{Disk};

use office_maps::{OfficeMaps, Place, ProjectMaps};
use office_specification::Tally;
use sql_commits::{put_entries, put_language_of, put_policy_of, put_tally_of, write_planned};
use sql_decoding::Failure;
use sql_keepable::{entries_fit, language_fits, unit_fits};
use sql_schema::make_domain_tables;
use sql_statements::domains::put_domain;
use sqlite::{Alter, Transaction};
use std::alloc::Global;
use tables::counts_in;
use units::{Lang, Name};

/// Writes a language's units, in the order of their keys.
fn write_units_of<S: Alter>(
    tx: &mut Transaction<'_, S>,
    alloc: Global,
    domain: &Name,
    project: &ProjectMaps<'_>,
    lang: &Lang,
) -> Result<(), Failure>
    requires steady { IsSteadyOver by_domain (state S.Store tx.old.conn.now) }
    requires open { HasCleanDisk (state S.Store tx.old.conn.now) → IsTrue (state S.Store tx.old.conn.now).is_open }
    ensures same_reference { tx.new.conn.ghost_name ≡ tx.old.conn.ghost_name }
    ensures put { IsInsideOf by_domain (state S.Store tx.old.conn.now) (state S.Store tx.new.conn.now) result
        (OnDomain domain.now (WritesKept lang.now (units_of (lent_project project.now) lang.now))) }
    ensures figures { IsInsideOf by_domain (state S.Store tx.old.conn.now) (state S.Store tx.new.conn.now) result FiguresStay }
    ensures disk { FailsTruly (state S.Store tx.old.conn.now) (state S.Store tx.new.conn.now) result }
{
    let first = Place::first_of(alloc, lang)?;
    for (place, unit) in project.domain.units.range(first..) {
        if *lang != place.lang {
            break;
        }
        unit_fits(lang, unit);
        write_planned(tx, alloc, domain, lang, unit)?;
    }
    Ok(())
}

/// The tally of a domain's language, of an office that keeps its rules; nothing is counted where the language isn't there.
fn tally_of(alloc: Global, maps: &OfficeMaps, domain: &Name, lang: &Lang) -> Result<Tally, Failure>
    ensures tally { IsOffice (office_in maps.now) → IfOk result (λ tally. tally ≡ unwrap_or (counts_of (project_in (office_in maps.now) domain.now) lang.now) none_counted) }
    ensures disk { IfErr result (λ failure. failure.lost ≢ Disk) }
{
    match counts_in(alloc, maps, domain, lang)? {
        Some(tally) => Ok(tally),
        None => Ok(Tally::none()),
    }
}

/// Writes a language with its units, and the tally of these; nothing, where it isn't there.
fn write_language_of<S: Alter>(
    tx: &mut Transaction<'_, S>,
    alloc: Global,
    maps: &OfficeMaps,
    domain: &Name,
    project: &ProjectMaps<'_>,
    lang: &Lang,
) -> Result<(), Failure>
    requires steady { IsSteadyOver by_domain (state S.Store tx.old.conn.now) }
    requires open { HasCleanDisk (state S.Store tx.old.conn.now) → IsTrue (state S.Store tx.old.conn.now).is_open }
    requires lent { lent_project project.now ≡ project_in (office_in maps.now) domain.now }
    ensures same_reference { tx.new.conn.ghost_name ≡ tx.old.conn.ghost_name }
    ensures put { IsInsideOf by_domain (state S.Store tx.old.conn.now) (state S.Store tx.new.conn.now) result
        (OnDomain domain.now (WritesThere (lent_project project.now) lang.now)) }
    ensures figures { IsInsideOf by_domain (state S.Store tx.old.conn.now) (state S.Store tx.new.conn.now) result (FollowsLanguagesIn domain.now (office_in maps.now) (lang.now ∷ [])) }
    ensures disk { FailsTruly (state S.Store tx.old.conn.now) (state S.Store tx.new.conn.now) result }
{
    match project.domain.languages.get(lang) {
        Some(language) => {
            language_fits(lang, &language.header);
            put_language_of(tx, alloc, domain, lang, &language.header)?;
            write_units_of(tx, alloc, domain, project, lang)?;
            let tally = tally_of(alloc, maps, domain, lang)?;
            put_tally_of(tx, domain, lang, tally)
        }
        None => Ok(()),
    }
}

/// Writes the languages of these codes, each with its units and their tally.
fn write_languages<S: Alter>(
    tx: &mut Transaction<'_, S>,
    alloc: Global,
    maps: &OfficeMaps,
    domain: &Name,
    project: &ProjectMaps<'_>,
    langs: &[Lang],
) -> Result<(), Failure>
    requires steady { IsSteadyOver by_domain (state S.Store tx.old.conn.now) }
    requires open { HasCleanDisk (state S.Store tx.old.conn.now) → IsTrue (state S.Store tx.old.conn.now).is_open }
    requires lent { lent_project project.now ≡ project_in (office_in maps.now) domain.now }
    ensures same_reference { tx.new.conn.ghost_name ≡ tx.old.conn.ghost_name }
    ensures put { IsInsideOf by_domain (state S.Store tx.old.conn.now) (state S.Store tx.new.conn.now) result
        (OnDomain domain.now (WritesLanguages (lent_project project.now) langs.now)) }
    ensures figures { IsInsideOf by_domain (state S.Store tx.old.conn.now) (state S.Store tx.new.conn.now) result (FollowsLanguagesIn domain.now (office_in maps.now) langs.now) }
    ensures disk { FailsTruly (state S.Store tx.old.conn.now) (state S.Store tx.new.conn.now) result }
{
    for lang in langs {
        write_language_of(tx, alloc, maps, domain, project, lang)?;
    }
    Ok(())
}

/// Writes a project's template and the languages of these codes.
fn write_project<S: Alter>(
    tx: &mut Transaction<'_, S>,
    alloc: Global,
    maps: &OfficeMaps,
    domain: &Name,
    project: &ProjectMaps<'_>,
    langs: &[Lang],
) -> Result<(), Failure>
    requires steady { IsSteadyOver by_domain (state S.Store tx.old.conn.now) }
    requires open { HasCleanDisk (state S.Store tx.old.conn.now) → IsTrue (state S.Store tx.old.conn.now).is_open }
    requires lent { lent_project project.now ≡ project_in (office_in maps.now) domain.now }
    ensures same_reference { tx.new.conn.ghost_name ≡ tx.old.conn.ghost_name }
    ensures put { IsInsideOf by_domain (state S.Store tx.old.conn.now) (state S.Store tx.new.conn.now) result
        (OnDomain domain.now (WritesProject (lent_project project.now) langs.now)) }
    ensures figures { IsInsideOf by_domain (state S.Store tx.old.conn.now) (state S.Store tx.new.conn.now) result (FollowsLanguagesIn domain.now (office_in maps.now) langs.now) }
    ensures disk { FailsTruly (state S.Store tx.old.conn.now) (state S.Store tx.new.conn.now) result }
{
    let entries = project.domain.template.catalogue.entries();
    entries_fit(entries);
    put_entries(tx, alloc, domain, entries)?;
    write_languages(tx, alloc, maps, domain, project, langs)
}

/// Makes the tables by domains beside those without a column for a domain, and writes the office of `main` into them, with the languages of
/// these codes and their tallies. The policy's row tells the new form. The other rows of the old tables stay.
pub(crate) fn write_anew<S: Alter>(
    tx: &mut Transaction<'_, S>,
    alloc: Global,
    maps: &OfficeMaps,
    langs: &[Lang],
) -> Result<(), Failure>
    requires steady { IsSteadyForMain (state S.Store tx.old.conn.now) }
    ensures same_reference { tx.new.conn.ghost_name ≡ tx.old.conn.ghost_name }
    ensures put { IsInsideOf by_domain (state S.Store tx.old.conn.now) (state S.Store tx.new.conn.now) result
        (WritesAnew (office_in maps.now) langs.now) }
    ensures figures { IsInsideOf by_domain (state S.Store tx.old.conn.now) (state S.Store tx.new.conn.now) result (FollowsLanguages (office_in maps.now) langs.now) }
    ensures disk { FailsTruly (state S.Store tx.old.conn.now) (state S.Store tx.new.conn.now) result }
{
    make_domain_tables(tx)?;
    let domain = Name::main_domain();
    put_domain(tx, domain.as_str())?;
    put_policy_of(tx, &maps.policy)?;
    match maps.project(&domain) {
        Some(project) => write_project(tx, alloc, maps, &domain, &project, langs),
        None => Ok(()),
    }
}
