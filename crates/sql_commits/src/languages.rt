//! A new language.
ghost use Rattle.std.specs.Prelude.{◌≡◌, [], unwrap_or, Some};
ghost use Rattle.sqlite.specs.Held.{state};
ghost use Rattle.units.specs.Rules.{plural_field};
ghost use Rattle.sql_schema.specs.Layouts.{by_domain};
ghost use Rattle.sql_schema.specs.Inside.{IsSteadyOver, IsInsideOf};
ghost use Rattle.sql_changes.specs.OnDomains.{OnDomain};
ghost use Rattle.sql_changes.specs.Commits.{PutsLanguage, WritesLanguage};
ghost use Rattle.sql_commits.specs.Rows.{PutsLanguageOf};
ghost use Rattle.sql_figures.specs.Figures.{with_tally, FiguresFollow, FiguresStay};
ghost use Rattle.sql_decoding.specs.DiskFailures.{FailsTruly};

use crate::planned_units::write_units;
use crate::tallies::put_tally_of;
use office_specification::Tally;
use po_text::Entry;
use sql_columns::{header_column, rule_column};
use sql_decoding::Failure;
use sql_keepable::language_fits;
use sql_statements::domain_languages::put_domain_language;
use sqlite::{Alter, Transaction};
use std::alloc::Global;
use units::{Lang, Name, Unit};

/// Writes a language, which must be new to the domain, with its units and their tally.
pub fn write_language<S: Alter>(
    tx: &mut Transaction<'_, S>,
    alloc: Global,
    domain: &Name,
    lang: &Lang,
    header: &Entry,
    units: &[Unit],
    tally: Tally,
) -> Result<(), Failure>
    requires steady { IsSteadyOver by_domain (state S.Store tx.old.conn.now) }
    ensures same_reference { tx.new.conn.ghost_name ≡ tx.old.conn.ghost_name }
    ensures put { IsInsideOf by_domain (state S.Store tx.old.conn.now) (state S.Store tx.new.conn.now) result (OnDomain domain.now (WritesLanguage lang.now header.now units.now)) }
    ensures figures { IsInsideOf by_domain (state S.Store tx.old.conn.now) (state S.Store tx.new.conn.now) result (FiguresFollow (with_tally domain.now lang.now tally)) }
    ensures disk { FailsTruly (state S.Store tx.old.conn.now) (state S.Store tx.new.conn.now) result }
{
    put_language_of(tx, alloc, domain, lang, header)?;
    write_units(tx, alloc, domain, lang, units)?;
    put_tally_of(tx, domain, lang, tally)
}

/// Writes the row of a domain's language.
pub fn put_language_of<S: Alter>(
    tx: &mut Transaction<'_, S>,
    alloc: Global,
    domain: &Name,
    lang: &Lang,
    header: &Entry,
) -> Result<(), Failure>
    requires steady { IsSteadyOver by_domain (state S.Store tx.old.conn.now) }
    ensures same_reference { tx.new.conn.ghost_name ≡ tx.old.conn.ghost_name }
    ensures put { IsInsideOf by_domain (state S.Store tx.old.conn.now) (state S.Store tx.new.conn.now) result (OnDomain domain.now (PutsLanguage lang.now header.now)) }
    ensures figures { IsInsideOf by_domain (state S.Store tx.old.conn.now) (state S.Store tx.new.conn.now) result FiguresStay }
    ensures row { IsInsideOf by_domain (state S.Store tx.old.conn.now) (state S.Store tx.new.conn.now) result (PutsLanguageOf domain.now lang.now header.now) }
    ensures disk { FailsTruly (state S.Store tx.old.conn.now) (state S.Store tx.new.conn.now) result }
{
    language_fits(lang, header);
    let column = header_column(alloc, header)?;
    put_domain_language(
        tx,
        domain.as_str(),
        lang.as_str(),
        column.as_str(),
        rule_text(header),
    )
    .map_err(Failure::from)
}

/// The value of a header's field `Plural-Forms`, empty where it has none.
fn rule_text(header: &Entry) -> &str
    ensures { result.now ≡ unwrap_or (plural_field (Some header.now)) [] }
{
    match rule_column(header) {
        Some(rule) => rule,
        None => "",
    }
}
