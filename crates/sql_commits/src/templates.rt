//! A new template.
ghost use Rattle.std.specs.Prelude.{◌≡◌};
ghost use Rattle.sqlite.specs.Held.{state};
ghost use Rattle.sql_schema.specs.Layouts.{by_domain};
ghost use Rattle.sql_schema.specs.Inside.{IsSteadyOver, IsInsideOf};
ghost use Rattle.sql_changes.specs.OnDomains.{OnDomain};
ghost use Rattle.sql_changes.specs.Commits.{WritesTemplate};
ghost use Rattle.sql_figures.specs.Figures.{with_tallies, FiguresFollow};
ghost use Rattle.sql_decoding.specs.DiskFailures.{FailsTruly};

use crate::changed_entries::change_entries;
use crate::planned_units::write_plans_back;
use crate::tallies::put_tallies;
use office_specification::Tally;
use po_text::Entry;
use sql_decoding::Failure;
use sqlite::{Alter, Transaction};
use std::alloc::Global;
use template_update::Plan;
use units::{Lang, Name};

/// Writes what changes of a domain's template, and in each language the units of its plan that don't stay as they were, and the language's
/// tally. Of entries and units that stay nothing is written.
pub fn write_template<S: Alter>(
    tx: &mut Transaction<'_, S>,
    alloc: Global,
    domain: &Name,
    entries: &[Entry],
    plans: &[(Lang, Plan)],
    tallies: &[(Lang, Tally)],
) -> Result<(), Failure>
    requires steady { IsSteadyOver by_domain (state S.Store tx.old.conn.now) }
    ensures same_reference { tx.new.conn.ghost_name ≡ tx.old.conn.ghost_name }
    ensures put { IsInsideOf by_domain (state S.Store tx.old.conn.now) (state S.Store tx.new.conn.now) result (OnDomain domain.now (WritesTemplate entries.now plans.now)) }
    ensures figures { IsInsideOf by_domain (state S.Store tx.old.conn.now) (state S.Store tx.new.conn.now) result (FiguresFollow (with_tallies domain.now tallies.now)) }
    ensures disk { FailsTruly (state S.Store tx.old.conn.now) (state S.Store tx.new.conn.now) result }
{
    change_entries(tx, alloc, domain, entries)?;
    write_plans_back(tx, alloc, domain, plans)?;
    put_tallies(tx, domain, tallies)
}
