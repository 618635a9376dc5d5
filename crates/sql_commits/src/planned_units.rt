//! Units of plans inside a transaction, one after the other.
ghost use Rattle.std.specs.Prelude.{◌≡◌, false, get_or, IsTrue};
ghost use Rattle.sqlite.specs.Held.{state};
ghost use Rattle.sqlite.specs.State.{HasCleanDisk};
ghost use Rattle.sql_schema.specs.Layouts.{by_domain};
ghost use Rattle.sql_schema.specs.Inside.{IsSteadyOver, IsInsideOf};
ghost use Rattle.sql_changes.specs.OnDomains.{OnDomain};
ghost use Rattle.sql_changes.specs.UnitWrites.{WritesPlanned, WritesUnits, WritesUnitsBack, WritesPlansBack};
ghost use Rattle.template_update.specs.Marks.{unmarked};
ghost use Rattle.sql_commits.specs.Changes.{WritesUnlessStays};
ghost use Rattle.sql_figures.specs.Figures.{FiguresStay};
ghost use Rattle.sql_decoding.specs.DiskFailures.{FailsTruly};

use crate::unit_writes::write_unit;
use sql_decoding::Failure;
use sql_keepable::{key_fits, previous_fits};
use sqlite::{Alter, Transaction};
use std::alloc::Global;
use template_update::Plan;
use units::{Lang, Name, Unit};

/// Writes a unit of a plan in a domain.
pub fn write_planned<S: Alter>(
    tx: &mut Transaction<'_, S>,
    alloc: Global,
    domain: &Name,
    lang: &Lang,
    unit: &Unit,
) -> Result<(), Failure>
    requires steady { IsSteadyOver by_domain (state S.Store tx.old.conn.now) }
    ensures same_reference { tx.new.conn.ghost_name ≡ tx.old.conn.ghost_name }
    ensures put { IsInsideOf by_domain (state S.Store tx.old.conn.now) (state S.Store tx.new.conn.now) result (OnDomain domain.now (WritesPlanned lang.now unit.now)) }
    ensures figures { IsInsideOf by_domain (state S.Store tx.old.conn.now) (state S.Store tx.new.conn.now) result FiguresStay }
    ensures disk { FailsTruly (state S.Store tx.old.conn.now) (state S.Store tx.new.conn.now) result }
{
    key_fits(&unit.key);
    previous_fits(&unit.previous);
    write_unit(tx, alloc, domain, lang, unit)
}

/// Writes units from the first on: of two of one key the last stays.
pub fn write_units<S: Alter>(
    tx: &mut Transaction<'_, S>,
    alloc: Global,
    domain: &Name,
    lang: &Lang,
    units: &[Unit],
) -> Result<(), Failure>
    requires steady { IsSteadyOver by_domain (state S.Store tx.old.conn.now) }
    requires open { HasCleanDisk (state S.Store tx.old.conn.now) → IsTrue (state S.Store tx.old.conn.now).is_open }
    ensures same_reference { tx.new.conn.ghost_name ≡ tx.old.conn.ghost_name }
    ensures put { IsInsideOf by_domain (state S.Store tx.old.conn.now) (state S.Store tx.new.conn.now) result (OnDomain domain.now (WritesUnits lang.now units.now)) }
    ensures figures { IsInsideOf by_domain (state S.Store tx.old.conn.now) (state S.Store tx.new.conn.now) result FiguresStay }
    ensures disk { FailsTruly (state S.Store tx.old.conn.now) (state S.Store tx.new.conn.now) result }
{
    for unit in units {
        write_planned(tx, alloc, domain, lang, unit)?;
    }
    Ok(())
}

/// Whether the unit at a place of a plan stays as it was.
pub(crate) fn stays_at(stays: &[bool], place: usize) -> bool
    ensures { result ≡ get_or stays.now place false }
{
    match stays.get(place) {
        Some(stays) => *stays,
        None => false,
    }
}

/// Writes a unit of a plan in a domain, unless it stays as it was.
fn write_changed<S: Alter>(
    tx: &mut Transaction<'_, S>,
    alloc: Global,
    domain: &Name,
    lang: &Lang,
    unit: &Unit,
    stays: bool,
) -> Result<(), Failure>
    requires steady { IsSteadyOver by_domain (state S.Store tx.old.conn.now) }
    requires open { HasCleanDisk (state S.Store tx.old.conn.now) → IsTrue (state S.Store tx.old.conn.now).is_open }
    ensures same_reference { tx.new.conn.ghost_name ≡ tx.old.conn.ghost_name }
    ensures put { IsInsideOf by_domain (state S.Store tx.old.conn.now) (state S.Store tx.new.conn.now) result (OnDomain domain.now (WritesUnlessStays stays lang.now unit.now)) }
    ensures figures { IsInsideOf by_domain (state S.Store tx.old.conn.now) (state S.Store tx.new.conn.now) result FiguresStay }
    ensures disk { FailsTruly (state S.Store tx.old.conn.now) (state S.Store tx.new.conn.now) result }
{
    if stays {
        Ok(())
    } else {
        write_planned(tx, alloc, domain, lang, unit)
    }
}

/// Writes those units of a plan that don't stay as they were, from the last on: of two of one key the first stays. Of the others
/// nothing is written.
fn write_units_back<S: Alter>(
    tx: &mut Transaction<'_, S>,
    alloc: Global,
    domain: &Name,
    lang: &Lang,
    units: &[Unit],
    stays: &[bool],
) -> Result<(), Failure>
    requires steady { IsSteadyOver by_domain (state S.Store tx.old.conn.now) }
    requires open { HasCleanDisk (state S.Store tx.old.conn.now) → IsTrue (state S.Store tx.old.conn.now).is_open }
    ensures same_reference { tx.new.conn.ghost_name ≡ tx.old.conn.ghost_name }
    ensures put { IsInsideOf by_domain (state S.Store tx.old.conn.now) (state S.Store tx.new.conn.now) result (OnDomain domain.now (WritesUnitsBack lang.now (unmarked units.now stays.now))) }
    ensures figures { IsInsideOf by_domain (state S.Store tx.old.conn.now) (state S.Store tx.new.conn.now) result FiguresStay }
    ensures disk { FailsTruly (state S.Store tx.old.conn.now) (state S.Store tx.new.conn.now) result }
{
    let mut left = units;
    while let Some((last, others)) = left.split_last() {
        let is_still = stays_at(stays, others.len());
        write_changed(tx, alloc, domain, lang, last, is_still)?;
        left = others;
    }
    Ok(())
}

/// Writes the units of each language's plan that don't stay as they were, from the last on.
pub fn write_plans_back<S: Alter>(
    tx: &mut Transaction<'_, S>,
    alloc: Global,
    domain: &Name,
    plans: &[(Lang, Plan)],
) -> Result<(), Failure>
    requires steady { IsSteadyOver by_domain (state S.Store tx.old.conn.now) }
    requires open { HasCleanDisk (state S.Store tx.old.conn.now) → IsTrue (state S.Store tx.old.conn.now).is_open }
    ensures same_reference { tx.new.conn.ghost_name ≡ tx.old.conn.ghost_name }
    ensures put { IsInsideOf by_domain (state S.Store tx.old.conn.now) (state S.Store tx.new.conn.now) result (OnDomain domain.now (WritesPlansBack plans.now)) }
    ensures figures { IsInsideOf by_domain (state S.Store tx.old.conn.now) (state S.Store tx.new.conn.now) result FiguresStay }
    ensures disk { FailsTruly (state S.Store tx.old.conn.now) (state S.Store tx.new.conn.now) result }
{
    let mut left = plans;
    while let Some((last, others)) = left.split_last() {
        let (lang, plan) = last;
        write_units_back(
            tx,
            alloc,
            domain,
            lang,
            plan.units.as_slice(),
            plan.stays.as_slice(),
        )?;
        left = others;
    }
    Ok(())
}
