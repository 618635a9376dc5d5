//! The entries of a domain's template that change, inside a transaction. A place in a file tells an order and nothing else, so that the
//! i-th entry needn't stand at place i: which entries stay is told by the rows that are there.
ghost use Rattle.std.specs.Prelude.{◌≡◌, ◌↔◌, ◌<◌, ◌^◌, ℕ, true, Some, IfOk, IsTrue};
ghost use Rattle.sqlite.specs.Held.{state};
ghost use Rattle.sqlite.specs.State.{HasCleanDisk};
ghost use Rattle.sql_schema.specs.Layouts.{by_domain};
ghost use Rattle.sql_schema.specs.Inside.{IsSteadyOver, IsInsideOf};
ghost use Rattle.sql_changes.specs.OnDomains.{OnDomain};
ghost use Rattle.sql_changes.specs.EntryWrites.{PutsUnless, PutsOthers, HoldsEntries};
ghost use Rattle.sql_changes.specs.UnitWrites.{LeavesRows};
ghost use Rattle.units.specs.KeyTexts.{HasStrings};
ghost use Rattle.units.specs.Units.{key_of};
ghost use Rattle.sql_commits.specs.Columns.{columns_of_entry};
ghost use Rattle.sql_commits.specs.Entries.{IsShown, IsShownAt, AreShown, stays_shown, TakesShown, TakesUnless, TakesOthers};
ghost use Rattle.sql_figures.specs.Figures.{FiguresStay};
ghost use Rattle.sql_decoding.specs.DiskFailures.{FailsTruly};

use crate::entries::{EntryColumns, columns_of, put_entry};
use crate::planned_units::stays_at;
use po_text::Entry;
use sql_columns::plural_column;
use sql_decoding::{Failure, is_text, is_text_or_null, natural_in, needed, text_in};
use sql_keepable::entry_key_fits;
use sql_statements::domain_template::{all_domain_entries, take_domain_entry};
use sqlite::{Alter, Row, Transaction};
use std::alloc::{AllocError, Global};
use units::Name;

/// The column of a shown row that has its key, and the one that has its place.
const KEY: usize = 4;

const PLACE: usize = 5;

/// Writes a domain's template: takes out each entry that isn't one of these at its place, and puts those that no row shows at their
/// places. An entry that a row shows at its place is neither taken out nor put again.
pub fn change_entries<S: Alter>(
    tx: &mut Transaction<'_, S>,
    alloc: Global,
    domain: &Name,
    entries: &[Entry],
) -> Result<(), Failure>
    requires steady { IsSteadyOver by_domain (state S.Store tx.old.conn.now) }
    ensures same_reference { tx.new.conn.ghost_name ≡ tx.old.conn.ghost_name }
    ensures put { IsInsideOf by_domain (state S.Store tx.old.conn.now) (state S.Store tx.new.conn.now) result (OnDomain domain.now (LeavesRows (HoldsEntries entries.now))) }
    ensures figures { IsInsideOf by_domain (state S.Store tx.old.conn.now) (state S.Store tx.new.conn.now) result FiguresStay }
    ensures disk { FailsTruly (state S.Store tx.old.conn.now) (state S.Store tx.new.conn.now) result }
{
    let rows = all_domain_entries(tx, domain.as_str())?;
    let stays = stays_of(alloc, &rows, entries)?;
    take_others(tx, domain, &rows, &stays)?;
    put_others(tx, alloc, domain, entries, &stays)
}

/// Whether a shown row has the texts of the entry that these columns are of.
fn has_columns(row: &Row, entry: &Entry, columns: &EntryColumns) -> bool
    requires columns { columns.now ≡ columns_of_entry entry.now }
    ensures { (result ≡ true) ↔ IsShown entry.now row.now }
{
    is_text(row, KEY, columns.key.as_str())
        && is_text_or_null(row, 0, plural_column(&entry.plural))
        && is_text(row, 1, columns.extracted.as_str())
        && is_text(row, 2, columns.references.as_str())
        && is_text(row, 3, columns.flags.as_str())
}

/// Whether a row shows an entry, at whatever place.
fn shows(alloc: Global, row: &Row, entry: &Entry) -> Result<bool, AllocError>
    ensures texts { IfOk result (λ same. (same ≡ true) ↔ IsShown entry.now row.now) }
    ensures strings { HasStrings (key_of entry.now) }
{
    entry_key_fits(entry);
    let columns = columns_of(alloc, entry)?;
    Ok(has_columns(row, entry, &columns))
}

/// The place at which a row shows the entry that is there, exactly where it shows one.
fn place_shown(alloc: Global, row: &Row, entries: &[Entry]) -> Result<Option<usize>, AllocError>
    ensures { IfOk result (λ found. (place : ℕ) → (found ≡ Some place) ↔ IsShownAt entries.now row.now place) }
{
    let Some(place) = natural_in(row, PLACE) else {
        return Ok(None);
    };
    let Some(entry) = entries.get(place) else {
        return Ok(None);
    };
    if shows(alloc, row, entry)? {
        Ok(Some(place))
    } else {
        Ok(None)
    }
}

/// Of each entry whether one of the rows shows it at its place.
fn stays_of(alloc: Global, rows: &[Row], entries: &[Entry]) -> Result<Vec<bool>, AllocError>
    ensures { IfOk result (λ stays. AreShown rows.now stays.items entries.now) }
{
    let mut stays = vec![in alloc; false; entries.len()]?;
    for row in rows {
        if let Some(place) = place_shown(alloc, row, entries)? {
            stays[place] = true;
        }
    }
    Ok(stays)
}

/// Whether a shown row is one of those that stay.
fn row_stays(row: &Row, stays: &[bool]) -> bool
    ensures { result ≡ stays_shown stays.now row.now }
{
    match natural_in(row, PLACE) {
        Some(place) => stays_at(stays, place),
        None => false,
    }
}

/// Takes a domain's entry out that a row shows.
fn take_shown<S: Alter>(
    tx: &mut Transaction<'_, S>,
    domain: &Name,
    row: &Row,
) -> Result<(), Failure>
    requires steady { IsSteadyOver by_domain (state S.Store tx.old.conn.now) }
    ensures same_reference { tx.new.conn.ghost_name ≡ tx.old.conn.ghost_name }
    ensures taken { IsInsideOf by_domain (state S.Store tx.old.conn.now) (state S.Store tx.new.conn.now) result (OnDomain domain.now (TakesShown row.now)) }
    ensures figures { IsInsideOf by_domain (state S.Store tx.old.conn.now) (state S.Store tx.new.conn.now) result FiguresStay }
    ensures disk { FailsTruly (state S.Store tx.old.conn.now) (state S.Store tx.new.conn.now) result }
{
    let key = needed(text_in(row, KEY))?;
    take_domain_entry(tx, domain.as_str(), key.as_str()).map_err(Failure::from)
}

/// Takes a domain's entry out that a row shows, unless it stays.
fn take_unless<S: Alter>(
    tx: &mut Transaction<'_, S>,
    domain: &Name,
    row: &Row,
    stays: bool,
) -> Result<(), Failure>
    requires steady { IsSteadyOver by_domain (state S.Store tx.old.conn.now) }
    requires open { HasCleanDisk (state S.Store tx.old.conn.now) → IsTrue (state S.Store tx.old.conn.now).is_open }
    ensures same_reference { tx.new.conn.ghost_name ≡ tx.old.conn.ghost_name }
    ensures taken { IsInsideOf by_domain (state S.Store tx.old.conn.now) (state S.Store tx.new.conn.now) result (OnDomain domain.now (TakesUnless stays row.now)) }
    ensures figures { IsInsideOf by_domain (state S.Store tx.old.conn.now) (state S.Store tx.new.conn.now) result FiguresStay }
    ensures disk { FailsTruly (state S.Store tx.old.conn.now) (state S.Store tx.new.conn.now) result }
{
    if stays {
        Ok(())
    } else {
        take_shown(tx, domain, row)
    }
}

/// Takes out those entries of a domain that rows show and that don't stay.
fn take_others<S: Alter>(
    tx: &mut Transaction<'_, S>,
    domain: &Name,
    rows: &[Row],
    stays: &[bool],
) -> Result<(), Failure>
    requires steady { IsSteadyOver by_domain (state S.Store tx.old.conn.now) }
    requires open { HasCleanDisk (state S.Store tx.old.conn.now) → IsTrue (state S.Store tx.old.conn.now).is_open }
    ensures same_reference { tx.new.conn.ghost_name ≡ tx.old.conn.ghost_name }
    ensures taken { IsInsideOf by_domain (state S.Store tx.old.conn.now) (state S.Store tx.new.conn.now) result (OnDomain domain.now (TakesOthers stays.now rows.now)) }
    ensures figures { IsInsideOf by_domain (state S.Store tx.old.conn.now) (state S.Store tx.new.conn.now) result FiguresStay }
    ensures disk { FailsTruly (state S.Store tx.old.conn.now) (state S.Store tx.new.conn.now) result }
{
    for row in rows {
        take_unless(tx, domain, row, row_stays(row, stays))?;
    }
    Ok(())
}

/// Puts an entry at its place, unless the one there stays.
fn put_unless<S: Alter>(
    tx: &mut Transaction<'_, S>,
    alloc: Global,
    domain: &Name,
    place: usize,
    entry: &Entry,
    stays: bool,
) -> Result<(), Failure>
    requires fits { place < 2 ^ 63 }
    requires steady { IsSteadyOver by_domain (state S.Store tx.old.conn.now) }
    requires open { HasCleanDisk (state S.Store tx.old.conn.now) → IsTrue (state S.Store tx.old.conn.now).is_open }
    ensures same_reference { tx.new.conn.ghost_name ≡ tx.old.conn.ghost_name }
    ensures put { IsInsideOf by_domain (state S.Store tx.old.conn.now) (state S.Store tx.new.conn.now) result (OnDomain domain.now (PutsUnless stays place entry.now)) }
    ensures figures { IsInsideOf by_domain (state S.Store tx.old.conn.now) (state S.Store tx.new.conn.now) result FiguresStay }
    ensures disk { FailsTruly (state S.Store tx.old.conn.now) (state S.Store tx.new.conn.now) result }
{
    if stays {
        Ok(())
    } else {
        put_entry(tx, alloc, domain, place, entry)
    }
}

/// Puts those entries of a domain's template that don't stay, each at its place.
fn put_others<S: Alter>(
    tx: &mut Transaction<'_, S>,
    alloc: Global,
    domain: &Name,
    entries: &[Entry],
    stays: &[bool],
) -> Result<(), Failure>
    requires steady { IsSteadyOver by_domain (state S.Store tx.old.conn.now) }
    requires open { HasCleanDisk (state S.Store tx.old.conn.now) → IsTrue (state S.Store tx.old.conn.now).is_open }
    ensures same_reference { tx.new.conn.ghost_name ≡ tx.old.conn.ghost_name }
    ensures put { IsInsideOf by_domain (state S.Store tx.old.conn.now) (state S.Store tx.new.conn.now) result (OnDomain domain.now (PutsOthers 0 stays.now entries.now)) }
    ensures figures { IsInsideOf by_domain (state S.Store tx.old.conn.now) (state S.Store tx.new.conn.now) result FiguresStay }
    ensures disk { FailsTruly (state S.Store tx.old.conn.now) (state S.Store tx.new.conn.now) result }
{
    for (place, entry) in entries.iter().enumerate() {
        put_unless(tx, alloc, domain, place, entry, stays_at(stays, place))?;
    }
    Ok(())
}
