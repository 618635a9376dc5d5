//! The template's entries inside a transaction.
ghost use Rattle.std.specs.Prelude.{◌≡◌, ◌<◌, ◌^◌, IfOk, IsTrue};
ghost use Rattle.sqlite.specs.Held.{state};
ghost use Rattle.sqlite.specs.State.{HasCleanDisk};
ghost use Rattle.units.specs.Units.{key_text, key_of};
ghost use Rattle.sql_schema.specs.Layouts.{by_domain};
ghost use Rattle.sql_schema.specs.Inside.{IsSteadyOver, IsInsideOf};
ghost use Rattle.sql_changes.specs.OnDomains.{OnDomain};
ghost use Rattle.sql_changes.specs.Commits.{PutsEntry, PutsEntries};
ghost use Rattle.sql_commits.specs.Columns.{columns_of_entry};
ghost use Rattle.sql_commits.specs.Rows.{PutsEntryOf};
ghost use Rattle.sql_figures.specs.Figures.{FiguresStay};
ghost use Rattle.sql_decoding.specs.DiskFailures.{FailsTruly};

use po_text::{Entry, Text};
use sql_columns::{plural_column, texts_column};
use sql_decoding::Failure;
use sql_keepable::entry_key_fits;
use sql_statements::domain_template::{EntryRow, put_domain_entry};
use sqlite::{Alter, Transaction};
use std::alloc::{AllocError, Global};
use units::{CONTEXT_GLUE, Name};

/// Writes entries of a domain's template, from the first place on.
pub fn put_entries<S: Alter>(
    tx: &mut Transaction<'_, S>,
    alloc: Global,
    domain: &Name,
    entries: &[Entry],
) -> Result<(), Failure>
    requires steady { IsSteadyOver by_domain (state S.Store tx.old.conn.now) }
    requires open { HasCleanDisk (state S.Store tx.old.conn.now) → IsTrue (state S.Store tx.old.conn.now).is_open }
    ensures same_reference { tx.new.conn.ghost_name ≡ tx.old.conn.ghost_name }
    ensures put { IsInsideOf by_domain (state S.Store tx.old.conn.now) (state S.Store tx.new.conn.now) result (OnDomain domain.now (PutsEntries 0 entries.now)) }
    ensures figures { IsInsideOf by_domain (state S.Store tx.old.conn.now) (state S.Store tx.new.conn.now) result FiguresStay }
    ensures disk { FailsTruly (state S.Store tx.old.conn.now) (state S.Store tx.new.conn.now) result }
{
    for (place, entry) in entries.iter().enumerate() {
        put_entry(tx, alloc, domain, place, entry)?;
    }
    Ok(())
}

/// The columns of an entry that take memory.
#[derive(Drop)]
pub(crate) struct EntryColumns {
    pub(crate) key: Text,
    pub(crate) extracted: Text,
    pub(crate) references: Text,
    pub(crate) flags: Text,
}

pub(crate) fn columns_of(alloc: Global, entry: &Entry) -> Result<EntryColumns, AllocError>
    ensures { IfOk result (λ columns. columns ≡ columns_of_entry entry.now) }
{
    Ok(EntryColumns {
        key: key_column(alloc, entry)?,
        extracted: texts_column(alloc, &entry.extracted)?,
        references: texts_column(alloc, &entry.references)?,
        flags: texts_column(alloc, &entry.flags)?,
    })
}

/// The text of an entry's key: the msgid, or the context, U+0004 and the msgid.
fn key_column(alloc: Global, entry: &Entry) -> Result<Text, AllocError>
    ensures { IfOk result (λ text. text ≡ key_text (key_of entry.now)) }
{
    let mut text = String::new(alloc);
    if let Some(ctx) = &entry.ctx {
        text.push_str(ctx.as_str())?;
        text.push(CONTEXT_GLUE)?;
    }
    text.push_str(entry.id.as_str())?;
    Ok(Text::from_string(text))
}

/// Writes an entry of a domain's template at its place, where none stands.
pub fn put_entry<S: Alter>(
    tx: &mut Transaction<'_, S>,
    alloc: Global,
    domain: &Name,
    place: usize,
    entry: &Entry,
) -> Result<(), Failure>
    requires fits { place < 2 ^ 63 }
    requires steady { IsSteadyOver by_domain (state S.Store tx.old.conn.now) }
    ensures same_reference { tx.new.conn.ghost_name ≡ tx.old.conn.ghost_name }
    ensures put { IsInsideOf by_domain (state S.Store tx.old.conn.now) (state S.Store tx.new.conn.now) result (OnDomain domain.now (PutsEntry place entry.now)) }
    ensures figures { IsInsideOf by_domain (state S.Store tx.old.conn.now) (state S.Store tx.new.conn.now) result FiguresStay }
    ensures row { IsInsideOf by_domain (state S.Store tx.old.conn.now) (state S.Store tx.new.conn.now) result (PutsEntryOf domain.now place entry.now) }
    ensures disk { FailsTruly (state S.Store tx.old.conn.now) (state S.Store tx.new.conn.now) result }
{
    entry_key_fits(entry);
    let columns = columns_of(alloc, entry)?;
    put_domain_entry(
        tx,
        EntryRow {
            domain: domain.as_str(),
            place: place as i64,
            key: columns.key.as_str(),
            plural: plural_column(&entry.plural),
            extracted: columns.extracted.as_str(),
            refs: columns.references.as_str(),
            flags: columns.flags.as_str(),
        },
    )
    .map_err(Failure::from)
}
