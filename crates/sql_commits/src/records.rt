//! A request's record.
ghost use Rattle.std.specs.Prelude.{◌≡◌, codes};
ghost use Rattle.sqlite.specs.Held.{state};
ghost use Rattle.sql_schema.specs.Layouts.{by_domain, SparesOthers};
ghost use Rattle.sql_schema.specs.Inside.{IsSteadyOver, IsInsideOf, OnRows};
ghost use Rattle.sql_changes.specs.OnDomains.{OnEach};
ghost use Rattle.sql_changes.specs.Commits.{PutsNumberedRecord};
ghost use Rattle.sql_decoding.specs.DiskFailures.{FailsTruly};

use request_book::Record;
use sql_columns::{number_column, status_column};
use sql_decoding::Failure;
use sql_statements::records::put_record;
use sqlite::{Alter, Transaction};
use std::alloc::Global;

/// Writes a request's record inside a transaction. Its number must be new.
pub fn put_record_of<S: Alter>(
    tx: &mut Transaction<'_, S>,
    alloc: Global,
    row: &Record,
) -> Result<(), Failure>
    requires steady { IsSteadyOver by_domain (state S.Store tx.old.conn.now) }
    ensures same_reference { tx.new.conn.ghost_name ≡ tx.old.conn.ghost_name }
    ensures put { IsInsideOf by_domain (state S.Store tx.old.conn.now) (state S.Store tx.new.conn.now) result (OnEach (PutsNumberedRecord row.now)) }
    ensures others { IsInsideOf by_domain (state S.Store tx.old.conn.now) (state S.Store tx.new.conn.now) result (OnRows (SparesOthers (codes "record"))) }
    ensures disk { FailsTruly (state S.Store tx.old.conn.now) (state S.Store tx.new.conn.now) result }
{
    let number = number_column(alloc, row.number)?;
    put_record(
        tx,
        number.as_str(),
        row.content.as_str(),
        status_column(row.reply.status()),
        row.reply.body(),
    )
    .map_err(Failure::from)
}
