//! Whether each row of tables by domains is of a domain that there is.
ghost use Rattle.std.specs.Prelude.{◌≡◌, false, IsTrue};
ghost use Rattle.sqlite.specs.Held.{state};
ghost use Rattle.sqlite.specs.State.{HasCleanDisk};
ghost use Rattle.sql_schema.specs.Keys.{text_at};
ghost use Rattle.sql_schema.specs.Layouts.{by_domain, rows_named};
ghost use Rattle.sql_schema.specs.Whole.{IsIdleOver};
ghost use Rattle.sql_meaning.specs.Domains.{HoldsOwnDomains};
ghost use Rattle.sql_adoption.specs.Reading as spec;
ghost use Rattle.sql_adoption.specs.OwnedRows.{AreOwnedAmong, AllOwnedAmong, TestsRows};
ghost use Rattle.sql_adoption.specs.Reading.{OpensTruly};

use crate::faults::OpenFault;
use crate::look_ups::look_up_domains;
use sql_decoding::Failure;
use sql_statements::owners::{Owned, walk_owners};
use sql_streams::RowSink;
use sqlite::types::ValueRef;
use sqlite::{Alter, Connection, Row};
use tables::Lost;

/// The bytes of a row's first column, which other values than texts and blobs don't have.
pub(crate) fn bytes_of(row: &Row) -> &[u8]
    ensures { result.now ≡ text_at 0 row.now }
{
    match row.get_ref(0) {
        Ok(ValueRef::Text(text)) => text,
        Ok(ValueRef::Blob(bytes)) => bytes,
        _ => &[],
    }
}

/// Whether a row shows the name of one of these domains.
fn is_shown_among(domains: &[Row], row: &Row) -> bool
    ensures { result ≡ spec.is_shown_among domains.now row.now }
{
    let name = bytes_of(row);
    domains.iter().any(|domain| bytes_of(domain) == name)
}

/// Takes rows that show the name of one of these domains, and refuses any other.
#[derive(Drop)]
struct Named<'a> {
    domains: &'a [Row],
}

impl<'a> RowSink for Named<'a> {
    ghost use Rattle.std.specs.Prelude.{◌≡◌, false};
    ghost use Rattle.sql_adoption.specs.OwnedRows.{TakesNamed, named_none, named_more};
    ghost use Rattle.sql_adoption.specs.Reading.{is_shown_among};
    ghost use Rattle.tables.specs.declared.faults.Lost.TheVariants.{Disk};

    type Refusal = Failure;

    ghost Took = { λ a rows b. TakesNamed a.domains.now rows b.domains.now };

    ghost Refuses = { λ a row failure b. (failure.lost ≡ Disk) × (is_shown_among a.domains.now row ≡ false) };

    ghost none = { λ s. named_none s.domains.now };

    ghost more = { λ a b c xs ys one two. named_more a.domains.now b.domains.now c.domains.now xs ys one two };

    fn take(&mut self, row: &Row) -> Result<(), Failure> {
        if is_shown_among(self.domains, row) {
            Ok(())
        } else {
            Err(Failure { lost: Lost::Disk })
        }
    }
}

/// Tests that each row of a table is of one of these domains, of a connection that is open.
fn hold_owners<S: Alter>(
    connection: &mut Connection<S>,
    domains: &[Row],
    table: Owned,
) -> Result<(), OpenFault>
    requires autocommit { connection.old.in_transaction ≡ false }
    requires idle { IsIdleOver by_domain (state S.Store connection.old) }
    requires is_open { HasCleanDisk (state S.Store connection.old) → IsTrue (state S.Store connection.old).is_open }
    ensures tests { TestsRows (λ db. AreOwnedAmong domains.now table (rows_named db)) (state S.Store connection.old) (state S.Store connection.new) result }
    ensures disk { OpensTruly (state S.Store connection.old) (state S.Store connection.new) result }
{
    let mut named = Named { domains };
    walk_owners(connection, table, &mut named)?;
    Ok(())
}

/// Tests that each row with a column for a domain is of one of these, of a connection that is open.
fn hold_all_owners<S: Alter>(
    connection: &mut Connection<S>,
    domains: &[Row],
) -> Result<(), OpenFault>
    requires autocommit { connection.old.in_transaction ≡ false }
    requires idle { IsIdleOver by_domain (state S.Store connection.old) }
    requires is_open { HasCleanDisk (state S.Store connection.old) → IsTrue (state S.Store connection.old).is_open }
    ensures tests { TestsRows (λ db. AllOwnedAmong domains.now (rows_named db)) (state S.Store connection.old) (state S.Store connection.new) result }
    ensures disk { OpensTruly (state S.Store connection.old) (state S.Store connection.new) result }
{
    hold_owners(connection, domains, Owned::Template)?;
    hold_owners(connection, domains, Owned::Languages)?;
    hold_owners(connection, domains, Owned::Units)?;
    hold_owners(connection, domains, Owned::Suggestions)
}

/// Tests that each row of tables by domains is of a domain that there is. The rows are read one at a time.
pub(crate) fn hold_own_domains<S: Alter>(connection: &mut Connection<S>) -> Result<(), OpenFault>
    requires autocommit { connection.old.in_transaction ≡ false }
    requires idle { IsIdleOver by_domain (state S.Store connection.old) }
    ensures tests { TestsRows (λ db. HoldsOwnDomains (rows_named db)) (state S.Store connection.old) (state S.Store connection.new) result }
    ensures disk { OpensTruly (state S.Store connection.old) (state S.Store connection.new) result }
{
    let domains = look_up_domains(connection)?;
    hold_all_owners(connection, domains.as_slice())
}
