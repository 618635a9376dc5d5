//! Whole transactions, one for acts on a unit and one for acts on the office.
ghost use Rattle.std.specs.Prelude.{◌≡◌, false};
ghost use Rattle.sqlite.specs.Held.{state};
ghost use Rattle.sql_schema.specs.Layouts.{by_domain};
ghost use Rattle.sql_schema.specs.Inside.{IsSteadyOver, IsInsideOf};
ghost use Rattle.sql_schema.specs.Whole.{IsIdleOver, IsCommitOf};
ghost use Rattle.sql_changes.specs.OnDomains.{OnDomain};
ghost use Rattle.sql_changes.specs.UnitWrites.{WritesOfUnit};
ghost use Rattle.sql_commits.specs.Acts.{MakesAct, MakesChange, CommitsAct, CommitsChange};
ghost use Rattle.sql_commits.specs.Changes.{WritesDomainChange, WritesIn, WritesChange};
ghost use Rattle.sql_commits.specs.Figures.{FollowsWrite, FollowsIn, FollowsAct, FollowsDomainChange, FollowsOneChange, FollowsChange};
ghost use Rattle.sql_decoding.specs.DiskFailures.{FailsTruly};

use crate::languages::write_language;
use crate::policies::write_policy;
use crate::records::put_record_of;
use crate::roles::write_role;
use crate::templates::write_template;
use crate::transactions::finish;
use crate::unit_parts::write_of_unit;
use office_specification::{Change, DomainChange, UnitWrite};
use request_book::Record;
use sql_decoding::Failure;
use sql_statements::domains::{find_domain, put_domain};
use sqlite::{Alter, Connection, Transaction};
use std::alloc::Global;
use units::{Key, Lang, Name};

/// Records a request and writes what its act writes of the unit at a key, if it writes anything and the unit's domain is there: the whole of
/// the unit in the place of what is there, its row alone, a suggestion behind its last one, or a vote on one of its suggestions. The sums of
/// suggestions that are written or voted on go with them, and the language's tally moves.
pub fn commit_act<S: Alter>(
    connection: &mut Connection<S>,
    alloc: Global,
    row: &Record,
    domain: &Name,
    lang: &Lang,
    key: &Key,
    write: &Option<UnitWrite>,
) -> Result<(), Failure>
    requires autocommit { connection.old.in_transaction ≡ false }
    requires idle { IsIdleOver by_domain (state S.Store connection.old) }
    ensures committed { IsCommitOf by_domain (state S.Store connection.old) (state S.Store connection.new) result (CommitsAct row.now domain.now lang.now key.now write.now) }
    ensures disk { FailsTruly (state S.Store connection.old) (state S.Store connection.new) result }
{
    let mut tx = connection.transaction();
    let put = put_record_and_write(&mut tx, alloc, row, domain, lang, key, write);
    finish(tx, put)
}

/// Writes a request's record, and what its act writes of a unit, if it writes anything and the unit's domain is there.
fn put_record_and_write<S: Alter>(
    tx: &mut Transaction<'_, S>,
    alloc: Global,
    row: &Record,
    domain: &Name,
    lang: &Lang,
    key: &Key,
    write: &Option<UnitWrite>,
) -> Result<(), Failure>
    requires steady { IsSteadyOver by_domain (state S.Store tx.old.conn.now) }
    ensures same_reference { tx.new.conn.ghost_name ≡ tx.old.conn.ghost_name }
    ensures put { IsInsideOf by_domain (state S.Store tx.old.conn.now) (state S.Store tx.new.conn.now) result (MakesAct row.now domain.now lang.now key.now write.now) }
    ensures figures { IsInsideOf by_domain (state S.Store tx.old.conn.now) (state S.Store tx.new.conn.now) result (FollowsAct domain.now lang.now key.now write.now) }
    ensures disk { FailsTruly (state S.Store tx.old.conn.now) (state S.Store tx.new.conn.now) result }
{
    put_record_of(tx, alloc, row)?;
    match write {
        Some(write) => write_unit_in(tx, alloc, domain, lang, key, write),
        None => Ok(()),
    }
}

/// Writes what an act writes of a unit of a domain that is there; of another nothing.
fn write_unit_in<S: Alter>(
    tx: &mut Transaction<'_, S>,
    alloc: Global,
    domain: &Name,
    lang: &Lang,
    key: &Key,
    write: &UnitWrite,
) -> Result<(), Failure>
    requires steady { IsSteadyOver by_domain (state S.Store tx.old.conn.now) }
    ensures same_reference { tx.new.conn.ghost_name ≡ tx.old.conn.ghost_name }
    ensures put { IsInsideOf by_domain (state S.Store tx.old.conn.now) (state S.Store tx.new.conn.now) result (WritesIn domain.now (WritesOfUnit lang.now key.now write.now)) }
    ensures figures { IsInsideOf by_domain (state S.Store tx.old.conn.now) (state S.Store tx.new.conn.now) result (FollowsIn domain.now (FollowsWrite domain.now lang.now key.now write.now)) }
    ensures disk { FailsTruly (state S.Store tx.old.conn.now) (state S.Store tx.new.conn.now) result }
{
    let found = find_domain(tx, domain.as_str())?;
    match found {
        Some(row) => {
            drop(row);
            write_of_unit(tx, alloc, domain, lang, key, write)
        }
        None => Ok(()),
    }
}

/// Records a request and writes what its act on the office changes, if it changes anything. A change of a domain that isn't there writes
/// nothing behind the record.
pub fn commit_change<S: Alter>(
    connection: &mut Connection<S>,
    alloc: Global,
    row: &Record,
    change: &Option<Change>,
) -> Result<(), Failure>
    requires autocommit { connection.old.in_transaction ≡ false }
    requires idle { IsIdleOver by_domain (state S.Store connection.old) }
    ensures committed { IsCommitOf by_domain (state S.Store connection.old) (state S.Store connection.new) result (CommitsChange row.now change.now) }
    ensures disk { FailsTruly (state S.Store connection.old) (state S.Store connection.new) result }
{
    let mut tx = connection.transaction();
    let put = put_record_and_change(&mut tx, alloc, row, change);
    finish(tx, put)
}

/// Writes a request's record, and what its act changes, if it changes anything.
fn put_record_and_change<S: Alter>(
    tx: &mut Transaction<'_, S>,
    alloc: Global,
    row: &Record,
    change: &Option<Change>,
) -> Result<(), Failure>
    requires steady { IsSteadyOver by_domain (state S.Store tx.old.conn.now) }
    ensures same_reference { tx.new.conn.ghost_name ≡ tx.old.conn.ghost_name }
    ensures put { IsInsideOf by_domain (state S.Store tx.old.conn.now) (state S.Store tx.new.conn.now) result (MakesChange row.now change.now) }
    ensures figures { IsInsideOf by_domain (state S.Store tx.old.conn.now) (state S.Store tx.new.conn.now) result (FollowsChange change.now) }
    ensures disk { FailsTruly (state S.Store tx.old.conn.now) (state S.Store tx.new.conn.now) result }
{
    put_record_of(tx, alloc, row)?;
    match change {
        Some(change) => write_change(tx, alloc, change),
        None => Ok(()),
    }
}

/// Writes a change of the office.
fn write_change<S: Alter>(
    tx: &mut Transaction<'_, S>,
    alloc: Global,
    change: &Change,
) -> Result<(), Failure>
    requires steady { IsSteadyOver by_domain (state S.Store tx.old.conn.now) }
    ensures same_reference { tx.new.conn.ghost_name ≡ tx.old.conn.ghost_name }
    ensures put { IsInsideOf by_domain (state S.Store tx.old.conn.now) (state S.Store tx.new.conn.now) result (WritesChange change.now) }
    ensures figures { IsInsideOf by_domain (state S.Store tx.old.conn.now) (state S.Store tx.new.conn.now) result (FollowsOneChange change.now) }
    ensures disk { FailsTruly (state S.Store tx.old.conn.now) (state S.Store tx.new.conn.now) result }
{
    match change {
        Change::OneRole(name, role) => {
            write_role(tx, name.as_str(), *role).map_err(Failure::from)
        }
        Change::NewPolicy(policy) => write_policy(tx, policy).map_err(Failure::from),
        Change::NewDomain(domain) => put_domain(tx, domain.as_str()).map_err(Failure::from),
        Change::InDomain(domain, change) => write_change_in(tx, alloc, domain, change),
    }
}

/// Writes a change of a domain that is there; of another nothing.
fn write_change_in<S: Alter>(
    tx: &mut Transaction<'_, S>,
    alloc: Global,
    domain: &Name,
    change: &DomainChange,
) -> Result<(), Failure>
    requires steady { IsSteadyOver by_domain (state S.Store tx.old.conn.now) }
    ensures same_reference { tx.new.conn.ghost_name ≡ tx.old.conn.ghost_name }
    ensures put { IsInsideOf by_domain (state S.Store tx.old.conn.now) (state S.Store tx.new.conn.now) result (WritesIn domain.now (WritesDomainChange change.now)) }
    ensures figures { IsInsideOf by_domain (state S.Store tx.old.conn.now) (state S.Store tx.new.conn.now) result (FollowsIn domain.now (FollowsDomainChange domain.now change.now)) }
    ensures disk { FailsTruly (state S.Store tx.old.conn.now) (state S.Store tx.new.conn.now) result }
{
    let found = find_domain(tx, domain.as_str())?;
    match found {
        Some(row) => {
            drop(row);
            write_domain_change(tx, alloc, domain, change)
        }
        None => Ok(()),
    }
}

/// Writes a change of a domain.
fn write_domain_change<S: Alter>(
    tx: &mut Transaction<'_, S>,
    alloc: Global,
    domain: &Name,
    change: &DomainChange,
) -> Result<(), Failure>
    requires steady { IsSteadyOver by_domain (state S.Store tx.old.conn.now) }
    ensures same_reference { tx.new.conn.ghost_name ≡ tx.old.conn.ghost_name }
    ensures put { IsInsideOf by_domain (state S.Store tx.old.conn.now) (state S.Store tx.new.conn.now) result (OnDomain domain.now (WritesDomainChange change.now)) }
    ensures figures { IsInsideOf by_domain (state S.Store tx.old.conn.now) (state S.Store tx.new.conn.now) result (FollowsDomainChange domain.now change.now) }
    ensures disk { FailsTruly (state S.Store tx.old.conn.now) (state S.Store tx.new.conn.now) result }
{
    match change {
        DomainChange::NewLanguage(lang, language, plan, tally) => write_language(
            tx,
            alloc,
            domain,
            lang,
            &language.header,
            plan.units.as_slice(),
            *tally,
        ),
        DomainChange::NewTemplate(template, plans, tallies) => write_template(
            tx,
            alloc,
            domain,
            template.entries(),
            plans.as_slice(),
            tallies.as_slice(),
        ),
    }
}
