//! What a domain sees of the whole office, read in one transaction. It ends by a commit, since only that tells that the connection is
//! still open.
ghost use Rattle.std.specs.Prelude.{◌≡◌, [], false};
ghost use Rattle.sqlite.specs.Held.{state};
ghost use Rattle.sql_laws.specs.DiskErrors.{BlamesTruly};
ghost use Rattle.sql_schema.specs.Errors.{RefusesNoRead};
ghost use Rattle.sql_schema.specs.Layouts.{by_domain, rows_named};
ghost use Rattle.sql_schema.specs.SeenRows.{seen_in};
ghost use Rattle.sql_schema.specs.Inside.{IsSteadyOver, IsReadOf};
ghost use Rattle.sql_schema.specs.Whole.{IsIdleOver, IsLookUp};
ghost use Rattle.sql_statements.specs.WholeOffice.{ShowsOfficeTablesIn, ShowsUnitTablesIn, ShowsWholeOfficeIn, without_units};

use crate::domain_languages::all_domain_languages;
use crate::domain_suggestions::all_domain_suggestions;
use crate::domain_template::all_domain_entries;
use crate::domain_units::all_domain_units;
use crate::domain_votes::all_domain_votes;
use crate::policy::find_policy;
use crate::team::all_members;
use crate::whole_office::{OfficeTables, UnitTables, WholeOffice};
use sqlite::{Alter, Connection, Error, Transaction};
use std::alloc::Global;

/// The office's own tables, with the template and the languages of a domain.
fn domain_office_tables<S: Alter>(
    tx: &mut Transaction<'_, S>,
    domain: &str,
) -> Result<OfficeTables, Error>
    requires steady { IsSteadyOver by_domain (state S.Store tx.old.conn.now) }
    ensures same_reference { tx.new.conn.ghost_name ≡ tx.old.conn.ghost_name }
    ensures found { IsReadOf by_domain (state S.Store tx.old.conn.now) (state S.Store tx.new.conn.now) result
        (λ db rows. ShowsOfficeTablesIn (seen_in domain.now (rows_named db)) rows) }
    ensures disk { BlamesTruly (state S.Store tx.old.conn.now) (state S.Store tx.new.conn.now) result }
    ensures errors { RefusesNoRead (state S.Store tx.old.conn.now) (state S.Store tx.new.conn.now) result }
{
    let policy = find_policy(tx)?;
    let team = all_members(tx)?;
    let template = all_domain_entries(tx, domain)?;
    let languages = all_domain_languages(tx, domain)?;
    Ok(OfficeTables {
        team,
        policy,
        template,
        languages,
    })
}

/// The units of a domain, the suggestions on them and the votes on these.
fn domain_unit_tables<S: Alter>(
    tx: &mut Transaction<'_, S>,
    domain: &str,
) -> Result<UnitTables, Error>
    requires steady { IsSteadyOver by_domain (state S.Store tx.old.conn.now) }
    ensures same_reference { tx.new.conn.ghost_name ≡ tx.old.conn.ghost_name }
    ensures found { IsReadOf by_domain (state S.Store tx.old.conn.now) (state S.Store tx.new.conn.now) result
        (λ db rows. ShowsUnitTablesIn (seen_in domain.now (rows_named db)) rows) }
    ensures disk { BlamesTruly (state S.Store tx.old.conn.now) (state S.Store tx.new.conn.now) result }
    ensures errors { RefusesNoRead (state S.Store tx.old.conn.now) (state S.Store tx.new.conn.now) result }
{
    let units = all_domain_units(tx, domain)?;
    let suggestions = all_domain_suggestions(tx, domain)?;
    let votes = all_domain_votes(tx, domain)?;
    Ok(UnitTables {
        units,
        suggestions,
        votes,
    })
}

/// All rows that a domain sees, each table in the order of its key. It wants the transaction open and leaves it open.
pub fn domain_tables<S: Alter>(
    tx: &mut Transaction<'_, S>,
    domain: &str,
) -> Result<WholeOffice, Error>
    requires steady { IsSteadyOver by_domain (state S.Store tx.old.conn.now) }
    ensures same_reference { tx.new.conn.ghost_name ≡ tx.old.conn.ghost_name }
    ensures found { IsReadOf by_domain (state S.Store tx.old.conn.now) (state S.Store tx.new.conn.now) result
        (λ db rows. ShowsWholeOfficeIn (seen_in domain.now (rows_named db)) rows) }
    ensures disk { BlamesTruly (state S.Store tx.old.conn.now) (state S.Store tx.new.conn.now) result }
    ensures errors { RefusesNoRead (state S.Store tx.old.conn.now) (state S.Store tx.new.conn.now) result }
{
    let office = domain_office_tables(tx, domain)?;
    let units = domain_unit_tables(tx, domain)?;
    Ok(WholeOffice { office, units })
}

/// All rows that a domain sees, each table in the order of its key. On an error nothing is known of them, and the rows are as before.
pub fn look_up_domain<S: Alter>(
    connection: &mut Connection<S>,
    domain: &str,
) -> Result<WholeOffice, Error>
    requires autocommit { connection.old.in_transaction ≡ false }
    requires idle { IsIdleOver by_domain (state S.Store connection.old) }
    ensures found { IsLookUp (state S.Store connection.old) (state S.Store connection.new) result
        (λ db rows. ShowsWholeOfficeIn (seen_in domain.now (rows_named db)) rows) }
    ensures disk { BlamesTruly (state S.Store connection.old) (state S.Store connection.new) result }
    ensures errors { RefusesNoRead (state S.Store connection.old) (state S.Store connection.new) result }
{
    let mut tx = connection.transaction();
    let rows = domain_tables(&mut tx, domain)?;
    tx.commit()?;
    Ok(rows)
}

// ---- without units

/// The rows of no unit.
fn no_units(alloc: Global) -> UnitTables
    ensures units { result.units.items ≡ [] }
    ensures suggestions { result.suggestions.items ≡ [] }
    ensures votes { result.votes.items ≡ [] }
{
    UnitTables {
        units: Vec::new(alloc),
        suggestions: Vec::new(alloc),
        votes: Vec::new(alloc),
    }
}

/// What a domain sees of the office, but for its units, the suggestions on them and the votes on these. On an error nothing is known of them, and the
/// rows are as before.
pub fn look_up_frame<S: Alter>(
    connection: &mut Connection<S>,
    alloc: Global,
    domain: &str,
) -> Result<WholeOffice, Error>
    requires autocommit { connection.old.in_transaction ≡ false }
    requires idle { IsIdleOver by_domain (state S.Store connection.old) }
    ensures found { IsLookUp (state S.Store connection.old) (state S.Store connection.new) result
        (λ db rows. ShowsWholeOfficeIn (seen_in domain.now (without_units (rows_named db))) rows) }
    ensures disk { BlamesTruly (state S.Store connection.old) (state S.Store connection.new) result }
    ensures errors { RefusesNoRead (state S.Store connection.old) (state S.Store connection.new) result }
{
    let mut tx = connection.transaction();
    let office = domain_office_tables(&mut tx, domain)?;
    tx.commit()?;
    Ok(WholeOffice {
        office,
        units: no_units(alloc),
    })
}
