//! The whole office of tables without a column for a domain, read in one transaction. It ends by a commit, since only that tells that the
//! connection is still open.
ghost use Rattle.std.specs.Prelude.{◌≡◌, false, Bool};
ghost use Rattle.sqlite.specs.Held.{state};
ghost use Rattle.sql_laws.specs.DiskErrors.{BlamesTruly};
ghost use Rattle.sql_schema.specs.Errors.{RefusesNoRead};
ghost use Rattle.sql_schema.specs.Inside.{IsSteadyOver, IsReadOf};
ghost use Rattle.sql_schema.specs.Layouts.{for_main};
ghost use Rattle.sql_schema.specs.Whole.{IsIdleOver, IsLookUp};
ghost use Rattle.sql_statements.specs.Tables.{ShowsTemplate, ShowsLanguages, ShowsUnits, ShowsSuggestions, ShowsVotes};
ghost use Rattle.sql_statements.specs.WholeOffice.{ShowsOfficeTables, ShowsUnitTables, ShowsWholeOffice};

use crate::policy::find_policy;
use crate::team::all_members;
use sqlite::{Alter, Connection, Error, Row, Transaction};

/// The rows of the office itself: its team, its policy, its template and its languages.
#[derive(Drop)]
pub struct OfficeTables {
    pub team: Vec<Row>,
    pub policy: Option<Row>,
    pub template: Vec<Row>,
    pub languages: Vec<Row>,
}

/// The rows of units, of the suggestions on them, and of the votes on these.
#[derive(Drop)]
pub struct UnitTables {
    pub units: Vec<Row>,
    pub suggestions: Vec<Row>,
    pub votes: Vec<Row>,
}

/// All rows of the seven tables.
#[derive(Drop)]
pub struct WholeOffice {
    pub office: OfficeTables,
    pub units: UnitTables,
}

/// The template by place: each entry's plural, extracted comments, references, flags, key and place.
fn all_entries<S: Alter>(tx: &mut Transaction<'_, S>) -> Result<Vec<Row>, Error>
    ensures same_reference { tx.new.conn.ghost_name ≡ tx.old.conn.ghost_name }
    ensures found { (figures : Bool) → IsSteadyOver (for_main figures) (state S.Store tx.old.conn.now)
        → IsReadOf (for_main figures) (state S.Store tx.old.conn.now) (state S.Store tx.new.conn.now) result (λ db rows. ShowsTemplate db rows.items) }
    ensures disk { BlamesTruly (state S.Store tx.old.conn.now) (state S.Store tx.new.conn.now) result }
    ensures errors { (figures : Bool) → IsSteadyOver (for_main figures) (state S.Store tx.old.conn.now)
        → RefusesNoRead (state S.Store tx.old.conn.now) (state S.Store tx.new.conn.now) result }
{
    tx.query_all(
        "SELECT plural, extracted, refs, flags, key, place FROM template ORDER BY place",
        &[],
    )
}

/// The languages by code: each one's header, plural rule and code.
fn all_languages<S: Alter>(tx: &mut Transaction<'_, S>) -> Result<Vec<Row>, Error>
    ensures same_reference { tx.new.conn.ghost_name ≡ tx.old.conn.ghost_name }
    ensures found { (figures : Bool) → IsSteadyOver (for_main figures) (state S.Store tx.old.conn.now)
        → IsReadOf (for_main figures) (state S.Store tx.old.conn.now) (state S.Store tx.new.conn.now) result (λ db rows. ShowsLanguages db rows.items) }
    ensures disk { BlamesTruly (state S.Store tx.old.conn.now) (state S.Store tx.new.conn.now) result }
    ensures errors { (figures : Bool) → IsSteadyOver (for_main figures) (state S.Store tx.old.conn.now)
        → RefusesNoRead (state S.Store tx.old.conn.now) (state S.Store tx.new.conn.now) result }
{
    tx.query_all(
        "SELECT header, plural, lang FROM language ORDER BY lang",
        &[],
    )
}

/// The units by language and key: each one's plural, forms, state, whether it is obsolete, revision, comment, previous texts, language and
/// key.
fn all_units<S: Alter>(tx: &mut Transaction<'_, S>) -> Result<Vec<Row>, Error>
    ensures same_reference { tx.new.conn.ghost_name ≡ tx.old.conn.ghost_name }
    ensures found { (figures : Bool) → IsSteadyOver (for_main figures) (state S.Store tx.old.conn.now)
        → IsReadOf (for_main figures) (state S.Store tx.old.conn.now) (state S.Store tx.new.conn.now) result (λ db rows. ShowsUnits db rows.items) }
    ensures disk { BlamesTruly (state S.Store tx.old.conn.now) (state S.Store tx.new.conn.now) result }
    ensures errors { (figures : Bool) → IsSteadyOver (for_main figures) (state S.Store tx.old.conn.now)
        → RefusesNoRead (state S.Store tx.old.conn.now) (state S.Store tx.new.conn.now) result }
{
    tx.query_all(
        "SELECT plural, forms, state, obsolete, revision, comment, previous, lang, key FROM unit ORDER BY lang, key",
        &[],
    )
}

/// The suggestions by language, key and place: each one's number, place, suggester, forms, language and key.
fn all_suggestions<S: Alter>(tx: &mut Transaction<'_, S>) -> Result<Vec<Row>, Error>
    ensures same_reference { tx.new.conn.ghost_name ≡ tx.old.conn.ghost_name }
    ensures found { (figures : Bool) → IsSteadyOver (for_main figures) (state S.Store tx.old.conn.now)
        → IsReadOf (for_main figures) (state S.Store tx.old.conn.now) (state S.Store tx.new.conn.now) result (λ db rows. ShowsSuggestions db rows.items) }
    ensures disk { BlamesTruly (state S.Store tx.old.conn.now) (state S.Store tx.new.conn.now) result }
    ensures errors { (figures : Bool) → IsSteadyOver (for_main figures) (state S.Store tx.old.conn.now)
        → RefusesNoRead (state S.Store tx.old.conn.now) (state S.Store tx.new.conn.now) result }
{
    tx.query_all(
        "SELECT number, place, suggester, forms, lang, key FROM suggestion ORDER BY lang, key, place",
        &[],
    )
}

/// The votes by number and voter: each one's voter, value and number.
fn all_votes<S: Alter>(tx: &mut Transaction<'_, S>) -> Result<Vec<Row>, Error>
    ensures same_reference { tx.new.conn.ghost_name ≡ tx.old.conn.ghost_name }
    ensures found { (figures : Bool) → IsSteadyOver (for_main figures) (state S.Store tx.old.conn.now)
        → IsReadOf (for_main figures) (state S.Store tx.old.conn.now) (state S.Store tx.new.conn.now) result (λ db rows. ShowsVotes db rows.items) }
    ensures disk { BlamesTruly (state S.Store tx.old.conn.now) (state S.Store tx.new.conn.now) result }
    ensures errors { (figures : Bool) → IsSteadyOver (for_main figures) (state S.Store tx.old.conn.now)
        → RefusesNoRead (state S.Store tx.old.conn.now) (state S.Store tx.new.conn.now) result }
{
    tx.query_all(
        "SELECT voter, value, number FROM vote ORDER BY number, voter",
        &[],
    )
}

/// The office's own tables.
fn office_tables<S: Alter>(tx: &mut Transaction<'_, S>) -> Result<OfficeTables, Error>
    ensures same_reference { tx.new.conn.ghost_name ≡ tx.old.conn.ghost_name }
    ensures found { (figures : Bool) → IsSteadyOver (for_main figures) (state S.Store tx.old.conn.now)
        → IsReadOf (for_main figures) (state S.Store tx.old.conn.now) (state S.Store tx.new.conn.now) result ShowsOfficeTables }
    ensures disk { (figures : Bool) → IsSteadyOver (for_main figures) (state S.Store tx.old.conn.now)
        → BlamesTruly (state S.Store tx.old.conn.now) (state S.Store tx.new.conn.now) result }
    ensures errors { (figures : Bool) → IsSteadyOver (for_main figures) (state S.Store tx.old.conn.now)
        → RefusesNoRead (state S.Store tx.old.conn.now) (state S.Store tx.new.conn.now) result }
{
    let policy = find_policy(tx)?;
    let team = all_members(tx)?;
    let template = all_entries(tx)?;
    let languages = all_languages(tx)?;
    Ok(OfficeTables {
        team,
        policy,
        template,
        languages,
    })
}

/// The tables of units.
fn unit_tables<S: Alter>(tx: &mut Transaction<'_, S>) -> Result<UnitTables, Error>
    ensures same_reference { tx.new.conn.ghost_name ≡ tx.old.conn.ghost_name }
    ensures found { (figures : Bool) → IsSteadyOver (for_main figures) (state S.Store tx.old.conn.now)
        → IsReadOf (for_main figures) (state S.Store tx.old.conn.now) (state S.Store tx.new.conn.now) result ShowsUnitTables }
    ensures disk { (figures : Bool) → IsSteadyOver (for_main figures) (state S.Store tx.old.conn.now)
        → BlamesTruly (state S.Store tx.old.conn.now) (state S.Store tx.new.conn.now) result }
    ensures errors { (figures : Bool) → IsSteadyOver (for_main figures) (state S.Store tx.old.conn.now)
        → RefusesNoRead (state S.Store tx.old.conn.now) (state S.Store tx.new.conn.now) result }
{
    let units = all_units(tx)?;
    let suggestions = all_suggestions(tx)?;
    let votes = all_votes(tx)?;
    Ok(UnitTables {
        units,
        suggestions,
        votes,
    })
}

/// All seven.
fn all_tables<S: Alter>(tx: &mut Transaction<'_, S>) -> Result<WholeOffice, Error>
    ensures same_reference { tx.new.conn.ghost_name ≡ tx.old.conn.ghost_name }
    ensures found { (figures : Bool) → IsSteadyOver (for_main figures) (state S.Store tx.old.conn.now)
        → IsReadOf (for_main figures) (state S.Store tx.old.conn.now) (state S.Store tx.new.conn.now) result ShowsWholeOffice }
    ensures disk { (figures : Bool) → IsSteadyOver (for_main figures) (state S.Store tx.old.conn.now)
        → BlamesTruly (state S.Store tx.old.conn.now) (state S.Store tx.new.conn.now) result }
    ensures errors { (figures : Bool) → IsSteadyOver (for_main figures) (state S.Store tx.old.conn.now)
        → RefusesNoRead (state S.Store tx.old.conn.now) (state S.Store tx.new.conn.now) result }
{
    let office = office_tables(tx)?;
    let units = unit_tables(tx)?;
    Ok(WholeOffice { office, units })
}

/// All rows of the office, each table in the order of its key. On an error nothing is known of them, and the rows are as before.
pub fn look_up_office<S: Alter>(connection: &mut Connection<S>) -> Result<WholeOffice, Error>
    requires autocommit { connection.old.in_transaction ≡ false }
    ensures found { (figures : Bool) → IsIdleOver (for_main figures) (state S.Store connection.old)
        → IsLookUp (state S.Store connection.old) (state S.Store connection.new) result ShowsWholeOffice }
    ensures disk { (figures : Bool) → IsIdleOver (for_main figures) (state S.Store connection.old)
        → BlamesTruly (state S.Store connection.old) (state S.Store connection.new) result }
    ensures errors { (figures : Bool) → IsIdleOver (for_main figures) (state S.Store connection.old)
        → RefusesNoRead (state S.Store connection.old) (state S.Store connection.new) result }
{
    let mut tx = connection.transaction();
    let rows = all_tables(&mut tx)?;
    tx.commit()?;
    Ok(rows)
}
