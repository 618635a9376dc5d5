//! The rows of figures that tables keep, read in one transaction: the tallies of tables by domains, and of tables without a column for a domain
//! also the sums, and what these are of. It ends by a commit, since only that tells that the connection is still open.
ghost use Rattle.std.specs.Prelude.{◌≡◌, true, false};
ghost use Rattle.sqlite.specs.Held.{state};
ghost use Rattle.sql_schema.specs.Inside.{IsSteadyOver, IsReadOf};
ghost use Rattle.sql_schema.specs.Layouts.{for_main, by_domain};
ghost use Rattle.sql_schema.specs.Whole.{IsIdleOver, IsLookUp};
ghost use Rattle.sql_adoption.specs.FigureRows.{ShowsAllTallies, ShowsMainTallies, ShowsMainNumbers, ShowsMainVotes, ShowsMainSums, ShowsMainFigures};
ghost use Rattle.sql_laws.specs.DiskErrors.{BlamesTruly};

use sqlite::{Alter, Connection, Error, Row, Transaction};

/// The tallies of all domains by domain and language: each one's domain, language, untranslated, needing editing, translated, approved,
/// read-only, suggestions and obsolete.
fn all_tallies<S: Alter>(tx: &mut Transaction<'_, S>) -> Result<Vec<Row>, Error>
    requires steady { IsSteadyOver by_domain (state S.Store tx.old.conn.now) }
    ensures same_reference { tx.new.conn.ghost_name ≡ tx.old.conn.ghost_name }
    ensures found { IsReadOf by_domain (state S.Store tx.old.conn.now) (state S.Store tx.new.conn.now) result
        (λ db rows. ShowsAllTallies db rows.items) }
    ensures disk { BlamesTruly (state S.Store tx.old.conn.now) (state S.Store tx.new.conn.now) result }
{
    tx.query_all(
        "SELECT domain, lang, untranslated, needs_editing, translated, approved, read_only, suggestions, obsolete FROM d_tally ORDER BY domain, lang",
        &[],
    )
}

/// The tallies of tables by domains. On an error nothing is known of them, and the rows are as before.
pub(crate) fn look_up_tallies<S: Alter>(connection: &mut Connection<S>) -> Result<Vec<Row>, Error>
    requires autocommit { connection.old.in_transaction ≡ false }
    requires idle { IsIdleOver by_domain (state S.Store connection.old) }
    ensures found { IsLookUp (state S.Store connection.old) (state S.Store connection.new) result
        (λ db rows. ShowsAllTallies db rows.items) }
    ensures disk { BlamesTruly (state S.Store connection.old) (state S.Store connection.new) result }
{
    let mut tx = connection.transaction();
    let rows = all_tallies(&mut tx)?;
    tx.commit()?;
    Ok(rows)
}

// ---- those of tables without a column for a domain

/// All tallies, each behind its domain and its language, the numbers of all suggestions, all votes on these, and all sums of votes.
#[derive(Drop)]
pub struct FigureRows {
    pub tallies: Vec<Row>,
    pub suggestions: Vec<Row>,
    pub votes: Vec<Row>,
    pub sums: Vec<Row>,
}

/// The tallies of all languages: `main`, and each one's language, untranslated, needing editing, translated, approved, read-only,
/// suggestions and obsolete.
fn main_tallies<S: Alter>(tx: &mut Transaction<'_, S>) -> Result<Vec<Row>, Error>
    requires steady { IsSteadyOver (for_main true) (state S.Store tx.old.conn.now) }
    ensures same_reference { tx.new.conn.ghost_name ≡ tx.old.conn.ghost_name }
    ensures found { IsReadOf (for_main true) (state S.Store tx.old.conn.now) (state S.Store tx.new.conn.now) result
        (λ db rows. ShowsMainTallies db rows.items) }
    ensures disk { BlamesTruly (state S.Store tx.old.conn.now) (state S.Store tx.new.conn.now) result }
{
    tx.query_all(
        "SELECT 'main' AS domain, lang, untranslated, needs_editing, translated, approved, read_only, suggestions, obsolete FROM tally",
        &[],
    )
}

/// The numbers of all suggestions, in their order.
fn main_numbers<S: Alter>(tx: &mut Transaction<'_, S>) -> Result<Vec<Row>, Error>
    requires steady { IsSteadyOver (for_main true) (state S.Store tx.old.conn.now) }
    ensures same_reference { tx.new.conn.ghost_name ≡ tx.old.conn.ghost_name }
    ensures found { IsReadOf (for_main true) (state S.Store tx.old.conn.now) (state S.Store tx.new.conn.now) result
        (λ db rows. ShowsMainNumbers db rows.items) }
    ensures disk { BlamesTruly (state S.Store tx.old.conn.now) (state S.Store tx.new.conn.now) result }
{
    tx.query_all("SELECT number FROM suggestion ORDER BY number", &[])
}

/// All votes by number and voter: each one's voter, value and number.
fn main_votes<S: Alter>(tx: &mut Transaction<'_, S>) -> Result<Vec<Row>, Error>
    requires steady { IsSteadyOver (for_main true) (state S.Store tx.old.conn.now) }
    ensures same_reference { tx.new.conn.ghost_name ≡ tx.old.conn.ghost_name }
    ensures found { IsReadOf (for_main true) (state S.Store tx.old.conn.now) (state S.Store tx.new.conn.now) result
        (λ db rows. ShowsMainVotes db rows.items) }
    ensures disk { BlamesTruly (state S.Store tx.old.conn.now) (state S.Store tx.new.conn.now) result }
{
    tx.query_all(
        "SELECT voter, value, number FROM vote ORDER BY number, voter",
        &[],
    )
}

/// The sums by number: each one's number and sum.
fn main_sums<S: Alter>(tx: &mut Transaction<'_, S>) -> Result<Vec<Row>, Error>
    requires steady { IsSteadyOver (for_main true) (state S.Store tx.old.conn.now) }
    ensures same_reference { tx.new.conn.ghost_name ≡ tx.old.conn.ghost_name }
    ensures found { IsReadOf (for_main true) (state S.Store tx.old.conn.now) (state S.Store tx.new.conn.now) result
        (λ db rows. ShowsMainSums db rows.items) }
    ensures disk { BlamesTruly (state S.Store tx.old.conn.now) (state S.Store tx.new.conn.now) result }
{
    tx.query_all("SELECT number, sum FROM vote_sum ORDER BY number", &[])
}

/// All of them. It wants the transaction open and leaves it open.
fn main_figures<S: Alter>(tx: &mut Transaction<'_, S>) -> Result<FigureRows, Error>
    requires steady { IsSteadyOver (for_main true) (state S.Store tx.old.conn.now) }
    ensures same_reference { tx.new.conn.ghost_name ≡ tx.old.conn.ghost_name }
    ensures found { IsReadOf (for_main true) (state S.Store tx.old.conn.now) (state S.Store tx.new.conn.now) result ShowsMainFigures }
    ensures disk { BlamesTruly (state S.Store tx.old.conn.now) (state S.Store tx.new.conn.now) result }
{
    let tallies = main_tallies(tx)?;
    let suggestions = main_numbers(tx)?;
    let votes = main_votes(tx)?;
    let sums = main_sums(tx)?;
    Ok(FigureRows {
        tallies,
        suggestions,
        votes,
        sums,
    })
}

/// The rows of figures of tables without a column for a domain, and those that they are of, as those of `main`. On an error nothing is known
/// of them, and the rows are as before.
pub(crate) fn look_up_main_figures<S: Alter>(
    connection: &mut Connection<S>,
) -> Result<FigureRows, Error>
    requires autocommit { connection.old.in_transaction ≡ false }
    requires idle { IsIdleOver (for_main true) (state S.Store connection.old) }
    ensures found { IsLookUp (state S.Store connection.old) (state S.Store connection.new) result ShowsMainFigures }
    ensures disk { BlamesTruly (state S.Store connection.old) (state S.Store connection.new) result }
{
    let mut tx = connection.transaction();
    let rows = main_figures(&mut tx)?;
    tx.commit()?;
    Ok(rows)
}
