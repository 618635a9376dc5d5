//! Units, suggestions and votes, handed on one at a time, each with what a test of it asks of other tables.

ghost use Rattle.std.specs.Prelude.{◌≡◌, ⊤, false, IsTrue, IfErr};
ghost use Rattle.sqlite.specs.Held.{state};
ghost use Rattle.sqlite.specs.State.{HasCleanDisk};
ghost use Rattle.sql_schema.specs.Layouts.{by_domain};
ghost use Rattle.sql_schema.specs.Whole.{IsIdleOver, IsLookUp};
ghost use Rattle.sql_statements.specs.WalkedRows.{ShowsAllVotes, ShowsUnplaced, ShowsUnitsOf, ShowsSuggestionsOf};
ghost use Rattle.sql_statements.specs.Unrefused.{RefusesNoWalk};
ghost use Rattle.sql_streams.specs.Walks.{HandsOut, FailsTruly};

use sql_streams::{RowSink, WalkFault, walk};
use sqlite::{Alter, Connection, params};

/// Hands all votes to a sink by number and voter: each one's voter, value and number, of a connection that is open.
pub fn walk_votes<S: Alter, K: RowSink>(
    connection: &mut Connection<S>,
    sink: &mut K,
) -> Result<(), WalkFault<K::Refusal>>
    requires autocommit { connection.old.in_transaction ≡ false }
    requires idle { IsIdleOver by_domain (state S.Store connection.old) }
    requires is_open { HasCleanDisk (state S.Store connection.old) → IsTrue (state S.Store connection.old).is_open }
    ensures handed { HasCleanDisk (state S.Store connection.new)
        → HandsOut K.Took K.Refuses (ShowsAllVotes (state S.Store connection.old).now) sink.old sink.new result }
    ensures looked { IsLookUp (state S.Store connection.old) (state S.Store connection.new) result (λ _ _. ⊤) }
    ensures disk { HasCleanDisk (state S.Store connection.new) → IfErr result (FailsTruly (state S.Store connection.old) (state S.Store connection.new)) }
    ensures errors { RefusesNoWalk (state S.Store connection.old) (state S.Store connection.new) result }
{
    walk(
        connection,
        "SELECT voter, value, number FROM d_vote ORDER BY number, voter",
        &[],
        sink,
    )
}

/// Hands each unit to a sink whose language isn't there, by domain, language and key: its domain and its language, of a connection that is open.
pub fn walk_unplaced<S: Alter, K: RowSink>(
    connection: &mut Connection<S>,
    sink: &mut K,
) -> Result<(), WalkFault<K::Refusal>>
    requires autocommit { connection.old.in_transaction ≡ false }
    requires idle { IsIdleOver by_domain (state S.Store connection.old) }
    requires is_open { HasCleanDisk (state S.Store connection.old) → IsTrue (state S.Store connection.old).is_open }
    ensures handed { HasCleanDisk (state S.Store connection.new)
        → HandsOut K.Took K.Refuses (ShowsUnplaced (state S.Store connection.old).now) sink.old sink.new result }
    ensures looked { IsLookUp (state S.Store connection.old) (state S.Store connection.new) result (λ _ _. ⊤) }
    ensures disk { HasCleanDisk (state S.Store connection.new) → IfErr result (FailsTruly (state S.Store connection.old) (state S.Store connection.new)) }
    ensures errors { RefusesNoWalk (state S.Store connection.old) (state S.Store connection.new) result }
{
    walk(
        connection,
        "SELECT domain, lang FROM d_unit WHERE (SELECT count(*) FROM d_language WHERE d_language.domain = d_unit.domain AND d_language.lang = d_unit.lang) = 0 ORDER BY domain, lang, key",
        &[],
        sink,
    )
}

/// Hands the units of a domain's language to a sink by key: each one's plural, forms, state, whether it is obsolete, revision, comment, previous
/// texts, language and key, and how many suggestions are on it, of a connection that is open.
pub fn walk_units<S: Alter, K: RowSink>(
    connection: &mut Connection<S>,
    domain: &str,
    lang: &str,
    sink: &mut K,
) -> Result<(), WalkFault<K::Refusal>>
    requires autocommit { connection.old.in_transaction ≡ false }
    requires idle { IsIdleOver by_domain (state S.Store connection.old) }
    requires is_open { HasCleanDisk (state S.Store connection.old) → IsTrue (state S.Store connection.old).is_open }
    ensures handed { HasCleanDisk (state S.Store connection.new)
        → HandsOut K.Took K.Refuses (ShowsUnitsOf domain.now lang.now (state S.Store connection.old).now) sink.old sink.new result }
    ensures looked { IsLookUp (state S.Store connection.old) (state S.Store connection.new) result (λ _ _. ⊤) }
    ensures disk { HasCleanDisk (state S.Store connection.new) → IfErr result (FailsTruly (state S.Store connection.old) (state S.Store connection.new)) }
    ensures errors { RefusesNoWalk (state S.Store connection.old) (state S.Store connection.new) result }
{
    walk(
        connection,
        "SELECT plural, forms, state, obsolete, revision, comment, previous, lang, key, (SELECT count(*) FROM d_suggestion WHERE d_suggestion.domain = d_unit.domain AND d_suggestion.lang = d_unit.lang AND d_suggestion.key = d_unit.key) AS suggestions FROM d_unit WHERE domain = ?1 AND lang = ?2 ORDER BY key",
        params![domain, lang],
        sink,
    )
}

/// Hands the suggestions on units of a domain's language to a sink by key and place: each one's number, place, suggester, forms, language and
/// key, and how many plurals its unit has, of a connection that is open.
pub fn walk_suggestions<S: Alter, K: RowSink>(
    connection: &mut Connection<S>,
    domain: &str,
    lang: &str,
    sink: &mut K,
) -> Result<(), WalkFault<K::Refusal>>
    requires autocommit { connection.old.in_transaction ≡ false }
    requires idle { IsIdleOver by_domain (state S.Store connection.old) }
    requires is_open { HasCleanDisk (state S.Store connection.old) → IsTrue (state S.Store connection.old).is_open }
    ensures handed { HasCleanDisk (state S.Store connection.new)
        → HandsOut K.Took K.Refuses (ShowsSuggestionsOf domain.now lang.now (state S.Store connection.old).now) sink.old sink.new result }
    ensures looked { IsLookUp (state S.Store connection.old) (state S.Store connection.new) result (λ _ _. ⊤) }
    ensures disk { HasCleanDisk (state S.Store connection.new) → IfErr result (FailsTruly (state S.Store connection.old) (state S.Store connection.new)) }
    ensures errors { RefusesNoWalk (state S.Store connection.old) (state S.Store connection.new) result }
{
    walk(
        connection,
        "SELECT number, place, suggester, forms, lang, key, (SELECT count(*) FROM d_unit WHERE d_unit.domain = d_suggestion.domain AND d_unit.lang = d_suggestion.lang AND d_unit.key = d_suggestion.key AND typeof(plural) = 'text') AS plurals FROM d_suggestion WHERE domain = ?1 AND lang = ?2 ORDER BY key, place",
        params![domain, lang],
        sink,
    )
}
