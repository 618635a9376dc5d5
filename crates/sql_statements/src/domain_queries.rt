//! The entries of a domain's template, each beside its unit.

ghost use Rattle.std.specs.Prelude.{◌≡◌, ⊤, false, IsTrue, IfErr};
ghost use Rattle.sqlite.specs.Held.{state};
ghost use Rattle.sqlite.specs.Order.{Row as RowValue};
ghost use Rattle.sqlite.specs.State.{HasCleanDisk};
ghost use Rattle.sql_schema.specs.Layouts.{by_domain, rows_named};
ghost use Rattle.sql_schema.specs.SeenRows.{seen_in};
ghost use Rattle.sql_schema.specs.Whole.{IsIdleOver, IsLookUp};
ghost use Rattle.sql_statements.specs.Queries.{AreUnits, ShowsMessagesIn, ShowsObsoleteIn};
ghost use Rattle.sql_statements.specs.Unrefused.{RefusesNoWalk};
ghost use Rattle.sql_streams.specs.Walks.{HandsOut, FailsTruly};

use sql_streams::{RowSink, WalkFault, walk};
use sqlite::{Alter, Connection, params};

/// Hands the entries of a domain's template in order to a sink, each beside its unit in a language, of a connection that is open.
pub fn walk_domain_messages<'a, S: Alter, K: RowSink>(
    connection: &mut Connection<S>,
    domain: &'a str,
    lang: &'a str,
    sink: &mut K,
) -> Result<(), WalkFault<K::Refusal>>
    requires autocommit { connection.old.in_transaction ≡ false }
    requires idle { IsIdleOver by_domain (state S.Store connection.old) }
    requires is_open { HasCleanDisk (state S.Store connection.old) → IsTrue (state S.Store connection.old).is_open }
    ensures handed { (unit_of : RowValue → RowValue) → AreUnits lang.now (seen_in domain.now (rows_named (state S.Store connection.old).now)) unit_of → HasCleanDisk (state S.Store connection.new)
        → HandsOut K.Took K.Refuses (ShowsMessagesIn unit_of (seen_in domain.now (rows_named (state S.Store connection.old).now))) sink.old sink.new result }
    ensures looked { IsLookUp (state S.Store connection.old) (state S.Store connection.new) result (λ _ _. ⊤) }
    ensures disk { HasCleanDisk (state S.Store connection.new) → IfErr result (FailsTruly (state S.Store connection.old) (state S.Store connection.new)) }
    ensures errors { RefusesNoWalk (state S.Store connection.old) (state S.Store connection.new) result }
{
    walk(
        connection,
        "SELECT d_template.plural, extracted, refs, flags, d_template.key, place, forms, state, comment, previous FROM d_template JOIN d_unit ON d_unit.domain = d_template.domain AND d_unit.key = d_template.key WHERE d_template.domain = ?1 AND d_unit.lang = ?2 ORDER BY place",
        params![domain, lang],
        sink,
    )
}

/// Hands the obsolete units of a domain's language to a sink, in the order of their keys, of a connection that is open.
pub fn walk_domain_obsolete<'a, S: Alter, K: RowSink>(
    connection: &mut Connection<S>,
    domain: &'a str,
    lang: &'a str,
    sink: &mut K,
) -> Result<(), WalkFault<K::Refusal>>
    requires autocommit { connection.old.in_transaction ≡ false }
    requires idle { IsIdleOver by_domain (state S.Store connection.old) }
    requires is_open { HasCleanDisk (state S.Store connection.old) → IsTrue (state S.Store connection.old).is_open }
    ensures handed { HasCleanDisk (state S.Store connection.new)
        → HandsOut K.Took K.Refuses (ShowsObsoleteIn lang.now (seen_in domain.now (rows_named (state S.Store connection.old).now))) sink.old sink.new result }
    ensures looked { IsLookUp (state S.Store connection.old) (state S.Store connection.new) result (λ _ _. ⊤) }
    ensures disk { HasCleanDisk (state S.Store connection.new) → IfErr result (FailsTruly (state S.Store connection.old) (state S.Store connection.new)) }
    ensures errors { RefusesNoWalk (state S.Store connection.old) (state S.Store connection.new) result }
{
    walk(
        connection,
        "SELECT plural, forms, state, comment, previous, key FROM d_unit WHERE domain = ?1 AND lang = ?2 AND obsolete = 1 ORDER BY key",
        params![domain, lang],
        sink,
    )
}
