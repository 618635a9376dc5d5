//! The entries of a domain's template, each with its unit, and the obsolete units' entries, each when the next was read.

ghost use Rattle.std.specs.Prelude.{◌≡◌, ◌∷◌, ⊤, false, IsTrue, List};
ghost use Rattle.std.specs.List.{filter_map};
ghost use Rattle.sqlite.specs.Held.{state};
ghost use Rattle.sqlite.specs.Order.{Row as RowValue};
ghost use Rattle.sqlite.specs.State.{HasCleanDisk};
ghost use Rattle.po_text.specs.declared.entry.Entry.{Entry as EntryValue};
ghost use Rattle.sql_schema.specs.Whole.{IsIdleOver, IsLookUp};
ghost use Rattle.sql_statements.specs.Queries.{AreUnits, ShowsMessagesIn, ShowsObsoleteIn};
ghost use Rattle.sql_exports.specs.Handing.{GivesAllBut, IsTold, CutsTruly};
ghost use Rattle.sql_schema.specs.Layouts.{by_domain, rows_named};
ghost use Rattle.sql_schema.specs.SeenRows.{seen_in};

use crate::entry_rows::{EntryReader, EntryRows};
use po_text::Entry;
use sql_decoding::Failure;
use sql_statements::domain_queries::{walk_domain_messages, walk_domain_obsolete};
use sql_streams::WalkFault;
use sqlite::{Alter, Connection};
use tables::{EachFault, EntrySink};

/// What a walk that was cut short comes to: the query's failure, or what was told of a row. A row that isn't read is refused, so that
/// `Disk` is told of the connection alone.
fn walk_fault<R: Drop>(fault: WalkFault<EachFault<R>>) -> EachFault<R>
    ensures { IsTold fault result }
{
    match fault {
        WalkFault::NoRows(error) => EachFault::NoTables(Failure::from(error).lost),
        WalkFault::NoSink(EachFault::NoTables(lost)) => {
            EachFault::NoTables(Failure { lost }.refused().lost)
        }
        WalkFault::NoSink(EachFault::NoSink(refusal)) => EachFault::NoSink(refusal),
    }
}

/// Hands an entry and then those of a domain's template in order, each with its unit in a language, to a sink, of a connection that is open.
/// The last is held back instead.
pub(crate) fn hand_messages<'a, S: Alter, R: EntryReader, K: EntrySink>(
    connection: &mut Connection<S>,
    domain: &'a str,
    lang: &'a str,
    reader: &R,
    held: &mut Entry,
    sink: &mut K,
) -> Result<(), EachFault<K::Refusal>>
    requires autocommit { connection.old.in_transaction ≡ false }
    requires idle { IsIdleOver by_domain (state S.Store connection.old) }
    requires is_open { HasCleanDisk (state S.Store connection.old) → IsTrue (state S.Store connection.old).is_open }
    ensures handed { (unit_of : RowValue → RowValue) (entries : List EntryValue) → AreUnits lang.now (seen_in domain.now (rows_named (state S.Store connection.old).now)) unit_of
        → ((rows : List RowValue) → ShowsMessagesIn unit_of (seen_in domain.now (rows_named (state S.Store connection.old).now)) rows → filter_map R.entry rows ≡ entries)
        → HasCleanDisk (state S.Store connection.new) → GivesAllBut K.Took K.Refuses sink.old sink.new (held.old ∷ entries) held.new result }
    ensures looked { IsLookUp (state S.Store connection.old) (state S.Store connection.new) result (λ _ _. ⊤) }
    ensures disk { CutsTruly (state S.Store connection.old) (state S.Store connection.new) result }
{
    let mut rows = EntryRows::new(reader, held, sink);
    match walk_domain_messages(connection, domain, lang, &mut rows) {
        Ok(()) => Ok(()),
        Err(fault) => Err(walk_fault(fault)),
    }
}

/// Hands an entry and then those of the obsolete units of a domain's language, in the order of their keys, to a sink, of a connection that is open.
/// Rows that stand for no entry are passed over. The last entry is held back instead.
pub(crate) fn hand_obsolete<'a, S: Alter, R: EntryReader, K: EntrySink>(
    connection: &mut Connection<S>,
    domain: &'a str,
    lang: &'a str,
    reader: &R,
    held: &mut Entry,
    sink: &mut K,
) -> Result<(), EachFault<K::Refusal>>
    requires autocommit { connection.old.in_transaction ≡ false }
    requires idle { IsIdleOver by_domain (state S.Store connection.old) }
    requires is_open { HasCleanDisk (state S.Store connection.old) → IsTrue (state S.Store connection.old).is_open }
    ensures handed { (entries : List EntryValue)
        → ((rows : List RowValue) → ShowsObsoleteIn lang.now (seen_in domain.now (rows_named (state S.Store connection.old).now)) rows → filter_map R.entry rows ≡ entries)
        → HasCleanDisk (state S.Store connection.new) → GivesAllBut K.Took K.Refuses sink.old sink.new (held.old ∷ entries) held.new result }
    ensures looked { IsLookUp (state S.Store connection.old) (state S.Store connection.new) result (λ _ _. ⊤) }
    ensures disk { CutsTruly (state S.Store connection.old) (state S.Store connection.new) result }
{
    let mut rows = EntryRows::new(reader, held, sink);
    match walk_domain_obsolete(connection, domain, lang, &mut rows) {
        Ok(()) => Ok(()),
        Err(fault) => Err(walk_fault(fault)),
    }
}
