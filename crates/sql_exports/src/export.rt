//! The entries of a domain's language, handed out as their rows come.
ghost use Rattle.std.specs.Prelude.{◌≡◌, ◌≢◌, ◌∷◌, ◌++◌, [], ⊤, false, IfErr, IsTrue, IsSome};
ghost use Rattle.std.specs.FinMap as maps;
ghost use Rattle.sqlite.specs.Held.{state};
ghost use Rattle.sqlite.specs.State.{HasCleanDisk};
ghost use Rattle.units.specs.Projects.{IsProject};
ghost use Rattle.tables.specs.Entries.{entries_of};
ghost use Rattle.sql_schema.specs.Whole.{IsIdleOver, IsLookUp};
ghost use Rattle.sql_meaning.specs.Meaning.{project_of_rows};
ghost use Rattle.sql_exports.specs.Handing.{Gives, CutsTruly};
ghost use Rattle.tables.specs.declared.faults.EachFault.TheVariants.{NoTables};
ghost use Rattle.tables.specs.declared.faults.Lost.TheVariants.{Disk};
ghost use Rattle.sql_exports.specs.Entries.{messages_of, obsolete_of};
ghost use Rattle.sql_schema.specs.Layouts.{by_domain, rows_named};
ghost use Rattle.sql_schema.specs.SeenRows.{seen_in};

use crate::handing::{hand_messages, hand_obsolete};
use crate::header::look_up_header;
use crate::readers::{Messages, Obsolete};
use po_text::Entry;
use sqlite::{Alter, Connection};
use std::alloc::Global;
use tables::{EachFault, EntrySink};
use units::Lang;

/// Hands an entry to a sink.
fn hand<K: EntrySink>(sink: &mut K, entry: Entry) -> Result<(), EachFault<K::Refusal>>
    ensures handed { Gives K.Took K.Refuses sink.old sink.new (entry ∷ []) result }
    ensures told { IfErr result (λ fault. fault ≢ NoTables Disk) }
{
    let taken = sink.take(&entry);
    drop(entry);
    match taken {
        Ok(()) => Ok(()),
        Err(refusal) => Err(EachFault::NoSink(refusal)),
    }
}

/// Hands an entry to a sink, and then those of the obsolete units of a domain's language, of a connection that is open.
fn hand_obsolete_behind<'a, S: Alter, K: EntrySink>(
    connection: &mut Connection<S>,
    alloc: Global,
    domain: &'a str,
    lang: &'a str,
    held: Entry,
    sink: &mut K,
) -> Result<(), EachFault<K::Refusal>>
    requires autocommit { connection.old.in_transaction ≡ false }
    requires idle { IsIdleOver by_domain (state S.Store connection.old) }
    requires is_open { HasCleanDisk (state S.Store connection.old) → IsTrue (state S.Store connection.old).is_open }
    ensures handed { HasCleanDisk (state S.Store connection.new) → Gives K.Took K.Refuses sink.old sink.new
        (held ∷ obsolete_of (project_of_rows (seen_in domain.now (rows_named (state S.Store connection.old).now))) lang.now) result }
    ensures looked { IsLookUp (state S.Store connection.old) (state S.Store connection.new) result (λ _ _. ⊤) }
    ensures disk { CutsTruly (state S.Store connection.old) (state S.Store connection.new) result }
{
    let mut last = held;
    match hand_obsolete(
        connection,
        domain,
        lang,
        &Obsolete { alloc },
        &mut last,
        sink,
    ) {
        Ok(()) => hand(sink, last),
        Err(fault) => Err(fault),
    }
}

/// Hands the header of a language that is there to a sink, and then the entries behind it.
fn hand_rows<'a, S: Alter, K: EntrySink>(
    connection: &mut Connection<S>,
    alloc: Global,
    domain: &'a str,
    lang: &'a str,
    header: Entry,
    sink: &mut K,
) -> Result<(), EachFault<K::Refusal>>
    requires autocommit { connection.old.in_transaction ≡ false }
    requires idle { IsIdleOver by_domain (state S.Store connection.old) }
    requires is_open { HasCleanDisk (state S.Store connection.old) → IsTrue (state S.Store connection.old).is_open }
    requires rules { HasCleanDisk (state S.Store connection.old) → IsProject (project_of_rows (seen_in domain.now (rows_named (state S.Store connection.old).now))) }
    requires there { HasCleanDisk (state S.Store connection.old) → IsSome (maps.get (project_of_rows (seen_in domain.now (rows_named (state S.Store connection.old).now))).headers lang.now) }
    ensures handed { HasCleanDisk (state S.Store connection.new) → Gives K.Took K.Refuses sink.old sink.new
        (header ∷ messages_of (project_of_rows (seen_in domain.now (rows_named (state S.Store connection.old).now))) lang.now ++ obsolete_of (project_of_rows (seen_in domain.now (rows_named (state S.Store connection.old).now))) lang.now) result }
    ensures looked { IsLookUp (state S.Store connection.old) (state S.Store connection.new) result (λ _ _. ⊤) }
    ensures disk { CutsTruly (state S.Store connection.old) (state S.Store connection.new) result }
{
    let mut last = header;
    match hand_messages(
        connection,
        domain,
        lang,
        &Messages { alloc },
        &mut last,
        sink,
    ) {
        Ok(()) => hand_obsolete_behind(connection, alloc, domain, lang, last, sink),
        Err(fault) => Err(fault),
    }
}

/// Hands the entries of a domain's language to a sink: its header, the template's entries in order, each with its unit, and the
/// obsolete units that have a translation, in the order of their keys. None where the domain has no such language. After a fault the
/// sink has taken a beginning of them.
///
/// Rows are read one at a time, and no transaction is open meanwhile. An entry is handed on when the row behind it was read, and the
/// last when there is no row any more: nothing is asked of the connection, and no memory wanted, behind the last entry.
pub fn export_entries<S: Alter, K: EntrySink>(
    connection: &mut Connection<S>,
    alloc: Global,
    domain: &str,
    lang: &Lang,
    sink: &mut K,
) -> Result<(), EachFault<K::Refusal>>
    requires autocommit { connection.old.in_transaction ≡ false }
    requires idle { IsIdleOver by_domain (state S.Store connection.old) }
    requires rules { HasCleanDisk (state S.Store connection.old) → IsTrue (state S.Store connection.old).is_open → IsProject (project_of_rows (seen_in domain.now (rows_named (state S.Store connection.old).now))) }
    ensures handed { HasCleanDisk (state S.Store connection.new) → Gives K.Took K.Refuses sink.old sink.new
        (entries_of (project_of_rows (seen_in domain.now (rows_named (state S.Store connection.old).now))) lang.now) result }
    ensures looked { IsLookUp (state S.Store connection.old) (state S.Store connection.new) result (λ _ _. ⊤) }
    ensures disk { CutsTruly (state S.Store connection.old) (state S.Store connection.new) result }
{
    match look_up_header(connection, alloc, domain, lang.as_str()) {
        Ok(Some(header)) => hand_rows(connection, alloc, domain, lang.as_str(), header, sink),
        Ok(None) => Ok(()),
        Err(failure) => Err(EachFault::NoTables(failure.lost)),
    }
}
