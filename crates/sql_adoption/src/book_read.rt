//! The book of the rows, beside an office that was read.
ghost use Rattle.std.specs.Prelude.{◌≡◌, false, IfErr, IsTrue, OnOk, ◌≢◌};
ghost use Rattle.sqlite.specs.Held.{state};
ghost use Rattle.sqlite.specs.State.{HasCleanDisk};
ghost use Rattle.request_book.specs.Book.{Book};
ghost use Rattle.office_specification.specs.OfficeRules.{KeepsRules};
ghost use Rattle.office_maps.specs.OfficeIn.{office_in};
ghost use Rattle.sql_schema.specs.Layouts.{Form, by_domain};
ghost use Rattle.sql_schema.specs.Whole.{IsIdleOver, IsLookUp};
ghost use Rattle.rule_tests.specs.Given.{AreStatusesOf};
ghost use Rattle.sql_adoption.specs.declared.faults.OpenFault.TheVariants as faults;
ghost use Rattle.sql_adoption.specs.Reading.{AreStatusesIn, HoldsAll, KeepsBook, KeepsRecords, RefusesWith, RefusesBook, RefusesKept, RefusesRecords, OpensTruly};

use crate::faults::{Mismatch, OpenFault};
use crate::office_put::ReadOffice;
use crate::statuses::{Contents, Statuses};
use rule_tests::keeps_rules;
use sql_statements::record_queries::walk_contents;
use sqlite::{Alter, Connection};
use std::alloc::Global;
use std::collections::BTreeMap;
use uuid::Uuid;

/// The statuses of all records, whose rows are read one at a time, of a connection that is open.
fn read_statuses<S: Alter>(
    connection: &mut Connection<S>,
    alloc: Global,
) -> Result<BTreeMap<Uuid, u16>, OpenFault>
    requires autocommit { connection.old.in_transaction ≡ false }
    requires idle { (form : Form) × IsIdleOver form (state S.Store connection.old) }
    requires is_open { HasCleanDisk (state S.Store connection.old) → IsTrue (state S.Store connection.old).is_open }
    ensures found { IsLookUp (state S.Store connection.old) (state S.Store connection.new) result AreStatusesIn }
    ensures refused { IfErr result (λ fault. HasCleanDisk (state S.Store connection.new) → RefusesBook (state S.Store connection.old).now fault) }
    ensures disk { OpensTruly (state S.Store connection.old) (state S.Store connection.new) result }
{
    let mut statuses = Statuses::new(alloc);
    walk_contents(connection, &mut statuses)?;
    Ok(statuses.by_number)
}

/// Tests the rules, for a book of whose records these are the statuses.
fn keep_rules(
    alloc: Global,
    read: &ReadOffice,
    statuses: &BTreeMap<Uuid, u16>,
) -> Result<(), OpenFault>
    requires holds { HoldsAll read.now }
    ensures kept { (book : Book) → AreStatusesOf book statuses.now → OnOk result (KeepsRules (record { office = office_in read.now.maps; book = book })) }
    ensures refused { (book : Book) → AreStatusesOf book statuses.now → IfErr result (RefusesWith (record { office = office_in read.now.maps; book = book })) }
    ensures disk { IfErr result (λ fault. fault ≢ faults.Disk) }
{
    if keeps_rules(alloc, &read.maps, read.langs.as_slice(), statuses)? {
        Ok(())
    } else {
        Err(OpenFault::Foreign(Mismatch::BrokenRules))
    }
}

/// Tests the rules of an office that was read, with the book of the rows, of a connection that is open.
pub fn keep_book<S: Alter>(
    connection: &mut Connection<S>,
    alloc: Global,
    read: &ReadOffice,
) -> Result<(), OpenFault>
    requires autocommit { connection.old.in_transaction ≡ false }
    requires idle { (form : Form) × IsIdleOver form (state S.Store connection.old) }
    requires is_open { HasCleanDisk (state S.Store connection.old) → IsTrue (state S.Store connection.old).is_open }
    requires holds { HoldsAll read.now }
    ensures found { IsLookUp (state S.Store connection.old) (state S.Store connection.new) result (λ db _. KeepsBook (office_in read.now.maps) db) }
    ensures refused { IfErr result (λ fault. HasCleanDisk (state S.Store connection.new) → RefusesKept (office_in read.now.maps) (state S.Store connection.old).now fault) }
    ensures disk { OpensTruly (state S.Store connection.old) (state S.Store connection.new) result }
{
    let statuses = read_statuses(connection, alloc)?;
    keep_rules(alloc, read, &statuses)
}

// ---- of tables by domains

/// Tests all records, whose rows are read one at a time, of a connection that is open: each row stands for a record, its content is a request's,
/// and its reply has a status that one may have.
pub(crate) fn keep_records<S: Alter>(
    connection: &mut Connection<S>,
    alloc: Global,
) -> Result<(), OpenFault>
    requires autocommit { connection.old.in_transaction ≡ false }
    requires idle { IsIdleOver by_domain (state S.Store connection.old) }
    requires is_open { HasCleanDisk (state S.Store connection.old) → IsTrue (state S.Store connection.old).is_open }
    ensures found { IsLookUp (state S.Store connection.old) (state S.Store connection.new) result (λ db _. KeepsRecords db) }
    ensures refused { IfErr result (λ fault. HasCleanDisk (state S.Store connection.new) → RefusesRecords (state S.Store connection.old).now fault) }
    ensures disk { OpensTruly (state S.Store connection.old) (state S.Store connection.new) result }
{
    let mut contents = Contents {
        alloc,
        answered: true,
    };
    walk_contents(connection, &mut contents)?;
    if contents.answered {
        Ok(())
    } else {
        Err(OpenFault::Foreign(Mismatch::BrokenRules))
    }
}
