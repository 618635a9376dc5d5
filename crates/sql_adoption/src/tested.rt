//! All that is asked of tables before they are adopted.
ghost use Rattle.std.specs.Prelude.{◌≡◌, false, Ok, Err, IfOk, IfErr, IsTrue, MatchResult, ◌≤◌};
ghost use Rattle.sqlite.specs.Held.{state};
ghost use Rattle.sqlite.specs.State.{HasCleanDisk};
ghost use Rattle.sql_schema.specs.Layouts.{IsForMain, by_domain};
ghost use Rattle.sql_layouts.specs.declared.office_tables.Form.TheVariants as told;
ghost use Rattle.sql_schema.specs.Whole.{IsIdleOver, IsLookUp};
ghost use Rattle.sql_adoption.specs.Adoption.{HasForm, IsAdoptedAs, IsAdoptedIn, IsAdoptedWith, StaysAsItWas, Refuses};
ghost use Rattle.office_maps.specs.OfficeIn.{office_in};
ghost use Rattle.sql_adoption.specs.Reading.{HoldsAll, IsReadOf, KeepsRows, RefusesKeptRows, RefusesOf, OpensTruly};
ghost use Rattle.sql_layouts.specs.Tables.{form_told};

use crate::book_read::keep_book;
use crate::faults::{Mismatch, OpenFault};
use crate::figures_kept::keep_main_figures;
use crate::office_put::ReadOffice;
use crate::office_read::read_main;
use crate::walked_office::keep_by_domain;
use office_maps::OfficeMaps;
use sql_layouts::{Form, office_form};
use sqlite::{Alter, Connection};
use std::alloc::Global;
use units::Lang;

/// An office of tables without a column for a domain, in maps, with the codes of its languages, and the form of these tables.
#[derive(Drop)]
pub struct MainOffice {
    pub form: Form,
    pub maps: OfficeMaps,
    pub langs: Vec<Lang>,
}

/// What was adopted.
#[derive(Drop)]
pub enum Adopted {
    /// Tables by domains. Nothing of their office is at hand.
    ByDomain,
    /// Tables without a column for a domain, whose office is at hand.
    ForMain(MainOffice),
}

// ---- tables without a column for a domain

/// The office, where its rows are kept.
fn where_kept(
    form: Form,
    read: ReadOffice,
    kept: Result<(), OpenFault>,
) -> Result<MainOffice, OpenFault>
    ensures { MatchResult kept (λ _. result ≡ Ok (record { form = form; maps = read.maps; langs = read.langs })) (λ fault. result ≡ Err fault) }
{
    let ReadOffice {
        maps,
        domains,
        langs,
    } = read;
    drop(domains);
    match kept {
        Ok(()) => Ok(MainOffice { form, maps, langs }),
        Err(fault) => {
            drop(langs);
            drop(maps);
            Err(fault)
        }
    }
}

/// Tests the rules of an office that was read, with the book of the rows, and the figures that are kept of it, of a connection that is open.
fn keep_rows<S: Alter>(
    connection: &mut Connection<S>,
    alloc: Global,
    form: Form,
    read: &ReadOffice,
) -> Result<(), OpenFault>
    requires autocommit { connection.old.in_transaction ≡ false }
    requires main { IsForMain (form_told form) }
    requires idle { IsIdleOver (form_told form) (state S.Store connection.old) }
    requires is_open { HasCleanDisk (state S.Store connection.old) → IsTrue (state S.Store connection.old).is_open }
    requires holds { HoldsAll read.now }
    ensures found { IsLookUp (state S.Store connection.old) (state S.Store connection.new) result (λ db _. IsReadOf (form_told form) db read.now → KeepsRows (form_told form) (office_in read.now.maps) db) }
    ensures refused { IfErr result (λ fault. HasCleanDisk (state S.Store connection.new) → IsReadOf (form_told form) (state S.Store connection.old).now read.now
        → RefusesKeptRows (form_told form) (office_in read.now.maps) (state S.Store connection.old).now fault) }
    ensures disk { OpensTruly (state S.Store connection.old) (state S.Store connection.new) result }
{
    match form {
        Form::ForMain => keep_book(connection, alloc, read),
        Form::WithFigures => {
            keep_book(connection, alloc, read)?;
            keep_main_figures(connection, alloc, read)
        }
        Form::ByDomain => unreachable!(),
    }
}

/// The office of tables of this form, which have no column for a domain, if their rows are those of an office with its book.
fn tested_main<S: Alter>(
    connection: &mut Connection<S>,
    alloc: Global,
    form: Form,
) -> Result<MainOffice, OpenFault>
    requires autocommit { connection.old.in_transaction ≡ false }
    requires main { IsForMain (form_told form) }
    requires idle { IsIdleOver (form_told form) (state S.Store connection.old) }
    ensures form { IfOk result (λ office. office.form ≡ form) }
    ensures adopted { IsLookUp (state S.Store connection.old) (state S.Store connection.new) result IsAdoptedAs }
    ensures refused { IfErr result (λ fault. HasCleanDisk (state S.Store connection.new) → RefusesOf (form_told form) (state S.Store connection.old).now fault) }
    ensures disk { OpensTruly (state S.Store connection.old) (state S.Store connection.new) result }
{
    let read = read_main(connection, alloc, form)?;
    let kept = keep_rows(connection, alloc, form, &read);
    where_kept(form, read, kept)
}

/// What is adopted of tables of this form, which have no column for a domain.
fn adopted_main<S: Alter>(
    connection: &mut Connection<S>,
    alloc: Global,
    form: Form,
) -> Result<Adopted, OpenFault>
    requires autocommit { connection.old.in_transaction ≡ false }
    requires main { IsForMain (form_told form) }
    requires idle { IsIdleOver (form_told form) (state S.Store connection.old) }
    ensures form { IfOk result (HasForm form) }
    ensures adopted { IsLookUp (state S.Store connection.old) (state S.Store connection.new) result IsAdoptedWith }
    ensures refused { IfErr result (λ fault. HasCleanDisk (state S.Store connection.new) → RefusesOf (form_told form) (state S.Store connection.old).now fault) }
    ensures disk { OpensTruly (state S.Store connection.old) (state S.Store connection.new) result }
{
    match tested_main(connection, alloc, form) {
        Ok(office) => Ok(Adopted::ForMain(office)),
        Err(fault) => Err(fault),
    }
}

// ---- tables of each form

/// What is adopted of tables by domains.
fn adopted_by_domain<S: Alter>(
    connection: &mut Connection<S>,
    alloc: Global,
) -> Result<Adopted, OpenFault>
    requires autocommit { connection.old.in_transaction ≡ false }
    requires idle { IsIdleOver by_domain (state S.Store connection.old) }
    ensures form { IfOk result (HasForm told.ByDomain) }
    ensures adopted { IsLookUp (state S.Store connection.old) (state S.Store connection.new) result IsAdoptedWith }
    ensures refused { IfErr result (λ fault. HasCleanDisk (state S.Store connection.new) → RefusesOf by_domain (state S.Store connection.old).now fault) }
    ensures disk { OpensTruly (state S.Store connection.old) (state S.Store connection.new) result }
{
    match keep_by_domain(connection, alloc) {
        Ok(()) => Ok(Adopted::ByDomain),
        Err(fault) => Err(fault),
    }
}

/// What is adopted of tables of this form, if their rows are those of an office with its book.
fn tested_tables<S: Alter>(
    connection: &mut Connection<S>,
    alloc: Global,
    form: Form,
) -> Result<Adopted, OpenFault>
    requires autocommit { connection.old.in_transaction ≡ false }
    requires idle { IsIdleOver (form_told form) (state S.Store connection.old) }
    ensures form { IfOk result (HasForm form) }
    ensures adopted { IsLookUp (state S.Store connection.old) (state S.Store connection.new) result IsAdoptedWith }
    ensures refused { IfErr result (λ fault. HasCleanDisk (state S.Store connection.new) → RefusesOf (form_told form) (state S.Store connection.old).now fault) }
    ensures disk { OpensTruly (state S.Store connection.old) (state S.Store connection.new) result }
{
    match form {
        Form::ForMain | Form::WithFigures => adopted_main(connection, alloc, form),
        Form::ByDomain => adopted_by_domain(connection, alloc),
    }
}

/// What is adopted of a connection's tables, if they are an office's in some form that the policy's row tells: each row stands
/// for a value and is of a domain that there is, each template for a valid catalogue, each record's content is a request's, the rules of an
/// office with its book hold, and the sums of votes and the tallies that tables keep are what counting their rows gives. Nothing is
/// changed: tables without a column for a domain are told, and stay, and their office is at hand. Of tables by domains at most the templates, the
/// languages, the team and the tallies are at hand meanwhile, and of what else there is one row at a time; nothing is afterwards.
///
/// `Foreign` tells why not: `OtherTables` only where the tables aren't an office's, `OtherForm` only where the policy's row doesn't tell their
/// form, `UnreadRow` only where a row stands for no value or is of a domain that isn't there, a template for no valid catalogue, or a record's
/// content is no request's, `BrokenRules` only where the rules don't hold, as where there is no `main`, `OtherFigures` only where a sum or a
/// tally isn't what counting gives. `Memory` where a growth was refused, `Refused` where a statement was, `Disk` only where the disk
/// failed, or an earlier failure had shut the connection.
pub fn adopted_office<S: Alter>(
    connection: &mut Connection<S>,
    alloc: Global,
) -> Result<Adopted, OpenFault>
    requires autocommit { connection.old.in_transaction ≡ false }
    ensures adopted { IfOk result (IsAdoptedIn (state S.Store connection.new)) }
    ensures unchanged { StaysAsItWas (state S.Store connection.old) (state S.Store connection.new) }
    ensures refused { IfErr result (λ fault. HasCleanDisk (state S.Store connection.new) → Refuses (state S.Store connection.old).now fault) }
    ensures disk { OpensTruly (state S.Store connection.old) (state S.Store connection.new) result }
    ensures counts { (state S.Store connection.old).faults ≤ (state S.Store connection.new).faults }
{
    let _between = connection.is_autocommit();
    match office_form(connection)? {
        Some(form) => tested_tables(connection, alloc, form),
        None => Err(OpenFault::Foreign(Mismatch::OtherTables)),
    }
}
