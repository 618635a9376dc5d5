//! The office that the rows of tables without a column for a domain stand for.
ghost use Rattle.std.specs.Prelude.{◌≡◌, ◌∷◌, [], false, IfOk, IfErr, OnOk, ◌≢◌};
ghost use Rattle.sqlite.specs.Held.{state};
ghost use Rattle.sqlite.specs.State.{HasCleanDisk};
ghost use Rattle.sql_schema.specs.Layouts.{IsForMain};
ghost use Rattle.sql_schema.specs.Whole.{IsIdleOver, IsLookUp};
ghost use Rattle.units.specs.Office.{main};
ghost use Rattle.sql_adoption.specs.declared.faults.OpenFault.TheVariants as faults;
ghost use Rattle.sql_adoption.specs.Reading.{ShowsForm, IsOfRows, IsReadOf, HoldsAll, RefusesRows, RefusesOf, OpensTruly};
ghost use Rattle.sql_layouts.specs.Tables.{form_told};

use crate::faults::OpenFault;
use crate::office_put::{ReadOffice, bare_office, put_told};
use sql_layouts::Form;
use sql_statements::whole_office::{WholeOffice, look_up_office};
use sqlite::{Alter, Connection};
use std::alloc::{AllocError, Global};
use units::Name;

/// `main` alone.
fn main_alone(alloc: Global) -> Result<Vec<Name>, AllocError>
    ensures { IfOk result (λ domains. domains.items ≡ main ∷ []) }
{
    let mut domains = Vec::new(alloc);
    domains.push(Name::main_domain())?;
    Ok(domains)
}

/// The office whose one domain is `main` and which all rows show, where the policy's row says that the tables have this form.
fn office_of_main(alloc: Global, form: Form, rows: &WholeOffice) -> Result<ReadOffice, OpenFault>
    ensures read { IfOk result (IsOfRows rows.now) }
    ensures told { OnOk result (ShowsForm (form_told form) rows.now.office.policy) }
    ensures refused { IfErr result (RefusesRows (form_told form) rows.now) }
    ensures disk { IfErr result (λ fault. fault ≢ faults.Disk) }
{
    let domains = main_alone(alloc)?;
    let mut maps = bare_office(alloc)?;
    let mut langs = Vec::new(alloc);
    let main = Name::main_domain();
    put_told(alloc, form, &main, rows, &mut maps, &mut langs)?;
    Ok(ReadOffice {
        maps,
        domains,
        langs,
    })
}

/// The office of tables without a column for a domain, whose one domain is `main`.
pub(crate) fn read_main<S: Alter>(
    connection: &mut Connection<S>,
    alloc: Global,
    form: Form,
) -> Result<ReadOffice, OpenFault>
    requires autocommit { connection.old.in_transaction ≡ false }
    requires main { IsForMain (form_told form) }
    requires idle { IsIdleOver (form_told form) (state S.Store connection.old) }
    ensures found { IsLookUp (state S.Store connection.old) (state S.Store connection.new) result (IsReadOf (form_told form)) }
    ensures holds { IfOk result HoldsAll }
    ensures refused { IfErr result (λ fault. HasCleanDisk (state S.Store connection.new) → RefusesOf (form_told form) (state S.Store connection.old).now fault) }
    ensures disk { OpensTruly (state S.Store connection.old) (state S.Store connection.new) result }
{
    let rows = look_up_office(connection)?;
    let read = office_of_main(alloc, form, &rows);
    drop(rows);
    read
}
