//! An office's file is taken over, whatever form its tables have.
ghost use Rattle.std.specs.Prelude.{◌≡◌, false, IfOk, IfErr, OnOk, OnErr};
ghost use Rattle.sqlite.specs.Held.{state};
ghost use Rattle.sqlite.specs.State.{HasCleanDisk};
ghost use Rattle.sql_schema.specs.Layouts.{IsForMain};
ghost use Rattle.sql_adoption.specs.Adoption.{IsAdoptedIn, Refuses};
ghost use Rattle.sql_layouts.specs.Tables.{form_told};
ghost use Rattle.sql_adoption.specs.declared.tested.Adopted.TheVariants as adopted_so;
ghost use Rattle.sql_conversion.specs.Conversion.{IsTakenOver, IsGivenBack};
ghost use Rattle.sql_adoption.specs.Reading.{OpensTruly};

use crate::converting::convert;
use sql_adoption::{Adopted, MainOffice, OpenFault, adopted_office};
use sqlite::{Alter, Connection};
use std::alloc::Global;

/// Converts what was adopted in tables without a column for a domain.
fn convert_adopted<S: Alter>(
    connection: &mut Connection<S>,
    alloc: Global,
    adopted: MainOffice,
) -> Result<(), OpenFault>
    requires autocommit { connection.old.in_transaction ≡ false }
    requires form { IsForMain (form_told adopted.form) }
    requires adopted { IsAdoptedIn (state S.Store connection.old) (adopted_so.ForMain adopted) }
    ensures taken { OnOk result (IsTakenOver (state S.Store connection.old) (state S.Store connection.new)) }
    ensures lost { IfErr result (Refuses (state S.Store connection.old).now) }
    ensures given_back { OnErr result (IsGivenBack (state S.Store connection.old) (state S.Store connection.new)) }
    ensures disk { OpensTruly (state S.Store connection.old) (state S.Store connection.new) result }
{
    let done = convert(connection, alloc, &adopted).map_err(OpenFault::from);
    drop(adopted);
    done
}

/// Takes over what was adopted: tables without a column for a domain are converted.
fn converted<S: Alter>(
    connection: &mut Connection<S>,
    alloc: Global,
    adopted: Adopted,
) -> Result<(), OpenFault>
    requires autocommit { connection.old.in_transaction ≡ false }
    requires adopted { IsAdoptedIn (state S.Store connection.old) adopted }
    ensures taken { OnOk result (IsTakenOver (state S.Store connection.old) (state S.Store connection.new)) }
    ensures lost { IfErr result (Refuses (state S.Store connection.old).now) }
    ensures given_back { OnErr result (IsGivenBack (state S.Store connection.old) (state S.Store connection.new)) }
    ensures disk { OpensTruly (state S.Store connection.old) (state S.Store connection.new) result }
{
    match adopted {
        Adopted::ForMain(office) => convert_adopted(connection, alloc, office),
        Adopted::ByDomain => Ok(()),
    }
}

/// Takes an office's file over: its tables are adopted as they stand, and converted where they have no column for a domain. Behind it they
/// are tables by domains, that mean what the file meant before, and whose sums and tallies are what counting their rows gives; tables without
/// a column for a domain keep their rows, but for the policy's, which tells the form.
///
/// `Foreign` tells why the tables aren't taken, as of `adopted_office`; then nothing was changed. `Memory` where a growth was refused, `Refused`
/// where a statement was, `Disk` only where the disk failed: the rows are as before, and a stop leaves what was there, or what the
/// conversion makes, which means the same.
pub fn take_over<S: Alter>(connection: &mut Connection<S>, alloc: Global) -> Result<(), OpenFault>
    requires autocommit { connection.old.in_transaction ≡ false }
    ensures taken { OnOk result (IsTakenOver (state S.Store connection.old) (state S.Store connection.new)) }
    ensures refused { IfErr result (λ fault. HasCleanDisk (state S.Store connection.new) → Refuses (state S.Store connection.old).now fault) }
    ensures given_back { OnErr result (IsGivenBack (state S.Store connection.old) (state S.Store connection.new)) }
    ensures disk { OpensTruly (state S.Store connection.old) (state S.Store connection.new) result }
{
    let adopted = adopted_office(connection, alloc)?;
    converted(connection, alloc, adopted)
}
