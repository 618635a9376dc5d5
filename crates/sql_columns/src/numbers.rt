//! Columns that are whole numbers.
ghost use Rattle.std.specs.Prelude.{◌≡◌, ◌<◌, ◌^◌, ℕ, Bool, true, pos, Some, Ok, IfOk, IfErr};
ghost use Rattle.units.specs.Limits.{is_revision, is_accept_at};
ghost use Rattle.request_book.specs.Acts.{vote_number};
ghost use Rattle.sql_columns.specs.Numbers.{flag_number, state_number, role_number};
ghost use Rattle.sql_columns.specs.declared.fault.RowFault.TheVariants.{Malformed};

use crate::fault::RowFault;
use units::{AcceptAt, Revision, Role, UnitState, VoteValue};

/// The column of a flag: 1 where it holds, else 0.
pub fn flag_column(flag: bool) -> i64
    ensures { result ≡ flag_number flag }
{
    if flag { 1 } else { 0 }
}

/// The flag that a column stands for.
pub fn flag_from(column: i64) -> Result<bool, RowFault>
    ensures ok { IfOk result (λ flag. column ≡ flag_number flag) }
    ensures back { (flag : Bool) → column ≡ flag_number flag → result ≡ Ok flag }
    ensures fault { IfErr result (λ e. e ≡ Malformed) }
{
    match column {
        0 => Ok(false),
        1 => Ok(true),
        _ => Err(RowFault::Malformed),
    }
}

/// The column of a state: 0 to 3.
pub fn state_column(state: UnitState) -> i64
    ensures { result ≡ state_number state }
{
    match state {
        UnitState::Untranslated => 0,
        UnitState::NeedsEditing => 1,
        UnitState::Translated => 2,
        UnitState::Approved => 3,
    }
}

/// The state that a column stands for.
pub fn state_from(column: i64) -> Result<UnitState, RowFault>
    ensures ok { IfOk result (λ state. column ≡ state_number state) }
    ensures back { (state : UnitState) → column ≡ state_number state → result ≡ Ok state }
    ensures fault { IfErr result (λ e. e ≡ Malformed) }
{
    match column {
        0 => Ok(UnitState::Untranslated),
        1 => Ok(UnitState::NeedsEditing),
        2 => Ok(UnitState::Translated),
        3 => Ok(UnitState::Approved),
        _ => Err(RowFault::Malformed),
    }
}

/// The column of a role: 1 to 3, and none for a guest, who has no row.
pub fn role_column(role: Role) -> Option<i64>
    ensures { result ≡ role_number role }
{
    match role {
        Role::Guest => None,
        Role::Translator => Some(1),
        Role::Reviewer => Some(2),
        Role::Manager => Some(3),
    }
}

/// The role that a column stands for.
pub fn role_from(column: i64) -> Result<Role, RowFault>
    ensures ok { IfOk result (λ role. role_number role ≡ Some column) }
    ensures back { (role : Role) → role_number role ≡ Some column → result ≡ Ok role }
    ensures fault { IfErr result (λ e. e ≡ Malformed) }
{
    match column {
        1 => Ok(Role::Translator),
        2 => Ok(Role::Reviewer),
        3 => Ok(Role::Manager),
        _ => Err(RowFault::Malformed),
    }
}

/// The column of a vote: 1 for, -1 against.
pub fn vote_column(vote: VoteValue) -> i64
    ensures { result ≡ vote_number (Some vote) }
{
    match vote {
        VoteValue::For => 1,
        VoteValue::Against => -1,
    }
}

/// The vote that a column stands for.
pub fn vote_from(column: i64) -> Result<VoteValue, RowFault>
    ensures ok { IfOk result (λ vote. column ≡ vote_number (Some vote)) }
    ensures back { (vote : VoteValue) → column ≡ vote_number (Some vote) → result ≡ Ok vote }
    ensures fault { IfErr result (λ e. e ≡ Malformed) }
{
    match column {
        1 => Ok(VoteValue::For),
        -1 => Ok(VoteValue::Against),
        _ => Err(RowFault::Malformed),
    }
}

/// The number that a column stands for, which isn't negative.
pub(crate) fn natural_from(column: i64) -> Result<u64, RowFault>
    ensures ok { IfOk result (λ n. column ≡ pos n) }
    ensures back { (n : ℕ) → column ≡ pos n → result ≡ Ok n }
    ensures fault { IfErr result (λ e. e ≡ Malformed) }
{
    if column < 0 {
        Err(RowFault::Malformed)
    } else {
        Ok(column as u64)
    }
}

/// The column of a revision.
pub fn revision_column(revision: Revision) -> i64
    ensures { result ≡ pos revision }
{
    revision.number() as i64
}

/// The revision that a column stands for.
pub fn revision_from(column: i64) -> Result<Revision, RowFault>
    ensures ok { IfOk result (λ revision. column ≡ pos revision) }
    ensures fits { IfOk result (λ revision. is_revision revision ≡ true) }
    ensures back { (revision : ℕ) → is_revision revision ≡ true → column ≡ pos revision → result ≡ Ok revision }
    ensures fault { IfErr result (λ e. e ≡ Malformed) }
{
    match Revision::try_new(natural_from(column)?) {
        Some(revision) => Ok(revision),
        None => Err(RowFault::Malformed),
    }
}

/// The column of a threshold.
pub(crate) fn accept_at_column(accept_at: AcceptAt) -> i64
    ensures { result ≡ pos accept_at }
{
    i64::from(accept_at.number())
}

/// The threshold that a column stands for.
pub fn accept_at_from(column: i64) -> Result<AcceptAt, RowFault>
    ensures ok { IfOk result (λ accept_at. column ≡ pos accept_at) }
    ensures fits { IfOk result (λ accept_at. is_accept_at accept_at ≡ true) }
    ensures back { (accept_at : ℕ) → is_accept_at accept_at ≡ true → column ≡ pos accept_at → result ≡ Ok accept_at }
    ensures fault { IfErr result (λ e. e ≡ Malformed) }
{
    let number = natural_from(column)?;
    if 100 < number {
        return Err(RowFault::Malformed);
    }
    match AcceptAt::try_new(number as u8) {
        Some(accept_at) => Ok(accept_at),
        None => Err(RowFault::Malformed),
    }
}

/// The column of a reply's status.
pub fn status_column(status: u16) -> i64
    ensures { result ≡ pos status }
{
    i64::from(status)
}

/// The status that a column stands for.
pub fn status_from(column: i64) -> Result<u16, RowFault>
    ensures ok { IfOk result (λ status. column ≡ pos status) }
    ensures back { (status : ℕ) → status < 2 ^ 16 → column ≡ pos status → result ≡ Ok status }
    ensures fault { IfErr result (λ e. e ≡ Malformed) }
{
    let number = natural_from(column)?;
    if 65_535 < number {
        return Err(RowFault::Malformed);
    }
    Ok(number as u16)
}
