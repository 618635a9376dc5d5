//! Columns that are whole numbers, as they are read.
ghost use Rattle.std.specs.Prelude.{◌≡◌, ℕ, ℤ, Bool, true, false, IfOk, IfErr, OnOk};
ghost use Rattle.sqlite.specs.Order.{Row as RowValue, column as cell};
ghost use Rattle.sqlite.specs.declared.types.Value.TheVariants.{Int};
ghost use Rattle.units.specs.Limits.{is_revision, is_accept_at};
ghost use Rattle.sql_meaning.specs.Values as values;
ghost use Rattle.sql_decoding.specs.RowTests.{holds_integer, natural_passes, is_flag, is_state, is_role, is_vote, is_status, IsUnread};

use crate::columns::integer_in;
use crate::faults::Failure;
use sql_columns::{
    RowFault, accept_at_from, flag_from, revision_from, role_from, state_from, status_from,
    vote_from,
};
use sqlite::Row;
use units::{AcceptAt, Revision, Role, UnitState, VoteValue};

/// A value that is written as a whole number.
pub(crate) trait FromInteger: Drop {
    /// Whether a number is written for a value.
    ghost passes: { ℤ → Bool };

    /// The value that a row shows in a column.
    ghost shown: { ℕ → RowValue → Self };

    /// The value that a number is written for.
    fn from_integer(number: i64) -> Result<Self, RowFault>
        ensures shown { IfOk result (λ own. (at : ℕ) (row : RowValue) → cell row at ≡ Int number → own ≡ shown at row) }
        ensures stands { OnOk result (passes number ≡ true) }
        ensures falls { IfErr result (λ fault. passes number ≡ false) };
}

impl FromInteger for bool {
    ghost passes = { is_flag };

    ghost shown = { values.flag_at };

    fn from_integer(number: i64) -> Result<bool, RowFault> {
        flag_from(number)
    }
}

impl FromInteger for UnitState {
    ghost passes = { is_state };

    ghost shown = { values.state_at };

    fn from_integer(number: i64) -> Result<UnitState, RowFault> {
        state_from(number)
    }
}

impl FromInteger for Revision {
    ghost passes = { natural_passes is_revision };

    ghost shown = { values.natural_at };

    fn from_integer(number: i64) -> Result<Revision, RowFault> {
        revision_from(number)
    }
}

impl FromInteger for AcceptAt {
    ghost passes = { natural_passes is_accept_at };

    ghost shown = { values.natural_at };

    fn from_integer(number: i64) -> Result<AcceptAt, RowFault> {
        accept_at_from(number)
    }
}

impl FromInteger for Role {
    ghost passes = { is_role };

    ghost shown = { values.role_at };

    fn from_integer(number: i64) -> Result<Role, RowFault> {
        role_from(number)
    }
}

impl FromInteger for VoteValue {
    ghost passes = { is_vote };

    ghost shown = { values.vote_at };

    fn from_integer(number: i64) -> Result<VoteValue, RowFault> {
        vote_from(number)
    }
}

/// The status of a reply.
impl FromInteger for u16 {
    ghost passes = { is_status };

    ghost shown = { values.natural_at };

    fn from_integer(number: i64) -> Result<u16, RowFault> {
        let status = status_from(number)?;
        Ok(status)
    }
}

/// The value in a column that is a whole number.
pub(crate) fn integer_at<V: FromInteger>(row: &Row, at: usize) -> Result<V, Failure>
    ensures shown { IfOk result (λ v. v ≡ V.shown at row.now) }
    ensures stands { OnOk result (holds_integer V.passes at row.now ≡ true) }
    ensures unread { IfErr result (IsUnread (holds_integer V.passes at row.now)) }
{
    let column = integer_in(row, at)?;
    Ok(V::from_integer(column)?)
}
