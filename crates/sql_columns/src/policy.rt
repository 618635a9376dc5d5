//! The columns of the policy.
ghost use Rattle.std.specs.Prelude.{◌≡◌, true, Ok, IfOk, IfErr};
ghost use Rattle.units.specs.Limits.{is_accept_at};
ghost use Rattle.sql_columns.specs.Numbers.{policy_numbers};
ghost use Rattle.sql_columns.specs.declared.fault.RowFault.TheVariants.{Malformed};

use crate::fault::RowFault;
use crate::numbers::{accept_at_column, accept_at_from, flag_column, flag_from};
use units::Policy;

/// The six columns of a policy, each by its name in [`Policy`].
#[derive(Clone, Copy)]
pub struct PolicyColumns {
    pub reviews: i64,
    pub guests_suggest: i64,
    pub voting: i64,
    pub accept_at: i64,
    pub placeholders: i64,
    pub line_ends: i64,
}

/// The columns of a policy.
pub fn policy_columns(policy: &Policy) -> PolicyColumns
    ensures { result ≡ policy_numbers policy.now }
{
    PolicyColumns {
        reviews: flag_column(policy.reviews),
        guests_suggest: flag_column(policy.guests_suggest),
        voting: flag_column(policy.voting),
        accept_at: accept_at_column(policy.accept_at),
        placeholders: flag_column(policy.placeholders),
        line_ends: flag_column(policy.line_ends),
    }
}

/// The policy that columns stand for.
pub fn policy_from(columns: PolicyColumns) -> Result<Policy, RowFault>
    ensures ok { IfOk result (λ policy. columns ≡ policy_numbers policy) }
    ensures fits { IfOk result (λ policy. is_accept_at policy.accept_at ≡ true) }
    ensures back { (policy : Policy) → is_accept_at policy.accept_at ≡ true → columns ≡ policy_numbers policy → result ≡ Ok policy }
    ensures fault { IfErr result (λ e. e ≡ Malformed) }
{
    Ok(Policy {
        reviews: flag_from(columns.reviews)?,
        guests_suggest: flag_from(columns.guests_suggest)?,
        voting: flag_from(columns.voting)?,
        accept_at: accept_at_from(columns.accept_at)?,
        placeholders: flag_from(columns.placeholders)?,
        line_ends: flag_from(columns.line_ends)?,
    })
}
