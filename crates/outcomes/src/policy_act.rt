//! What a policy comes to.

ghost use Rattle.std.specs.Prelude.{◌≡◌, ◌&&◌, not, IfOk, nat_lt, if◌then◌else◌};
ghost use Rattle.units.specs.Office.{Office};
ghost use Rattle.units.specs.Offices.{IsOffice};
ghost use Rattle.office_specification.specs.Approvals.{approvals_in};
ghost use Rattle.office_specification.specs.OfficeActs.{policy_step};
ghost use Rattle.outcomes.specs.Settled.{IsSettled};

use crate::bodies::policy_set;
use crate::outcome::OfficeOutcome;
use office_specification::{Approvals, Change};
use std::alloc::Global;
use units::{Memory, Policy, Refusal};

/// How many units lose their approval under a policy.
fn count_losing(policy: &Policy, approvals: Approvals) -> usize
    ensures { result ≡ (if policy.now.reviews then 0 else approvals.approved) }
{
    if policy.reviews {
        0
    } else {
        approvals.approved
    }
}

/// Whether some unit would pass the last revision under a policy.
fn some_would_pass(policy: &Policy, approvals: Approvals) -> bool
    ensures { result ≡ (not policy.now.reviews && nat_lt 0 approvals.at_last_revision) }
{
    !policy.reviews && 0 < approvals.at_last_revision
}

/// What a manager's policy comes to, in each office that keeps its rules and has so many approved units. Nothing else is read of it.
///
/// `Memory` where a growth was refused.
pub fn policy_outcome(
    alloc: Global,
    approvals: Approvals,
    policy: &Policy,
) -> Result<OfficeOutcome, Memory>
    ensures { IfOk result (λ outcome. (whole : Office) → IsOffice whole → approvals_in whole ≡ approvals →
        IsSettled whole outcome (policy_step whole policy.now)) }
{
    if some_would_pass(policy, approvals) {
        return OfficeOutcome::refused(alloc, Refusal::PastLimit);
    }
    let reply = policy_set(alloc, count_losing(policy, approvals))?;
    Ok(OfficeOutcome {
        change: Some(Change::NewPolicy(*policy)),
        reply,
    })
}
