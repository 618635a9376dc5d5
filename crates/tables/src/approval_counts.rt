//! How many units of an office in maps are approved.

ghost use Rattle.std.specs.Prelude.{◌≡◌, IfOk, IfSome};
ghost use Rattle.office_maps.specs.OfficeIn.{domain_in, office_in};
ghost use Rattle.office_specification.specs.Approvals.{count_in, count_of, approvals_in};
ghost use Rattle.tables.specs.ApprovalTests as tests;

use office_maps::{DomainMaps, OfficeMaps};
use office_specification::Approvals;
use std::alloc::AllocError;
use units::{REVISION_LIMIT, Unit, UnitState};

/// Whether a unit is approved, and at the last revision if that is asked.
fn is_counted(at_last: bool, unit: &Unit) -> bool
    ensures { result ≡ tests.is_counted at_last unit.now }
{
    unit.state == UnitState::Approved && (!at_last || unit.revision.number() == REVISION_LIMIT)
}

/// How many units of a domain are.
fn count_in_domain(domain: &DomainMaps, at_last: bool) -> usize
    ensures { result ≡ count_in (tests.is_counted at_last) (domain_in domain.now) }
{
    domain
        .units
        .values()
        .filter(|unit| is_counted(at_last, unit))
        .count()
}

/// How many units of all domains are; nothing where the count is past a machine word, which no office is that keeps its rules.
fn count_all(office: &OfficeMaps, at_last: bool) -> Option<usize>
    ensures { IfSome result (λ count. count ≡ count_of (tests.is_counted at_last) (office_in office.now)) }
{
    let mut count = 0usize;
    for domain in office.domains.values() {
        count = count.checked_add(count_in_domain(domain, at_last))?;
    }
    Some(count)
}

/// How many units of an office are approved, and how many of these are at the last revision.
///
/// `AllocError` where a count is past a machine word.
pub(crate) fn approvals_in(office: &OfficeMaps) -> Result<Approvals, AllocError>
    ensures { IfOk result (λ approvals. approvals ≡ approvals_in (office_in office.now)) }
{
    match (count_all(office, false), count_all(office, true)) {
        (Some(approved), Some(at_last_revision)) => Ok(Approvals {
            approved,
            at_last_revision,
        }),
        _ => Err(AllocError),
    }
}
