//! The state that forms give a unit.
ghost use Rattle.std.specs.Prelude.{◌≡◌, IfOk};
ghost use Rattle.review.specs.UnitStep as spec;

use checks::{Source, result_state};
use plural_expr::PluralForms;
use po_text::Forms;
use std::alloc::Global;
use units::{Memory, Policy, UnitState, UnitView};

/// What the forms of a unit are checked against.
fn source_of(view: &UnitView) -> Source<'_>
    ensures { result ≡ spec.source_of view.now }
{
    Source {
        id: &view.unit.key.id,
        plural: view.unit.plural.as_ref(),
        flags: match &view.source {
            Some(entry) => entry.flags.as_slice(),
            None => &[],
        },
    }
}

/// The state that forms give a unit.
pub(crate) fn state_of(
    alloc: Global,
    policy: &Policy,
    rule: &PluralForms,
    view: &UnitView,
    forms: &Forms,
) -> Result<UnitState, Memory>
    ensures { IfOk result (λ state. state ≡ spec.state_of policy.now rule.now view.now forms.now) }
{
    let source = source_of(view);
    result_state(alloc, policy, rule, &source, forms.as_slice())
}
