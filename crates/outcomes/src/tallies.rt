//! How many units of a plan are in each state.

ghost use Rattle.std.specs.Prelude.{◌≡◌, [], ◌∷◌, map, IfOk, OnOk};
ghost use Rattle.office_specification.specs.Tally.{counts_in};
ghost use Rattle.office_specification.specs.Counting.{plus};

use office_maps::{OrderedKey, Template};
use office_specification::Tally;
use po_text::Duplicate;
use std::alloc::{AllocError, Global};
use template_update::Plan;
use units::{Lang, Unit};

/// Counts one more unit under a template.
fn count(tally: &mut Tally, template: &Template, unit: &Unit) -> Result<(), AllocError>
    ensures { OnOk result (tally.new ≡ plus tally.old (counts_in template.now.catalogue (unit.now ∷ []))) }
{
    let key = OrderedKey {
        key: unit.key.duplicate()?,
    };
    let counted = tally.add(template.entry_of(&key), unit);
    drop(key);
    counted
}

/// How many units are in each state under a template.
pub(crate) fn tally_of(template: &Template, units: &[Unit]) -> Result<Tally, AllocError>
    ensures { IfOk result (λ tally. tally ≡ counts_in template.now.catalogue units.now) }
{
    let mut tally = Tally::none();
    for unit in units {
        count(&mut tally, template, unit)?;
    }
    Ok(tally)
}

/// How many units of each language's plan are in each state under a template.
pub(crate) fn tallies_of(
    alloc: Global,
    template: &Template,
    plans: &[(Lang, Plan)],
) -> Result<Vec<(Lang, Tally)>, AllocError>
    ensures { IfOk result (λ tallies. tallies.items ≡ map (λ p. (p.0, counts_in template.now.catalogue p.1.units)) plans.now) }
{
    let mut tallies = Vec::new(alloc);
    for (lang, plan) in plans {
        let tally = tally_of(template, plan.units.as_slice())?;
        tallies.push((lang.duplicate()?, tally))?;
    }
    Ok(tallies)
}
