//! The tests of a tree: its depth, and its values at n = 0, 1, .., 999.

ghost use Rattle.std.specs.Prelude.{◌≡◌, ◌↔◌, ◌<◌, ◌≤◌, ℕ, IfOk, IfErr, IsTrue, IsNone, Ok, None, Some, length, slice_index, if◌then◌else◌};
ghost use Rattle.plural_expr.specs.Trees.{depth};
ghost use Rattle.plural_expr.specs.Values.{value_of, served_by};
ghost use Rattle.plural_expr.specs.Faults.{form_limit, value_fault, values_fault};
ghost use Rattle.plural_expr.specs.PlainTrees.{plain_tree};

use crate::fault::PluralFault;
use crate::tree::Tree;
use crate::values::value;

/// The numbers at which a rule is tested: 0, 1, .., 999.
const TESTED: u32 = 1000;

/// Whether the tree is at most as deep as the limit. It never goes deeper than the limit itself.
pub(crate) fn is_within(tree: &Tree, limit: u32) -> bool
    ensures { IsTrue result ↔ (depth (plain_tree tree.now) ≤ limit) }
{
    let Some(below) = limit.checked_sub(1) else {
        return false;
    };
    match tree {
        Tree::Variable | Tree::Number(_) => true,
        Tree::Parens(inner) | Tree::Negated(inner) => is_within(inner, below),
        Tree::Binary(_, left, right) => is_within(left, below) && is_within(right, below),
        Tree::Choice(condition, then, other) => {
            is_within(condition, below) && is_within(then, below) && is_within(other, below)
        }
    }
}

/// The form's number at n, or the fault there.
fn form_at(tree: &Tree, count: u32, n: u32) -> Result<u32, PluralFault>
    ensures value { IfOk result (λ form. value_of (plain_tree tree.now) n ≡ Ok form) }
    ensures below_count { IfOk result (λ form. form < count) }
    ensures fault { IfErr result (λ fault. value_fault count n (value_of (plain_tree tree.now) n) ≡ Some fault) }
{
    match value(tree, n) {
        Ok(value) if value < u64::from(count) => Ok(value as u32),
        Ok(_) => Err(PluralFault::Range(n)),
        Err(_) => Err(PluralFault::Faults(n)),
    }
}

/// How many n in 0..999 each form serves, or the first fault at such an n.
pub(crate) fn count_served(tree: &Tree, count: u32) -> Result<[u16; 8], PluralFault>
    requires { count ≤ form_limit }
    ensures passed { IfOk result (λ _. values_fault (record { count = count; tree = plain_tree tree.now }) ≡ None) }
    ensures counts { IfOk result (λ served. (form : ℕ) →
        slice_index served form ≡ length (served_by (record { count = count; tree = plain_tree tree.now }) form)) }
    ensures fault { IfErr result (λ fault. values_fault (record { count = count; tree = plain_tree tree.now }) ≡ Some fault) }
{
    let mut served = [0; 8];
    for n in 0..TESTED {
        let form = form_at(tree, count, n)?;
        served[form as usize] += 1;
    }
    Ok(served)
}
