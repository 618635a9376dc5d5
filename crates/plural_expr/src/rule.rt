//! Plural rules that passed every test.

ghost use Rattle.plural_expr.specs.Values.{Rule};
ghost use Rattle.plural_expr.specs.Codes.{coded_rule};
ghost use Rattle.plural_expr.specs.KeptRule.{IsKept};
ghost use Rattle.plural_expr.specs.PlainTrees.{plain_tree};

use crate::tree::Tree;
use std::marker::Model;

/// A plural rule, which contracts see as its number of forms and its tree.
#[derive(Drop)]
pub struct PluralForms {
    pub(crate) count: u32,
    pub(crate) tree: Tree,
    /// How many n in 0..999 each form serves.
    pub(crate) served: [u16; 8],
}

impl Model for PluralForms {
    ghost Value = { Rule };

    ghost coded = { coded_rule };

    ghost view = { λ p. record { count = p.count; tree = plain_tree p.tree } };

    ghost invariant = { λ p. IsKept (record { count = p.count; tree = plain_tree p.tree }) p.served };
}
