//! Reading and evaluating plural rules.

ghost use Rattle.std.specs.Prelude.{◌≡◌, ◌≢◌, ◌↔◌, ◌<◌, ◌≤◌, ℕ, List, Bool, IfOk, IfErr, IsOk, Ok, Err, Some, Result};
ghost use Rattle.plural_expr.specs.declared.fault.PluralFault.{PluralFault as PluralFaultValue};
ghost use Rattle.plural_expr.specs.declared.fault.PluralFault.TheVariants as faults;
ghost use Rattle.plural_expr.specs.declared.token.Token.{Token};
ghost use Rattle.plural_expr.specs.Trees.{Tree as TreeValue, SpellsRule};
ghost use Rattle.plural_expr.specs.Values.{Rule, index_of, serves_one};
ghost use Rattle.plural_expr.specs.Plain.{rule_of};
ghost use Rattle.plural_expr.specs.Faults.{IsFaultOf, IsRuleOf, form_limit, count_of as form_count, rule_counted, reading_of};
ghost use Rattle.plural_expr.specs.PlainTrees.{plain_tree};

use crate::copying::copy_of;
use crate::fault::{EvalFault, PluralFault};
use crate::rule::PluralForms;
use crate::testing::{count_served, is_within};
use crate::text::read_rule;
use crate::token::Token;
use crate::tree::Tree;
use crate::values::value;
use std::alloc::{AllocError, Global};

/// A text has at most so many bytes.
const MAX_BYTES: usize = 512;

/// A tree is at most so deep.
const MAX_DEPTH: u32 = 32;

/// The number of forms, where nplurals is written as one digit from 1 to 8.
fn count_of(written: Token) -> Option<u32>
    ensures { result ≡ form_count written }
{
    match written {
        Token::Number(count @ 1..=8) => Some(count as u32),
        _ => None,
    }
}

/// The rule of these digits and this tree, or the first test that they fail.
fn counted(written: Token, tree: Tree) -> Result<PluralForms, PluralFault>
    ensures { result ≡ rule_counted written (plain_tree tree) }
{
    let Some(count) = count_of(written) else {
        drop(tree);
        return Err(PluralFault::Count);
    };
    if !is_within(&tree, MAX_DEPTH) {
        drop(tree);
        return Err(PluralFault::Depth);
    }
    match count_served(&tree, count) {
        Ok(served) => Ok(PluralForms {
            count,
            tree,
            served,
        }),
        Err(fault) => {
            drop(tree);
            Err(fault)
        }
    }
}

impl PluralForms {
    /// The rule that the text is written by, or the first test that it fails.
    ///
    /// The text is the value of a `Plural-Forms` field (GNU gettext manual, "Plural forms").
    pub fn parse(alloc: Global, text: &str) -> Result<PluralForms, PluralFault>
        ensures rule { IfOk result (λ forms. IsRuleOf text.now forms) }
        ensures fault { IfErr result (λ e. e ≢ faults.Memory → IsFaultOf text.now e) }
        // The same by the plain reader.
        ensures read { IfOk result (λ forms. reading_of text.now ≡ Ok forms) }
        ensures read_fault { IfErr result (λ e. e ≢ faults.Memory → reading_of text.now ≡ Err e) }
    {
        if text.len() > MAX_BYTES {
            return Err(PluralFault::Depth);
        }
        match read_rule(alloc, text.as_bytes())? {
            None => Err(PluralFault::Syntax),
            Some((written, tree)) => counted(written, tree),
        }
    }

    /// The number of forms, nplurals.
    pub fn count(&self) -> u32
        ensures value { result ≡ self.now.count }
        ensures some { 0 < result }
        ensures most { result ≤ form_limit }
    {
        self.count
    }

    /// The form's number at n, or why there is none.
    ///
    /// There is one at each n below 1000, where `parse` looked.
    #[tactic(auto, unfolding(crate::specs::Values::index_of))]
    pub fn index(&self, n: u32) -> Result<u32, EvalFault>
        ensures value { result ≡ index_of self.now n }
        ensures below_count { IfOk result (λ form. form < self.now.count) }
        ensures tested { n < 1000 → IsOk result }
    {
        let value = value(&self.tree, n)?;
        if value < u64::from(self.count) {
            Ok(value as u32)
        } else {
            Err(EvalFault::Range)
        }
    }

    /// Whether the form is that of exactly one n in 0..999.
    pub fn serves_one(&self, form: u32) -> bool
        ensures { result ≡ serves_one self.now form }
    {
        match self.served.get(form as usize) {
            Some(count) => *count == 1,
            None => false,
        }
    }

    /// Another such rule.
    pub fn duplicate(&self) -> Result<PluralForms, AllocError>
        ensures { IfOk result (λ copy. copy ≡ self.now) }
    {
        let tree = copy_of(&self.tree)?;
        Ok(PluralForms {
            count: self.count,
            tree,
            served: self.served,
        })
    }
}

/// The plain reader reads what trees are written by, and nothing else; so no text is written by two.
pub fn one_grammar()
    ensures { (text : List ℕ) (written : Token) (tree : TreeValue) →
        (rule_of text ≡ Some (written, tree)) ↔ SpellsRule text written tree }
{}

/// A text is a rule that passes every test, or fails a first one, exactly where the plain reader
/// computes it.
pub fn one_reading()
    ensures rule { (text : List ℕ) (rule : Rule) → (reading_of text ≡ Ok rule) ↔ IsRuleOf text rule }
    ensures fault { (text : List ℕ) (fault : PluralFaultValue) → (reading_of text ≡ Err fault) ↔ IsFaultOf text fault }
{}
