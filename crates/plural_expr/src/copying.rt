//! Copies of trees.

ghost use Rattle.std.specs.Prelude.{◌≡◌, IfOk};
ghost use Rattle.plural_expr.specs.PlainTrees.{plain_tree};

use crate::tree::Tree;
use std::alloc::AllocError;

/// The same tree again. It is as deep in calls as the tree, which a rule bounds by 32.
#[cycle(copying)]
pub(crate) fn copy_of(tree: &Tree) -> Result<Tree, AllocError>
    ensures { IfOk result (λ copy. plain_tree copy ≡ plain_tree tree.now) }
{
    match tree {
        Tree::Variable => Ok(Tree::Variable),
        Tree::Number(k) => Ok(Tree::Number(*k)),
        Tree::Parens(inner) => Ok(Tree::Parens(boxed_copy(inner)?)),
        Tree::Negated(inner) => Ok(Tree::Negated(boxed_copy(inner)?)),
        Tree::Binary(o, left, right) => {
            let left = boxed_copy(left)?;
            let right = boxed_copy(right)?;
            Ok(Tree::Binary(*o, left, right))
        }
        Tree::Choice(condition, then, other) => {
            let condition = boxed_copy(condition)?;
            let then = boxed_copy(then)?;
            let other = boxed_copy(other)?;
            Ok(Tree::Choice(condition, then, other))
        }
    }
}

/// The tree of a box again, in memory of the box's allocator.
#[cycle(copying)]
fn boxed_copy(node: &Box<Tree>) -> Result<Box<Tree>, AllocError>
    ensures { IfOk result (λ copy. plain_tree copy.value ≡ plain_tree node.now.value) }
{
    let alloc = *Box::allocator(node);
    let copy = copy_of(node)?;
    Ok(Box::new(alloc, copy)?)
}
