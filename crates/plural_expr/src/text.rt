//! The digits and the tree that a text is written by.

ghost use Rattle.std.specs.Prelude.{◌≡◌, [], IfOk, MatchOption, None, option_map};
ghost use Rattle.plural_expr.specs.Plain.{operand_at, rule_at, rule_of, with_digits};
ghost use Rattle.plural_expr.specs.PlainTrees.{plain_tree};

use crate::lexer::tokens;
use crate::reading::read_tree;
use crate::token::Token;
use crate::tree::Tree;
use std::alloc::{AllocError, Global};

/// The digits behind `nplurals=`, and what stands behind `plural=`.
#[tactic(auto, unfolding(crate::specs::Plain::rule_at))]
fn header(tokens: &[Token]) -> Option<(Token, &[Token])>
    ensures { MatchOption result (rule_at tokens.now ≡ None)
        (λ found. rule_at tokens.now ≡ with_digits found.0 (operand_at [] found.1.now)) }
{
    let [
        Token::Nplurals,
        Token::Assign,
        digits,
        Token::Semicolon,
        Token::Plural,
        Token::Assign,
        expression @ ..,
    ] = tokens
    else {
        return None;
    };
    match digits {
        Token::Number(_) | Token::Digits => Some((*digits, expression)),
        _ => None,
    }
}

/// The digits of nplurals and the tree, or None where the text is not of the grammar.
///
/// The tree is as deep as the text makes it: `parse` reads at most 512 bytes, and tests the depth
/// afterwards. Reading keeps frames in a `Vec` and calls nothing for each level; only the drop of
/// a tree goes down its levels, which are fewer than 512.
#[tactic(auto, unfolding(crate::specs::Plain::rule_of))]
pub(crate) fn read_rule(alloc: Global, text: &[u8]) -> Result<Option<(Token, Tree)>, AllocError>
    ensures { IfOk result (λ found. option_map (λ rule. (rule.0, plain_tree rule.1)) found ≡ rule_of text.now) }
{
    let Some(tokens) = tokens(alloc, text)? else {
        return Ok(None);
    };
    let Some((digits, expression)) = header(&tokens) else {
        return Ok(None);
    };
    match read_tree(alloc, expression)? {
        Some(tree) => Ok(Some((digits, tree))),
        None => Ok(None),
    }
}
