//! Plural rules of the GNU gettext manual ("Plural forms"): read once, tested, and then evaluated.
//!
//! - `rule`: a rule that passed every test
//! - `calls`: reading and evaluating rules
//! - `lexer`: the cut of a text into tokens
//! - `token`: tokens
//! - `reading`: the tree that tokens are written by
//! - `frame`: what a tree is a part of, where the rest is still to be read
//! - `frames`: trees, read with their frames
//! - `tree`: trees
//! - `text`: the digits and the tree that a text is written by
//! - `testing`: the tests of a tree, its depth and its values
//! - `values`: the value of a tree at n
//! - `copying`: copies of trees
//! - `fault`: why a text is no rule, or a rule has no value
//!
//! Specs: `Tokens` (how a text is cut), `Trees` (which tokens a tree is written by), `Values` (the value of a tree at
//! n, and the form of a number), `Faults` (the first test that a text fails), `KeptRule` (what is kept beside a rule),
//! `PlainTrees` and `PlainFrames` (trees and frames without their places in memory); for laws `Plain` (a plain slow reader of
//! trees) and `Codes` (trees as lists of numbers).
#![tactic(auto)]

mod calls;
mod copying;
mod fault;
mod frame;
mod frames;
mod lexer;
mod reading;
mod rule;
mod testing;
mod text;
mod token;
mod tree;
mod values;

pub use calls::{one_grammar, one_reading};
pub use fault::{EvalFault, PluralFault};
pub use rule::PluralForms;
