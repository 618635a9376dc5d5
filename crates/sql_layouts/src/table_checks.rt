//! The tests of a table, told by constants.
ghost use Rattle.std.specs.Prelude.{◌≡◌, ◌↔◌, ◌-◌, true, map, MatchOption};
ghost use Rattle.sqlite.specs.declared.types.Value.TheVariants.{Null, Int};
ghost use Rattle.sqlite.specs.Collation.TheVariants.{Binary};
ghost use Rattle.sqlite.specs.Term.{lit, col};
ghost use Rattle.sqlite_schema.specs.Code.{op_term, term_to, term_in, terms_in};
ghost use Rattle.sqlite_sql.specs.declared.ops.BinaryOp.TheVariants.{Compare};
ghost use Rattle.sql_schema.specs.Schema.{is_between};
ghost use Rattle.sql_layouts.specs.Checks.{check_of, compared};

use sqlite_schema::code::{Op, Terms};
use sqlite_sql::ops::{BinaryOp, CompareOp};
use sqlite_value::keys::Collation;
use sqlite_value::value::Value;

/// A test of a column, by its place in a row, where the rowid has place 0.
#[derive(Clone, Copy)]
pub enum Check {
    /// `column BETWEEN low AND high`.
    Between(usize, i64, i64),
    /// `column <> number`.
    Not(usize, i64),
}

/// The node at a place, where a term is read to a depth.
fn node_at(nodes: &[Op], depth: usize, at: usize) -> Option<&Op>
    ensures { MatchOption result (term_to nodes.now depth at ≡ lit Null) (λ op. term_to nodes.now depth at ≡ op_term (term_to nodes.now (depth - 1)) op.now) }
{
    if depth == 0 { None } else { nodes.get(at) }
}

/// Whether a term is a column of the row.
fn is_column(nodes: &[Op], depth: usize, at: usize, place: usize) -> bool
    ensures { (result ≡ true) ↔ (term_to nodes.now depth at ≡ col 1 place) }
{
    match node_at(nodes, depth, at) {
        Some(Op::Column(slot, found)) => *slot == 1 && *found == place,
        _ => false,
    }
}

/// Whether a term is a number.
fn is_number(nodes: &[Op], depth: usize, at: usize, number: i64) -> bool
    ensures { (result ≡ true) ↔ (term_to nodes.now depth at ≡ lit (Int number)) }
{
    match node_at(nodes, depth, at) {
        Some(Op::Literal(Value::Int(found))) => *found == number,
        _ => false,
    }
}

/// Whether an operator is this comparison, of texts by their bytes.
fn is_comparison(op: BinaryOp, how: CompareOp) -> bool
    ensures { (result ≡ true) ↔ (op ≡ Compare how Binary) }
{
    op == BinaryOp::Compare(how, Collation::Binary)
}

/// Whether a term compares a column with a number.
fn is_compared(
    nodes: &[Op],
    depth: usize,
    at: usize,
    how: CompareOp,
    place: usize,
    number: i64,
) -> bool
    ensures { (result ≡ true) ↔ (term_to nodes.now depth at ≡ compared how place number) }
{
    match node_at(nodes, depth, at) {
        Some(Op::Binary(op, left, right)) => {
            let below = depth - 1;
            is_comparison(*op, how)
                && is_column(nodes, below, *left, place)
                && is_number(nodes, below, *right, number)
        }
        _ => false,
    }
}

/// Whether a term says that a column has no number outside of two.
fn is_between(nodes: &[Op], depth: usize, at: usize, place: usize, low: i64, high: i64) -> bool
    ensures { (result ≡ true) ↔ (term_to nodes.now depth at ≡ is_between place low high) }
{
    match node_at(nodes, depth, at) {
        Some(Op::Binary(BinaryOp::And, left, right)) => {
            let below = depth - 1;
            is_compared(nodes, below, *left, CompareOp::Ge, place, low)
                && is_compared(nodes, below, *right, CompareOp::Le, place, high)
        }
        _ => false,
    }
}

/// Whether a term is the test.
fn is_check(nodes: &[Op], at: usize, check: &Check) -> bool
    ensures { (result ≡ true) ↔ (term_in nodes.now at ≡ check_of check.now) }
{
    match check {
        Check::Between(place, low, high) => is_between(nodes, nodes.len(), at, *place, *low, *high),
        Check::Not(place, number) => is_compared(
            nodes,
            nodes.len(),
            at,
            CompareOp::Ne,
            *place,
            *number,
        ),
    }
}

/// Whether these are the tests, one after another.
fn are_checks(nodes: &[Op], roots: &[usize], checks: &[Check]) -> bool
    ensures { (result ≡ true) ↔ (terms_in nodes.now roots.now ≡ map check_of checks.now) }
{
    if roots.len() != checks.len() {
        return false;
    }
    for (i, check) in checks.iter().enumerate() {
        if !is_check(nodes, roots[i], check) {
            return false;
        }
    }
    true
}

/// Whether these are the tests, one after another.
pub(crate) fn has_checks(terms: &Terms, checks: &[Check]) -> bool
    ensures { (result ≡ true) ↔ (terms.now ≡ map check_of checks.now) }
{
    are_checks(terms.nodes.as_slice(), terms.roots.as_slice(), checks)
}
