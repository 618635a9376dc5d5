//! The cut of a text into tokens.

ghost use Rattle.std.specs.Prelude.{◌≡◌, ◌<◌, ◌≤◌, ◌^◌, ℕ, List, length, IfOk, IfSome, SomeIff, option_map, nat_eq, map};
ghost use Rattle.std.specs.List.{find, starts_with, prefix_len};
ghost use Rattle.std.specs.Char.{is_ascii_digit};
ghost use Rattle.plural_expr.specs.Tokens.{with_length, fixed, digits_token, token_at, tokens_of, value_of_digits};
ghost use Rattle.plural_expr.specs.PlainTrees.{spelled};

use crate::token::Token;
use crate::tree::Operator;
use std::alloc::{AllocError, Global};

/// The tokens with one spelling. A token stands before those that begin it, so the first that
/// fits is the longest.
const FIXED: [(&[u8], Token); 23] = [
    (b"nplurals", Token::Nplurals),
    (b"plural", Token::Plural),
    (b"n", Token::Variable),
    (b"||", Token::Operation(Operator::Or)),
    (b"&&", Token::Operation(Operator::And)),
    (b"==", Token::Operation(Operator::Equal)),
    (b"!=", Token::Operation(Operator::NotEqual)),
    (b"<=", Token::Operation(Operator::LessOrEqual)),
    (b">=", Token::Operation(Operator::GreaterOrEqual)),
    (b"<", Token::Operation(Operator::Less)),
    (b">", Token::Operation(Operator::Greater)),
    (b"+", Token::Operation(Operator::Add)),
    (b"-", Token::Operation(Operator::Subtract)),
    (b"*", Token::Operation(Operator::Multiply)),
    (b"/", Token::Operation(Operator::Divide)),
    (b"%", Token::Operation(Operator::Remainder)),
    (b"!", Token::Negation),
    (b"=", Token::Assign),
    (b";", Token::Semicolon),
    (b"?", Token::Question),
    (b":", Token::Colon),
    (b"(", Token::Left),
    (b")", Token::Right),
];

/// The first of the table that stands at the front, and its length.
fn first_spelled(table: &[(&[u8], Token)], text: &[u8]) -> Option<(usize, Token)>
    ensures { result ≡ option_map with_length (find (λ w. starts_with nat_eq text.now w.0) (map spelled table.now)) }
{
    for (spelling, token) in table {
        if text.starts_with(spelling) {
            return Some((spelling.len(), *token));
        }
    }
    None
}

/// The token with one spelling at the front, and its length.
fn fixed_token(text: &[u8]) -> Option<(usize, Token)>
    ensures { result ≡ option_map with_length (find (λ w. starts_with nat_eq text.now w.0) fixed) }
{
    first_spelled(&FIXED, text)
}

/// How many digits stand at the front.
fn leading_digits(text: &[u8]) -> usize
    ensures { result ≡ prefix_len is_ascii_digit text.now }
{
    text.iter().take_while(|b| b.is_ascii_digit()).count()
}

/// The value of digits, where it is at most 2^64 - 1.
fn value_of(digits: &[u8]) -> Option<u64>
    ensures { SomeIff result (value_of_digits digits.now < 2 ^ 64) (value_of_digits digits.now) }
{
    let mut value = 0u64;
    for digit in digits {
        value = value
            .checked_mul(10)?
            .checked_add(u64::from(digit.saturating_sub(b'0')))?;
    }
    Some(value)
}

/// The token of digits: a number, if they are `0` or begin with another digit and the value is
/// small enough.
fn number(digits: &[u8]) -> Token
    ensures { result ≡ digits_token digits.now }
{
    match digits {
        [b'0', _, ..] | [] => Token::Digits,
        _ => match value_of(digits) {
            Some(value) => Token::Number(value),
            None => Token::Digits,
        },
    }
}

/// The longest token at the front, and its length.

fn token(text: &[u8]) -> Option<(usize, Token)>
    ensures longest { result ≡ option_map with_length (token_at text.now) }
    ensures some { IfSome result (λ found. 0 < found.0) }
    ensures within { IfSome result (λ found. found.0 ≤ length text.now) }
{
    let len = leading_digits(text);
    if len == 0 {
        fixed_token(text)
    } else {
        Some((len, number(&text[..len])))
    }
}

/// The tokens of a text, with spaces between them or not. None where the text has something
/// else.
pub(crate) fn tokens(alloc: Global, text: &[u8]) -> Result<Option<Vec<Token>>, AllocError>
    ensures { IfOk result (λ found. option_map (λ v. v.items) found ≡ tokens_of text.now) }
{
    let mut tokens = Vec::new(alloc);
    let mut rest = text;
    while let [first, behind @ ..] = rest {
        if *first == b' ' {
            rest = behind;
        } else {
            let Some((len, token)) = token(rest) else {
                return Ok(None);
            };
            tokens.push(token)?;
            rest = &rest[len..];
        }
    }
    Ok(Some(tokens))
}
