//! Spaces and tabs at the ends of a text.

ghost use Rattle.std.specs.Prelude.{◌≡◌, ◌≢◌, ℕ, List, [], ◌∷◌, ◌++◌, ◌<◌, length, IfSome, MatchOption};
ghost use Rattle.po_lex.specs.Reading.{drop_white_end, trim};

use crate::forms::skip_white;

/// The text in front of this ASCII character, if it ends the text.
fn before(text: &str, mark: char) -> Option<&str>
    requires { mark < 128 }
    ensures { MatchOption result ((front : List ℕ) → text.now ≢ front ++ mark ∷ []) (λ front. text.now ≡ front.now ++ mark ∷ []) }
{
    text.strip_suffix(mark)
}

fn before_white(text: &str) -> Option<&str>
    ensures front { MatchOption result (drop_white_end text.now ≡ text.now) (λ front. drop_white_end text.now ≡ drop_white_end front.now) }
    ensures shorter { IfSome result (λ front. length front.now < length text.now) }
{
    match before(text, ' ') {
        Some(front) => Some(front),
        None => before(text, '\t'),
    }
}

fn drop_white_end(text: &str) -> &str
    ensures { result.now ≡ drop_white_end text.now }
{
    let mut front = text;
    while let Some(next) = before_white(front) {
        front = next;
    }
    front
}

/// The text without spaces and tabs at its ends. It takes no memory.
pub fn trim(text: &str) -> &str
    ensures { result.now ≡ trim text.now }
{
    drop_white_end(skip_white(text))
}
