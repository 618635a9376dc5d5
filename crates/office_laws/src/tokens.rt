//! The tokens of plural rules.

ghost use Rattle.std.specs.Prelude.{◌≡◌, ℕ, List, Some};
ghost use Rattle.plural_expr.specs.Tokens.{Written, token_at};
ghost use Rattle.office_laws.specs.Tokens.{IsLongest};

/// The token that is taken at the front of a text is as long as possible: no spelling of the table and no run of digits that stands
/// there is longer.
pub fn tokens_are_longest()
    ensures { (text : List ℕ) (written : Written) → token_at text ≡ Some written → IsLongest text written }
{}
