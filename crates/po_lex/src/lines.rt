//! The lines of a text, one by one.

ghost use Rattle.std.specs.Prelude.{◌≡◌, [], ◌∷◌, ◌+◌, ◌<◌, ◌^◌, length, MatchOption, IfSome, IfNone};
ghost use Rattle.po_lex.specs.Lines.{lines_of};
ghost use Rattle.po_lex.specs.PlainTokens.{Rest, IsNext};

use crate::fault::PoFault;
use crate::forms::line_of;
use crate::line::Token;
use memchr::memchr;
use std::marker::Model;

/// The lines that are left of a text.
#[derive(Drop)]
pub struct Lines<'a> {
    rest: &'a str,
    passed: usize,
}

impl<'a> Model for Lines<'a> {
    ghost Value = { Rest };

    ghost view = { λ s. record { text = s.rest.now; number = s.passed + 1 } };

    ghost invariant = { λ s. s.passed + length s.rest.now < 2 ^ 64 };
}

/// The lines of a text. The first has number 1.
pub fn lex(text: &str) -> Lines<'_>
    ensures { result ≡ record { text = text.now; number = 1 } }
{
    Lines {
        rest: text,
        passed: 0,
    }
}

impl<'a> Lines<'a> {
    /// The next line's form, or its fault; `None` behind the last line. It takes no memory.
    pub fn next(&mut self) -> Option<Result<Token<'a>, PoFault>>
        ensures some { IfSome result (λ told. IsNext self.old self.new told) }
        ensures none { IfNone result ((lines_of self.old.text ≡ []) × (self.new ≡ self.old)) }
    {
        let (line, rest) = first_line(self.rest)?;
        self.rest = rest;
        self.passed += 1;
        let number = self.passed;
        match line_of(line) {
            Ok(line) => Some(Ok(Token { number, line })),
            Err(kind) => Some(Err(PoFault { line: number, kind })),
        }
    }
}

/// The first line, and what stands behind its LF.
pub fn first_line(text: &str) -> Option<(&str, &str)>
    ensures cut { MatchOption result (lines_of text.now ≡ []) (λ cut. lines_of text.now ≡ cut.0.now ∷ lines_of cut.1.now) }
    ensures shorter { IfSome result (λ cut. length cut.1.now < length text.now) }
{
    if text.is_empty() {
        return None;
    }
    match memchr(b'\n', text.as_bytes()) {
        Some(len) => Some((&text[..len], &text[len + 1..])),
        None => Some((text, "")),
    }
}
