//! Why a text spells no catalogue.

use std::alloc::{AllocError, AllocFailed};
use thiserror::Error;

/// What is wrong with a text.
#[derive(Clone, Copy, Debug, PartialEq, Eq, Drop, Error)]
pub enum FaultKind {
    /// The bytes are not UTF-8.
    #[error("the text is not UTF-8")]
    NotUtf8,
    /// The line is of no form.
    #[error("this line is of no form")]
    Line,
    /// A quoted piece has no first or no last quote, a raw control character, or something behind it.
    #[error("this piece is not quoted as it has to be")]
    Quote,
    /// A backslash is not followed by one of the nine letters.
    #[error("a backslash without a known letter behind it")]
    Escape,
    /// The line cannot stand here, by the order of an entry's lines or by its mark.
    #[error("this line cannot stand here")]
    Order,
    /// A `msgstr` beside a `msgid_plural`, a `msgstr[D]` without one, or a wrong digit.
    #[error("this is not the form that is due here")]
    Forms,
    /// The entry's key was there before.
    #[error("this entry's msgctxt and msgid were there before")]
    Duplicate,
    /// The header names a charset other than UTF-8.
    #[error("the header names a charset other than UTF-8")]
    Charset,
    /// The text, a string or the number of entries passes its limit.
    #[error("a limit is passed")]
    Limit,
    /// A growth was refused.
    #[error("out of memory")]
    Memory,
}

impl FaultKind {
    ghost use Rattle.std.specs.Prelude.{◌≡◌};
    ghost use Rattle.po_lex.specs.Kinds.{fault_number};

    /// The number under which programs report the kind, from 1 to 10.
    pub fn number(self) -> u8
        ensures { result ≡ fault_number self }
    {
        match self {
            FaultKind::NotUtf8 => 1,
            FaultKind::Line => 2,
            FaultKind::Quote => 3,
            FaultKind::Escape => 4,
            FaultKind::Order => 5,
            FaultKind::Forms => 6,
            FaultKind::Duplicate => 7,
            FaultKind::Charset => 8,
            FaultKind::Limit => 9,
            FaultKind::Memory => 10,
        }
    }
}

impl From<AllocError> for FaultKind {
    ghost use Rattle.std.specs.Prelude.{◌≡◌};
    ghost use Rattle.po_lex.specs.declared.fault.FaultKind.TheVariants.{Memory};

    ghost from_gives = { λ _ kind. kind ≡ Memory };

    fn from(_refused: AllocError) -> FaultKind {
        FaultKind::Memory
    }
}

impl<T: Drop> From<AllocFailed<T>> for FaultKind {
    ghost use Rattle.std.specs.Prelude.{◌≡◌};
    ghost use Rattle.po_lex.specs.declared.fault.FaultKind.TheVariants.{Memory};

    ghost from_gives = { λ _ kind. kind ≡ Memory };

    fn from(_refused: AllocFailed<T>) -> FaultKind {
        FaultKind::Memory
    }
}

/// The line at which a fault is known, from 1, or 0 for the whole text.
#[derive(Clone, Copy, Debug, PartialEq, Eq, Drop, Error)]
#[error("line {line}: {kind}")]
pub struct PoFault {
    pub line: usize,
    pub kind: FaultKind,
}

impl PoFault {
    ghost use Rattle.std.specs.Prelude.{◌≡◌};
    ghost use Rattle.po_lex.specs.Kinds.{fault_number};

    /// The number of its kind, from 1 to 10.
    pub fn number(self) -> u8
        ensures { result ≡ fault_number self.kind }
    {
        self.kind.number()
    }
}
