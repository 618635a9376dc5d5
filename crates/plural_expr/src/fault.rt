//! Why a text is no plural rule, or a rule has no value.

ghost use Rattle.std.specs.Prelude.{◌≡◌};
ghost use Rattle.plural_expr.specs.declared.fault.PluralFault.TheVariants as faults;
ghost use Rattle.plural_expr.specs.Faults.{eval_fault_number, fault_at, fault_number};

use std::alloc::{AllocError, AllocFailed};
use thiserror::Error;

/// Why a rule has no form's number at some n.
#[derive(Clone, Copy, Debug, PartialEq, Eq, Drop, Error)]
pub enum EvalFault {
    #[error("a division by zero")]
    Zero,
    #[error("a difference below zero")]
    Below,
    #[error("a value over 18446744073709551615")]
    Above,
    #[error("a value that is not below nplurals")]
    Range,
}

impl EvalFault {
    /// The number of the fault: 1 for `Zero`, 2 for `Below`, 3 for `Above`, 4 for `Range`.
    pub fn number(&self) -> u8
        ensures { result ≡ eval_fault_number self.now }
    {
        match self {
            EvalFault::Zero => 1,
            EvalFault::Below => 2,
            EvalFault::Above => 3,
            EvalFault::Range => 4,
        }
    }
}

/// The first test that a text fails as a plural rule.
#[derive(Clone, Copy, Debug, PartialEq, Eq, Drop, Error)]
pub enum PluralFault {
    #[error("the text is not of the grammar of plural rules")]
    Syntax,
    #[error("nplurals is not one digit from 1 to 8")]
    Count,
    #[error("the text has more than 512 bytes, or the expression is deeper than 32")]
    Depth,
    #[error("the expression has no value at n = {0}")]
    Faults(u32),
    #[error("the value at n = {0} is not below nplurals")]
    Range(u32),
    #[error("out of memory")]
    Memory,
}

impl PluralFault {
    /// The number of the fault: 1 for `Syntax`, 2 for `Count`, 3 for `Depth`, 4 for `Faults`,
    /// 5 for `Range`, 6 for `Memory`.
    pub fn number(&self) -> u8
        ensures { result ≡ fault_number self.now }
    {
        match self {
            PluralFault::Syntax => 1,
            PluralFault::Count => 2,
            PluralFault::Depth => 3,
            PluralFault::Faults(_) => 4,
            PluralFault::Range(_) => 5,
            PluralFault::Memory => 6,
        }
    }

    /// The n at which the fault was met, where it is one of a value.
    pub fn at(&self) -> Option<u32>
        ensures { result ≡ fault_at self.now }
    {
        match self {
            PluralFault::Faults(n) | PluralFault::Range(n) => Some(*n),
            _ => None,
        }
    }
}

impl From<AllocError> for PluralFault {
    ghost from_gives = { λ _ fault. fault ≡ faults.Memory };

    fn from(_error: AllocError) -> PluralFault {
        PluralFault::Memory
    }
}

impl<T: Drop> From<AllocFailed<T>> for PluralFault {
    ghost from_gives = { λ _ fault. fault ≡ faults.Memory };

    fn from(_error: AllocFailed<T>) -> PluralFault {
        PluralFault::Memory
    }
}
