//! The formats whose placeholders are checked.

ghost use Rattle.std.specs.Prelude.{◌≡◌, ◌<◌, ◌≤◌, IfSome, length, take};
ghost use Rattle.std.specs.Option.{option_copied};
ghost use Rattle.std.specs.Str.{IsAscii};
ghost use Rattle.checks.specs.Formats.{flag_of, begins_with_pair, after_placeholder, placeholder_len};

use crate::brace::after_brace;
use crate::directive::after_directive;

/// A format of an entry's texts, told by a flag (GNU gettext manual, "The Format of PO Files").
#[derive(Clone, Copy)]
pub(crate) enum Format {
    C,
    Brace,
}

impl Format {
    pub(crate) fn flag(self) -> &'static str
        ensures { result.now ≡ flag_of self }
    {
        match self {
            Format::C => "c-format",
            Format::Brace => "python-brace-format",
        }
    }

    /// Whether the text begins with a pair, which is skipped whole.
    pub(crate) fn begins_with_pair(self, text: &[u8]) -> bool
        ensures { result ≡ begins_with_pair self text.now }
    {
        match self {
            Format::C => text.starts_with(b"%%"),
            Format::Brace => text.starts_with(b"{{") || text.starts_with(b"}}"),
        }
    }

    fn after_placeholder(self, text: &[u8]) -> Option<&[u8]>
        ensures { option_copied result ≡ after_placeholder self text.now }
    {
        match self {
            Format::C => after_directive(text),
            Format::Brace => after_brace(text),
        }
    }

    /// How many bytes the placeholder at the front has.
    pub(crate) fn placeholder_len(self, text: &[u8]) -> Option<usize>
        ensures value { result ≡ placeholder_len self text.now }
        ensures some { IfSome result (λ n. 0 < n) }
        ensures within { IfSome result (λ n. n ≤ length text.now) }
        ensures ascii { IfSome result (λ n. IsAscii (take n text.now)) }
    {
        let rest = self.after_placeholder(text)?;
        Some(text.len() - rest.len())
    }
}
