//! Names, languages, revisions and the threshold of votes. A clause sees each as its bytes or its number, and a value
//! exists only within its limits.
ghost use Rattle.std.specs.Prelude.{◌≡◌, ◌+◌, ◌==◌, ℕ, List, Some, None, true, nat_eq, nat_lt, if◌then◌else◌};
ghost use Rattle.std.specs.List.{list_all};
ghost use Rattle.std.specs.Cmp.{partial_equiv_from_equiv};
ghost use Rattle.std.specs.Cmp.Lexicographic.{pointwise, nat_list_eq_equiv};
ghost use Rattle.units.specs.Limits as limits;

use crate::limits::{ACCEPT_AT_LIMIT, LANG_LIMIT, NAME_LIMIT, REVISION_LIMIT};
use arrayvec::ArrayString;
use po_text::Duplicate;
use std::alloc::AllocError;
use std::fmt;
use std::marker::Model;

/// The name of a caller or of a domain: 1 to 32 bytes of `a` to `z`, `0` to `9`, `.`, `-` and `_`, the first a letter. (This
/// project's own rule.)
#[derive(Drop, Debug)]
pub struct Name {
    /// In the value itself, so that a copy takes no memory of its own.
    name: ArrayString<32>,
}

impl Model for Name {
    ghost Value = { List ℕ };

    ghost view = { λ a. a.name.bytes };

    ghost invariant = { λ a. limits.is_name a.name.bytes ≡ true };
}

impl Name {
    /// The text as a name, where it is one.
    pub fn try_new(text: &str) -> Option<Name>
        ensures { result ≡ (if limits.is_name text.now then Some text.now else None) }
    {
        if !is_name(text) {
            return None;
        }
        match ArrayString::from(text) {
            Ok(name) => Some(Name { name }),
            Err(_) => unreachable!(),
        }
    }

    /// `main`, the domain that a request is in if it names none.
    pub fn main_domain() -> Name
        ensures { result ≡ limits.main }
    {
        match ArrayString::from("main") {
            Ok(name) => Name { name },
            Err(_) => unreachable!(),
        }
    }

    /// The text of the name.
    pub fn as_str(&self) -> &str
        ensures value { result.now ≡ self.now }
        ensures fits { limits.is_name self.now ≡ true }
    {
        self.name.as_str()
    }
}

impl fmt::Display for Name {
    ghost output = { λ text. Some text };

    fn fmt<W: fmt::Write>(&self, f: &mut fmt::Formatter<W>) -> fmt::Result {
        f.write_str(&self.name)
    }
}

impl Duplicate for Name {
    fn duplicate(&self) -> Result<Name, AllocError> {
        Ok(Name { name: self.name })
    }
}

impl PartialEq for Name {
    ghost eq = { pointwise nat_eq };

    ghost laws = { partial_equiv_from_equiv nat_list_eq_equiv };

    fn eq(&self, other: &Name) -> bool {
        self.name == other.name
    }
}

impl Eq for Name {
    ghost laws = { nat_list_eq_equiv };
}

/// The code of a language, as `de` or `pt_BR`: 2 to 16 bytes of ASCII letters, digits, `_`, `-` and `@`, the first a
/// letter. (This project's own rule; it takes the locale names of the GNU gettext manual, "Locale Names", that have
/// no codeset.)
#[derive(Drop, Debug)]
pub struct Lang {
    /// In the value itself, as a name is.
    code: ArrayString<16>,
}

impl Model for Lang {
    ghost Value = { List ℕ };

    ghost view = { λ a. a.code.bytes };

    ghost invariant = { λ a. limits.is_lang a.code.bytes ≡ true };
}

impl Lang {
    /// The text as a language's code, where it is one.
    pub fn try_new(text: &str) -> Option<Lang>
        ensures { result ≡ (if limits.is_lang text.now then Some text.now else None) }
    {
        if !is_lang(text) {
            return None;
        }
        match ArrayString::from(text) {
            Ok(code) => Some(Lang { code }),
            Err(_) => unreachable!(),
        }
    }

    /// The text of the code.
    pub fn as_str(&self) -> &str
        ensures value { result.now ≡ self.now }
        ensures fits { limits.is_lang self.now ≡ true }
    {
        self.code.as_str()
    }
}

impl fmt::Display for Lang {
    ghost output = { λ text. Some text };

    fn fmt<W: fmt::Write>(&self, f: &mut fmt::Formatter<W>) -> fmt::Result {
        f.write_str(&self.code)
    }
}

impl Duplicate for Lang {
    fn duplicate(&self) -> Result<Lang, AllocError> {
        Ok(Lang { code: self.code })
    }
}

impl PartialEq for Lang {
    ghost eq = { pointwise nat_eq };

    ghost laws = { partial_equiv_from_equiv nat_list_eq_equiv };

    fn eq(&self, other: &Lang) -> bool {
        self.code == other.code
    }
}

impl Eq for Lang {
    ghost laws = { nat_list_eq_equiv };
}

/// A unit's revision, from 1 to 9,000,000,000,000,000. Each change of the translation, its state or its comment adds 1.
#[derive(Clone, Copy, PartialEq, Eq, Debug)]
pub struct Revision {
    number: u64,
}

impl Model for Revision {
    ghost Value = { ℕ };

    ghost view = { λ a. a.number };

    ghost invariant = { λ a. limits.is_revision a.number ≡ true };

    ghost inverse = { λ n. record { number = n } };
}

impl Revision {
    /// The number as a revision, where it is one.
    pub fn try_new(number: u64) -> Option<Revision>
        ensures { result ≡ (if limits.is_revision number then Some number else None) }
    {
        if 1 <= number && number <= REVISION_LIMIT {
            Some(Revision { number })
        } else {
            None
        }
    }

    /// The number of the revision.
    pub fn number(self) -> u64
        ensures value { result ≡ self }
        ensures fits { limits.is_revision self ≡ true }
    {
        self.number
    }

    /// The revision after this one. There is none after the last.
    pub fn next(self) -> Option<Revision>
        ensures { result ≡ (if nat_lt self limits.revision_limit then Some (self + 1) else None) }
    {
        let Revision { number } = self;
        Revision::try_new(number + 1)
    }
}

/// The sum of votes at which a suggestion is accepted by itself: 0 where none is, or 2 to 100. (Weblate's
/// documentation, "Translation workflows"; the greatest is this project's.)
#[derive(Clone, Copy, PartialEq, Eq, Debug)]
pub struct AcceptAt {
    sum: u8,
}

impl Model for AcceptAt {
    ghost Value = { ℕ };

    ghost view = { λ a. a.sum };

    ghost invariant = { λ a. limits.is_accept_at a.sum ≡ true };

    ghost inverse = { λ n. record { sum = n } };
}

impl AcceptAt {
    /// The number as a threshold, where it is one.
    pub fn try_new(sum: u8) -> Option<AcceptAt>
        ensures { result ≡ (if limits.is_accept_at sum then Some sum else None) }
    {
        if sum == 0 || (2 <= sum && sum <= ACCEPT_AT_LIMIT) {
            Some(AcceptAt { sum })
        } else {
            None
        }
    }

    /// The number of the threshold.
    pub fn number(self) -> u8
        ensures value { result ≡ self }
        ensures fits { limits.is_accept_at self ≡ true }
    {
        self.sum
    }
}

fn is_name(text: &str) -> bool
    ensures { result ≡ limits.is_name text.now }
{
    starts_small(text.as_bytes()) && text.len() <= NAME_LIMIT && are_name_bytes(text.as_bytes())
}

fn starts_small(bytes: &[u8]) -> bool
    ensures { result ≡ limits.starts limits.is_small_letter bytes.now }
{
    match bytes {
        [first, ..] => is_small_letter(*first),
        [] => false,
    }
}

fn is_small_letter(byte: u8) -> bool
    ensures { result ≡ limits.is_small_letter byte }
{
    b'a' <= byte && byte <= b'z'
}

fn is_digit(byte: u8) -> bool
    ensures { result ≡ limits.is_digit byte }
{
    b'0' <= byte && byte <= b'9'
}

fn are_name_bytes(bytes: &[u8]) -> bool
    ensures { result ≡ list_all limits.is_name_byte bytes.now }
{
    bytes.iter().all(|b| is_name_byte(*b))
}

fn is_name_byte(byte: u8) -> bool
    ensures { result ≡ limits.is_name_byte byte }
{
    is_small_letter(byte) || is_digit(byte) || byte == b'.' || byte == b'-' || byte == b'_'
}

fn is_lang(text: &str) -> bool
    ensures { result ≡ limits.is_lang text.now }
{
    starts_with_letter(text.as_bytes())
        && 2 <= text.len()
        && text.len() <= LANG_LIMIT
        && are_lang_bytes(text.as_bytes())
}

fn starts_with_letter(bytes: &[u8]) -> bool
    ensures { result ≡ limits.starts limits.is_letter bytes.now }
{
    match bytes {
        [first, ..] => is_letter(*first),
        [] => false,
    }
}

fn is_letter(byte: u8) -> bool
    ensures { result ≡ limits.is_letter byte }
{
    is_small_letter(byte) || (b'A' <= byte && byte <= b'Z')
}

fn are_lang_bytes(bytes: &[u8]) -> bool
    ensures { result ≡ list_all limits.is_lang_byte bytes.now }
{
    bytes.iter().all(|b| is_lang_byte(*b))
}

fn is_lang_byte(byte: u8) -> bool
    ensures { result ≡ limits.is_lang_byte byte }
{
    is_letter(byte) || is_digit(byte) || byte == b'_' || byte == b'-' || byte == b'@'
}
