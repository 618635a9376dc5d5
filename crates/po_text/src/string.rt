//! The strings of a catalogue, and the forms of an entry. A value exists only within its limits.
ghost use Rattle.std.specs.Prelude.{◌≡◌, ◌<◌, ◌≤◌, ◌+◌, ◌++◌, ◌∷◌, [], length, List, ℕ, IfOk, OnOk, string_bytes, Some, None, true, nat_eq, if◌then◌else◌};
ghost use Rattle.std.specs.List.{list_all};
ghost use Rattle.std.specs.Cmp.{partial_equiv_from_equiv};
ghost use Rattle.std.specs.Cmp.Lexicographic.{pointwise, nat_list_eq_equiv};
ghost use Rattle.po_lex.specs.Escapes.{unescaped};
ghost use Rattle.po_text.specs.Strings.{form_limit, string_limit, is_string_byte, is_string, is_forms};
ghost use Rattle.po_text.specs.Texts.{Text, last_text, last_more};

use crate::duplicate::Duplicate;
use crate::items::Items;
use crate::pieces::push_unescaped;
use std::alloc::{AllocError, Global};
use std::marker::Model;
use std::mem::replace;

/// How many bytes a string has at most. (This project's own rule.)
pub const STRING_LIMIT: usize = 262_144;

/// A string of a catalogue: Unicode text without U+0000 to U+0006 and U+000E to U+001F, of at most [`STRING_LIMIT`] bytes. The
/// other control characters have escapes of their own.
#[derive(Debug, Drop)]
pub struct PoString {
    inner: String,
}

impl Model for PoString {
    ghost Value = { List ℕ };

    ghost view = { λ s. string_bytes s.inner };

    ghost invariant = { λ s. is_string (string_bytes s.inner) ≡ true };
}

impl PoString {
    /// The text as a string, where it is one.
    pub fn try_new(alloc: Global, text: &str) -> Result<Option<PoString>, AllocError>
        ensures { IfOk result (λ o. o ≡ (if is_string text.now then Some text.now else None)) }
    {
        if !holds_string(text) {
            return Ok(None);
        }
        Ok(Some(PoString {
            inner: String::from_str(alloc, text)?,
        }))
    }

    /// The string that a piece stands for.
    pub fn from_piece(alloc: Global, raw: &str) -> Result<PoString, AllocError>
        requires short { length (unescaped raw.now) ≤ string_limit }
        requires bytes { list_all is_string_byte (unescaped raw.now) ≡ true }
        ensures { IfOk result (λ string. string ≡ unescaped raw.now) }
    {
        let mut inner = String::with_capacity(alloc, raw.len())?;
        push_unescaped(&mut inner, raw)?;
        Ok(PoString { inner })
    }

    /// No text. It takes no memory.
    pub fn empty(alloc: Global) -> PoString
        ensures { result ≡ [] }
    {
        PoString {
            inner: String::new(alloc),
        }
    }

    /// Adds that of a piece at the end.
    pub fn add_piece(&mut self, alloc: Global, raw: &str) -> Result<(), AllocError>
        requires short { length self.old + length (unescaped raw.now) ≤ string_limit }
        requires bytes { list_all is_string_byte (unescaped raw.now) ≡ true }
        ensures { OnOk result (self.new ≡ self.old ++ unescaped raw.now) }
    {
        let mut inner = replace(&mut self.inner, String::new(alloc));
        inner.reserve(raw.len())?;
        push_unescaped(&mut inner, raw)?;
        self.inner = inner;
        Ok(())
    }

    /// The string as a slice.
    pub fn as_str(&self) -> &str
        ensures value { result.now ≡ self.now }
        ensures fits { is_string self.now ≡ true }
    {
        &self.inner
    }
}

impl Duplicate for PoString {
    fn duplicate(&self) -> Result<PoString, AllocError> {
        Ok(PoString {
            inner: self.inner.clone()?,
        })
    }
}

impl PartialEq for PoString {
    ghost eq = { pointwise nat_eq };

    ghost laws = { partial_equiv_from_equiv nat_list_eq_equiv };

    fn eq(&self, other: &PoString) -> bool {
        self.inner.as_str() == other.inner.as_str()
    }
}

impl Eq for PoString {
    ghost laws = { nat_list_eq_equiv };
}

/// The forms of an entry's translation, 1 to 8 strings.
#[derive(Debug, Drop)]
pub struct Forms {
    strings: Items<PoString>,
}

impl Model for Forms {
    ghost Value = { List (List ℕ) };

    ghost view = { λ f. f.strings };

    ghost invariant = { λ f. is_forms f.strings ≡ true };
}

impl Forms {
    /// These strings as forms, where they are 1 to 8.
    pub fn try_new(strings: Vec<PoString>) -> Option<Forms>
        requires { list_all is_string strings.items ≡ true }
        ensures { result ≡ (if is_forms strings.items then Some strings.items else None) }
    {
        if 1 <= strings.len() && strings.len() <= 8 {
            Some(Forms {
                strings: Items::from_vec(strings),
            })
        } else {
            None
        }
    }

    /// This string as the only form.
    pub fn one(alloc: Global, form: PoString) -> Result<Forms, AllocError>
        ensures { IfOk result (λ forms. forms ≡ form ∷ []) }
    {
        let _ = form.as_str();
        let mut strings = Items::new(alloc);
        strings.push(form)?;
        Ok(Forms { strings })
    }

    /// Adds one more.
    pub fn add(&mut self, form: PoString) -> Result<(), AllocError>
        requires { length self.old < form_limit }
        ensures { OnOk result (self.new ≡ self.old ++ form ∷ []) }
    {
        let _ = form.as_str();
        self.strings.push(form)?;
        Ok(())
    }

    /// The last form.
    pub fn last(&self) -> &PoString
        ensures { (first : Text) → result.now ≡ last_text first self.now }
    {
        let strings = self.strings.as_slice();
        &strings[strings.len() - 1]
    }

    /// Adds the string of a piece at the last one's end.
    pub fn add_piece(&mut self, alloc: Global, raw: &str) -> Result<(), AllocError>
        requires short { (first : Text) × (length (last_text first self.old) + length (unescaped raw.now) ≤ string_limit) }
        requires bytes { list_all is_string_byte (unescaped raw.now) ≡ true }
        ensures more { OnOk result (self.new ≡ last_more self.old (unescaped raw.now)) }
        ensures were { is_forms self.old ≡ true }
    {
        let last = self.strings.as_slice().len() - 1;
        let mut form = self.strings.replace_at(last, PoString::empty(alloc));
        form.add_piece(alloc, raw)?;
        let _ = form.as_str();
        self.strings.replace_at(last, form);
        Ok(())
    }

    /// The forms in order, form 0 first.
    pub fn as_slice(&self) -> &[PoString]
        ensures value { result.now ≡ self.now }
        ensures fits { is_forms self.now ≡ true }
    {
        self.strings.as_slice()
    }
}

impl Duplicate for Forms {
    fn duplicate(&self) -> Result<Forms, AllocError> {
        Ok(Forms {
            strings: self.strings.duplicate()?,
        })
    }
}

fn holds_string(text: &str) -> bool
    ensures { result ≡ is_string text.now }
{
    text.len() <= STRING_LIMIT && holds_string_bytes(text.as_bytes())
}

fn holds_string_bytes(bytes: &[u8]) -> bool
    ensures { result ≡ list_all is_string_byte bytes.now }
{
    bytes.iter().all(|b| holds_string_byte(*b))
}

fn holds_string_byte(byte: u8) -> bool
    ensures { result ≡ is_string_byte byte }
{
    (7 <= byte && byte <= 13) || 32 <= byte
}
