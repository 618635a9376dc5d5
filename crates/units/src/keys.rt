//! Keys in the order of their texts, and keys that are borrowed from units and entries.

ghost use Rattle.std.specs.Prelude.{◌≡◌, ◌↔◌, ◌+◌, ◌++◌, ◌∷◌, IfOk, length, slice_get, refl};
ghost use Rattle.std.specs.Option.{option_cmp, option_copied};
ghost use Rattle.std.specs.Ordering.{on, then_cmp, as_partial_cmp, eq_by_cmp};
ghost use Rattle.std.specs.Cmp.{partial_equiv_from_equiv, eq_by_cmp_equiv, partial_order_from_total};
ghost use Rattle.po_text.specs.Texts.{text_cmp};
ghost use Rattle.units.specs.declared.unit.Key.{Key as KeyValue};
ghost use Rattle.units.specs.Units.{context_glue, key_text, key_cmp, key_of as entry_key};
ghost use Rattle.units.specs.Orders.{key_total};
ghost use Rattle.units.specs.KeyTexts.{HasStrings};

use crate::unit::{Key, Unit};
use po_text::{Entry, PoString, Text};
use std::alloc::{AllocError, Global};
use std::cmp::Ordering;
use std::marker::Model;

/// What parts a key's context from its msgid in its text: U+0004, as in compiled catalogues (GNU gettext manual, "The Format of GNU MO
/// Files"), which no string of a catalogue has.
pub const CONTEXT_GLUE: char = '\u{4}';

const CONTEXT_GLUE_BYTE: u8 = CONTEXT_GLUE as u8;

/// A key that is borrowed from what has it. Keys are ordered by their texts: the msgid, or the context, U+0004 and the msgid, as the
/// GNU gettext manual has it of compiled catalogues ("The Format of GNU MO Files").
#[derive(Debug, Drop)]
pub struct KeyRef<'a> {
    ctx: Option<&'a PoString>,
    id: &'a PoString,
}

impl<'a> Model for KeyRef<'a> {
    ghost Value = { KeyValue };

    ghost view = { λ k. record { ctx = option_copied k.ctx; id = k.id.now } };
}

impl Key {
    /// The key's text: the msgid, or the context, U+0004 and the msgid.
    ///
    /// `AllocError` where a growth was refused.
    pub fn text(&self, alloc: Global) -> Result<Text, AllocError>
        ensures { IfOk result (λ text. text ≡ key_text self.now) }
    {
        let mut text = String::new(alloc);
        if let Some(ctx) = &self.ctx {
            text.push_str(ctx.as_str())?;
            text.push(CONTEXT_GLUE)?;
        }
        text.push_str(self.id.as_str())?;
        Ok(Text::from_string(text))
    }
}

/// Keys have equal texts exactly where they are equal: no string of a catalogue has the character U+0004.
pub fn equal_texts()
    ensures { (a b : KeyValue) → HasStrings a → HasStrings b → (key_text a ≡ key_text b) ↔ (a ≡ b) }
{}

/// What has a key.
pub trait Keyed {
    /// The key.
    ghost key_of: { Self → KeyValue };

    /// The key, borrowed.
    fn key(&self) -> KeyRef<'_>
        ensures { result ≡ key_of self.now };
}

impl Keyed for Key {
    ghost key_of = { λ key. key };

    fn key(&self) -> KeyRef<'_> {
        let Key { ctx, id } = self;
        KeyRef {
            ctx: ctx.as_ref(),
            id,
        }
    }
}

impl Keyed for Unit {
    ghost key_of = { λ unit. unit.key };

    fn key(&self) -> KeyRef<'_> {
        self.key.key()
    }
}

impl Keyed for Entry {
    ghost key_of = { entry_key };

    fn key(&self) -> KeyRef<'_> {
        KeyRef {
            ctx: self.ctx.as_ref(),
            id: &self.id,
        }
    }
}

impl PartialEq for KeyRef<'_> {
    ghost eq = { eq_by_cmp key_cmp };

    ghost laws = { partial_equiv_from_equiv (eq_by_cmp_equiv key_total) };

    fn eq(&self, other: &Self) -> bool {
        self.cmp(other) == Ordering::Equal
    }
}

impl Eq for KeyRef<'_> {
    ghost laws = { eq_by_cmp_equiv key_total };
}

impl PartialOrd for KeyRef<'_> {
    ghost partial_cmp = { as_partial_cmp key_cmp };

    ghost laws = { partial_order_from_total key_total };

    fn partial_cmp(&self, other: &Self) -> Option<Ordering> {
        Some(self.cmp(other))
    }
}

impl Ord for KeyRef<'_> {
    ghost cmp = { key_cmp };

    ghost total = { key_total };

    ghost matches_partial_cmp = { λ a b. refl };

    ghost matches_eq = { λ a b. refl };

    fn cmp(&self, other: &Self) -> Ordering {
        match compare_key_texts(self, other) {
            Ordering::Equal => compare_parts(self, other),
            decided => decided,
        }
    }
}

/// By context and msgid.
fn compare_parts(a: &KeyRef<'_>, b: &KeyRef<'_>) -> Ordering
    ensures { result ≡ then_cmp (on (λ key. key.ctx) (option_cmp text_cmp)) (on (λ key. key.id) text_cmp) a.now b.now }
{
    let contexts = match (a.ctx, b.ctx) {
        (None, None) => Ordering::Equal,
        (None, Some(_)) => Ordering::Less,
        (Some(_), None) => Ordering::Greater,
        (Some(x), Some(y)) => x.as_str().cmp(y.as_str()),
    };
    match contexts {
        Ordering::Equal => a.id.as_str().cmp(b.id.as_str()),
        decided => decided,
    }
}

/// By key texts.
fn compare_key_texts(a: &KeyRef<'_>, b: &KeyRef<'_>) -> Ordering
    ensures { result ≡ text_cmp (key_text a.now) (key_text b.now) }
{
    match (a.ctx, b.ctx) {
        (None, None) => a.id.as_str().cmp(b.id.as_str()),
        (_, _) => compare_by_bytes(a, b),
    }
}

/// By the bytes of key texts, which aren't made.
fn compare_by_bytes(a: &KeyRef<'_>, b: &KeyRef<'_>) -> Ordering
    ensures { result ≡ text_cmp (key_text a.now) (key_text b.now) }
{
    let end = key_text_len(a);
    for at in 0..end {
        match (key_text_byte(a, at), key_text_byte(b, at)) {
            (Some(x), Some(y)) => if x != y {
                return x.cmp(&y);
            },
            (_, _) => return Ordering::Greater,
        }
    }
    if end < key_text_len(b) {
        Ordering::Less
    } else {
        Ordering::Equal
    }
}

fn key_text_len(key: &KeyRef<'_>) -> usize
    ensures { result ≡ length (key_text key.now) }
{
    let front = match key.ctx {
        None => 0,
        Some(ctx) => ctx.as_str().len() + 1,
    };
    front + key.id.as_str().len()
}

fn key_text_byte(key: &KeyRef<'_>, at: usize) -> Option<u8>
    ensures { result ≡ slice_get (key_text key.now) at }
{
    let id = key.id.as_str().as_bytes();
    match key.ctx {
        None => id.get(at).copied(),
        Some(ctx) => behind_context(ctx.as_str().as_bytes(), id, at),
    }
}

fn behind_context(ctx: &[u8], id: &[u8], at: usize) -> Option<u8>
    ensures { result ≡ slice_get (ctx.now ++ context_glue ∷ id.now) at }
{
    if at < ctx.len() {
        Some(ctx[at])
    } else if at == ctx.len() {
        Some(CONTEXT_GLUE_BYTE)
    } else {
        id.get(at - ctx.len() - 1).copied()
    }
}
