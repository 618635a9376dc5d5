//! The texts of keys, one behind another.

ghost use Rattle.std.specs.Prelude.{◌≡◌, ◌++◌, ◌∷◌, ◌<◌, ◌≤◌, List, [], Some, length, IfOk, OnOk};
ghost use Rattle.std.specs.List.{slice_get};
ghost use Rattle.std.specs.Str.{bytes_eq};
ghost use Rattle.po_text.specs.Entries.{is_header_key, same_key};
ghost use Rattle.po_text.specs.Texts.{is_empty};
ghost use Rattle.po_text.specs.declared.key.EntryKey.{EntryKey as KeyValue};
ghost use Rattle.po_read.specs.Found.{key_at_hand, pair_of, count_in};
ghost use Rattle.po_read.specs.KeyTexts.{between, bytes_of, end_of, key_at_place, IsPlaced};

use crate::place::{Place, narrow};
use po_text::PoString;
use std::alloc::{AllocError, Global};
use std::marker::Model;

/// Keys in order. None has memory of its own: their texts stand one behind another, each context behind its msgid.
#[derive(Drop)]
pub(crate) struct KeyTexts {
    bytes: Vec<u8>,
    places: Vec<Place>,
}

impl Model for KeyTexts {
    ghost use Rattle.std.specs.Prelude.{List, map, length};
    ghost use Rattle.std.specs.List.{AllByRecursion};
    ghost use Rattle.po_text.specs.declared.key.EntryKey.{EntryKey as KeyValue};
    ghost use Rattle.po_read.specs.KeyTexts.{key_at_place, IsPlaced};

    ghost Value = { List KeyValue };

    ghost view = { λ k. map (key_at_place k.bytes.items) k.places.items };

    ghost invariant = { λ k. AllByRecursion (IsPlaced (length k.bytes.items)) k.places.items };
}

impl KeyTexts {
    /// No keys. It takes no memory.
    pub(crate) fn new(alloc: Global) -> KeyTexts
        ensures { result ≡ [] }
    {
        KeyTexts {
            bytes: Vec::new(alloc),
            places: Vec::new(alloc),
        }
    }

    pub(crate) fn is_empty(&self) -> bool
        ensures { result ≡ is_empty self.now }
    {
        match self.places.as_slice() {
            [] => true,
            _ => false,
        }
    }

    pub(crate) fn len(&self) -> usize
        ensures { result ≡ length self.now }
    {
        self.places.len()
    }

    /// How many of the keys aren't the header's, which only the first may be.
    pub(crate) fn count(&self) -> usize
        ensures { result ≡ count_in self.now }
    {
        match self.places.as_slice() {
            [] => 0,
            [first, others @ ..] => {
                if is_headers(self.bytes.as_slice(), first) {
                    others.len()
                } else {
                    others.len() + 1
                }
            }
        }
    }

    /// Whether the key with this number is that of these strings.
    pub(crate) fn is(&self, number: usize, ctx: &Option<PoString>, id: &PoString) -> bool
        requires { number < length self.now }
        ensures { (key : KeyValue) → slice_get self.now number ≡ Some key → result ≡ same_key (pair_of key) (ctx.now, id.now) }
    {
        is_at(self.bytes.as_slice(), &self.places[number], ctx, id)
    }

    /// The keys with one more at the end.
    pub(crate) fn with(self, ctx: &Option<PoString>, id: &PoString) -> Result<KeyTexts, AllocError>
        ensures { IfOk result (λ keys. keys ≡ self ++ key_at_hand ctx.now id.now ∷ []) }
    {
        let KeyTexts {
            mut bytes,
            mut places,
        } = self;
        let start = narrow(bytes.len())?;
        bytes.extend_from_slice(id.as_str().as_bytes())?;
        let end = narrow(bytes.len())?;
        let ctx_end = add(&mut bytes, ctx)?;
        places.push(Place {
            start,
            end,
            ctx_end,
        })?;
        Ok(KeyTexts { bytes, places })
    }
}

/// Adds a string at the end of the bytes, if there is one, and answers where it ends.
fn add(bytes: &mut Vec<u8>, string: &Option<PoString>) -> Result<Option<u32>, AllocError>
    ensures bytes { OnOk result (bytes.new.items ≡ bytes.old.items ++ bytes_of string.now) }
    ensures end { IfOk result (λ end. end ≡ end_of (length bytes.old.items) string.now) }
{
    match string {
        None => Ok(None),
        Some(string) => {
            bytes.extend_from_slice(string.as_str().as_bytes())?;
            Ok(Some(narrow(bytes.len())?))
        }
    }
}

/// Whether the key at this place is the header's.
fn is_headers(bytes: &[u8], place: &Place) -> bool
    requires { IsPlaced (length bytes.now) place.now }
    ensures { result ≡ is_header_key (key_at_place bytes.now place.now).ctx (key_at_place bytes.now place.now).id }
{
    place.ctx_end.is_none() && place.start == place.end
}

/// Whether the key at this place is that of these strings.
fn is_at(bytes: &[u8], place: &Place, ctx: &Option<PoString>, id: &PoString) -> bool
    requires { IsPlaced (length bytes.now) place.now }
    ensures { result ≡ same_key (pair_of (key_at_place bytes.now place.now)) (ctx.now, id.now) }
{
    if !is_between(bytes, place.start, place.end, id.as_str()) {
        return false;
    }
    match (&place.ctx_end, ctx) {
        (None, None) => true,
        (Some(end), Some(ctx)) => is_between(bytes, place.end, *end, ctx.as_str()),
        _ => false,
    }
}

/// Whether this text stands there.
fn is_between(bytes: &[u8], start: u32, end: u32, text: &str) -> bool
    requires order { start ≤ end }
    requires within { end ≤ length bytes.now }
    ensures { result ≡ bytes_eq (between start end bytes.now) text.now }
{
    &bytes[start as usize..end as usize] == text.as_bytes()
}
