//! The keys of a catalogue's entries.

ghost use Rattle.std.specs.Prelude.{◌≡◌, Some, IfOk, refl};
ghost use Rattle.std.specs.Option.{option_cmp};
ghost use Rattle.std.specs.Ordering.{on, then_cmp, as_partial_cmp, eq_by_cmp};
ghost use Rattle.std.specs.Cmp.{partial_equiv_from_equiv, eq_by_cmp_equiv, partial_order_from_total};
ghost use Rattle.po_text.specs.Texts.{text_cmp};
ghost use Rattle.po_text.specs.Entries.{is_header_key};
ghost use Rattle.po_text.specs.Keys.{entry_key_cmp, entry_key_total};

use crate::string::PoString;
use crate::text::Text;
use std::alloc::{AllocError, Global};
use std::cmp::Ordering;

/// A msgid with its context, if it has one. An absent context and an empty one are different.
#[derive(Drop)]
pub struct EntryKey {
    pub ctx: Option<Text>,
    pub id: Text,
}

impl EntryKey {
    /// The key of these strings.
    pub fn of(alloc: Global, ctx: &Option<PoString>, id: &PoString) -> Result<EntryKey, AllocError>
        ensures ctx { IfOk result (λ key. key.ctx ≡ ctx.now) }
        ensures id { IfOk result (λ key. key.id ≡ id.now) }
    {
        let ctx = match ctx {
            Some(ctx) => Some(Text::from_text(alloc, ctx.as_str())?),
            None => None,
        };
        let id = Text::from_text(alloc, id.as_str())?;
        Ok(EntryKey { ctx, id })
    }
}

impl PartialEq for EntryKey {
    ghost eq = { eq_by_cmp entry_key_cmp };

    ghost laws = { partial_equiv_from_equiv (eq_by_cmp_equiv entry_key_total) };

    fn eq(&self, other: &EntryKey) -> bool {
        self.cmp(other) == Ordering::Equal
    }
}

impl Eq for EntryKey {
    ghost laws = { eq_by_cmp_equiv entry_key_total };
}

impl PartialOrd for EntryKey {
    ghost partial_cmp = { as_partial_cmp entry_key_cmp };

    ghost laws = { partial_order_from_total entry_key_total };

    fn partial_cmp(&self, other: &EntryKey) -> Option<Ordering> {
        Some(self.cmp(other))
    }
}

impl Ord for EntryKey {
    ghost cmp = { entry_key_cmp };

    ghost total = { entry_key_total };

    ghost matches_partial_cmp = { λ a b. refl };

    ghost matches_eq = { λ a b. refl };

    fn cmp(&self, other: &EntryKey) -> Ordering {
        let contexts = match (&self.ctx, &other.ctx) {
            (None, None) => Ordering::Equal,
            (None, Some(_)) => Ordering::Less,
            (Some(_), None) => Ordering::Greater,
            (Some(a), Some(b)) => a.as_str().cmp(b.as_str()),
        };
        match contexts {
            Ordering::Equal => self.id.as_str().cmp(other.id.as_str()),
            decided => decided,
        }
    }
}

/// Whether the key is the header's: an entry with an empty msgid and no context is the header, or has its key.
pub fn is_header_key(ctx: &Option<PoString>, id: &PoString) -> bool
    ensures { result ≡ is_header_key ctx.now id.now }
{
    ctx.is_none() && id.as_str().is_empty()
}
