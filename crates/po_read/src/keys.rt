//! The keys of whole entries.

ghost use Rattle.std.specs.Prelude.{◌≡◌, ◌++◌, ◌∷◌, List, [], IfOk, OnOk};
ghost use Rattle.po_text.specs.Texts.{is_empty};
ghost use Rattle.po_text.specs.declared.key.EntryKey.{EntryKey as KeyValue};
ghost use Rattle.po_read.specs.Found.{key_at_hand, key_hash, has_key, count_in, AreFound};

use crate::key_texts::KeyTexts;
use crate::place::narrow;
use po_text::{EntryKey, PoString};
use std::alloc::{AllocError, Global};
use std::collections::{BTreeMap, BTreeSet};
use std::hash::{FoldHasher, Hasher};
use std::marker::Model;
use std::mem::replace;

/// The keys of whole entries in order. A key is looked up by its hash: whoever picks keys of one hash has them compared in a tree.
#[derive(Drop)]
pub(crate) struct Keys {
    all: KeyTexts,
    /// Of each hash the number of the first key that has it.
    firsts: BTreeMap<u32, u32>,
    /// The keys behind it that have the same hash.
    others: BTreeSet<EntryKey>,
}

impl Model for Keys {
    ghost Value = { List KeyValue };

    ghost view = { λ k. k.all };

    ghost invariant = { λ k. AreFound k.all k.firsts k.others };
}

impl Keys {
    /// No keys. It takes no memory.
    pub(crate) fn new(alloc: Global) -> Keys
        ensures { result ≡ [] }
    {
        Keys {
            all: KeyTexts::new(alloc),
            firsts: BTreeMap::new(alloc),
            others: BTreeSet::new(alloc),
        }
    }

    pub(crate) fn is_empty(&self) -> bool
        ensures { result ≡ is_empty self.now }
    {
        self.all.is_empty()
    }

    /// How many of the keys aren't the header's, which only the first may be.
    pub(crate) fn count(&self) -> usize
        ensures { result ≡ count_in self.now }
    {
        self.all.count()
    }

    /// Whether this is one of the keys.
    pub(crate) fn has(
        &self,
        alloc: Global,
        ctx: &Option<PoString>,
        id: &PoString,
    ) -> Result<bool, AllocError>
        ensures { IfOk result (λ has. has ≡ has_key ctx.now id.now self.now) }
    {
        let Some(first) = self.firsts.get(&key_hash(ctx, id)) else {
            return Ok(false);
        };
        if self.all.is(*first as usize, ctx, id) {
            return Ok(true);
        }
        let key = EntryKey::of(alloc, ctx, id)?;
        Ok(self.others.contains(&key))
    }

    /// Adds the key of these strings at the end. Where memory runs out no keys are left.
    pub(crate) fn push(
        &mut self,
        alloc: Global,
        ctx: &Option<PoString>,
        id: &PoString,
    ) -> Result<(), AllocError>
        ensures { OnOk result (self.new ≡ self.old ++ key_at_hand ctx.now id.now ∷ []) }
    {
        let keys = replace(self, Keys::new(alloc)).with(alloc, ctx, id)?;
        drop(replace(self, keys));
        Ok(())
    }

    /// The keys with one more at the end.
    fn with(self, alloc: Global, ctx: &Option<PoString>, id: &PoString) -> Result<Keys, AllocError>
        ensures { IfOk result (λ keys. keys ≡ self ++ key_at_hand ctx.now id.now ∷ []) }
    {
        let Keys {
            all,
            mut firsts,
            mut others,
        } = self;
        let hash = key_hash(ctx, id);
        let number = narrow(all.len())?;
        let all = all.with(ctx, id)?;
        match firsts.insert(hash, number)? {
            None => Ok(Keys {
                all,
                firsts,
                others,
            }),
            Some(first) => {
                firsts.insert(hash, first)?;
                others.insert(EntryKey::of(alloc, ctx, id)?)?;
                Ok(Keys {
                    all,
                    firsts,
                    others,
                })
            }
        }
    }
}

/// The hash of a key: half of what the hasher makes of it, which takes half the memory.
fn key_hash(ctx: &Option<PoString>, id: &PoString) -> u32
    ensures { result ≡ key_hash ctx.now id.now }
{
    let mut hasher = FoldHasher::default();
    hasher.write(id.as_str().as_bytes());
    if let Some(ctx) = ctx {
        hasher.write(ctx.as_str().as_bytes());
    }
    (hasher.finish() >> 32) as u32
}
