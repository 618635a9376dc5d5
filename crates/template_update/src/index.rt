//! Entries and units by their keys.

ghost use Rattle.std.specs.Prelude.{◌≡◌, IfOk, is_some};
ghost use Rattle.std.specs.Option.{option_copied};
ghost use Rattle.std.specs.BTreeMap.{get_by};
ghost use Rattle.units.specs.Units.{key_cmp};
ghost use Rattle.template_update.specs.KeyIndexes.{IsIndexOf};

use std::alloc::{AllocError, Global};
use std::collections::BTreeMap;
use units::{KeyRef, Keyed};

/// The first of a list for each key.
#[derive(Drop)]
pub(crate) struct KeyIndex<'a, T> {
    found: BTreeMap<KeyRef<'a>, &'a T>,
}

impl<'a, T: Keyed> KeyIndex<'a, T> {
    /// The index of a list, by one pass over it.
    pub(crate) fn of(alloc: Global, items: &'a [T]) -> Result<KeyIndex<'a, T>, AllocError>
        ensures { IfOk result (λ index. IsIndexOf T.key_of items.now index.found) }
    {
        let mut found = BTreeMap::new(alloc);
        for item in items {
            let key = item.key();
            if !found.contains_key(&key) {
                found.insert(key, item)?;
            }
        }
        Ok(KeyIndex { found })
    }

    /// The first with the key.
    pub(crate) fn first(&self, key: &KeyRef<'a>) -> Option<&'a T>
        ensures { option_copied result ≡ option_copied (get_by (key_cmp key.now) self.now.found) }
    {
        self.found.get(key).copied()
    }

    /// Whether one has the key.
    pub(crate) fn contains(&self, key: &KeyRef<'a>) -> bool
        ensures { result ≡ is_some (get_by (key_cmp key.now) self.now.found) }
    {
        self.found.contains_key(key)
    }
}
