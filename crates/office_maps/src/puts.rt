//! Values put into maps.
ghost use Rattle.std.specs.Prelude.{◌≡◌, OnOk, OnErr};
ghost use Rattle.std.specs.BTreeMap.{insert_entry};

use std::alloc::AllocError;
use std::collections::BTreeMap;

/// Puts a value under a key, instead of what stood there.
pub(crate) fn put_in<K: Ord + Drop, V: Drop>(
    map: &mut BTreeMap<K, V>,
    key: K,
    value: V,
) -> Result<(), AllocError>
    ensures ok { OnOk result (map.new.entries ≡ insert_entry K.cmp map.old.entries key value) }
    ensures err { OnErr result (map.new.entries ≡ map.old.entries) }
{
    match map.insert(key, value) {
        Ok(before) => {
            drop(before);
            Ok(())
        }
        Err(refused) => {
            drop(refused);
            Err(AllocError)
        }
    }
}
