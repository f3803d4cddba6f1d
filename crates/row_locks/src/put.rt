ghost use Rattle.std.specs.Prelude.{◌≡◌, ◌+◌, ◌<◌, ◌≤◌, true, is_some, Some};
ghost use Rattle.std.specs.HashMap.{spare, get};
ghost use Rattle.row_locks.specs.Sets.{SetsAt};

use std::collections::HashMap;
use std::hash::Hash;

/// The key has this value from now on. There is room for it.
pub(crate) fn put<K: Eq + Hash + Drop, V: Drop>(map: &mut HashMap<K, V>, key: K, value: V)
    requires room { 0 < spare map.old }
    ensures values { SetsAt K.eq (get K.eq map.old) key (Some value) (get K.eq map.new) }
    ensures spare { spare map.old ≤ spare map.new + 1 }
{
    match map.insert(key, value) {
        Ok(_) => {}
        Err(_) => unreachable!(),
    }
}

/// The key, which is there, has this value from now on.
pub(crate) fn replace<K: Eq + Hash + Drop, V: Drop>(map: &mut HashMap<K, V>, key: &K, value: V)
    requires there { is_some (get K.eq map.old key.now) ≡ true }
    ensures values { SetsAt K.eq (get K.eq map.old) key.now (Some value) (get K.eq map.new) }
    ensures spare { spare map.new ≡ spare map.old }
{
    if let Some(place) = map.get_mut(key) {
        *place = value;
    }
}
