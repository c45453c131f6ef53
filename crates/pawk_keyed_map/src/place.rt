//! Maps from keys, and the places of keys in them.

ghost use Rattle.std.specs.Prelude.{◌≡◌, IfOk, IfSome, None, OnErr, OnOk, is_some};
ghost use Rattle.pawk_keyed_map.specs.Keyed.{found, put, touched_by};
ghost use Rattle.pawk_keyed_map.specs.Pairs.{HasKeyAt, by_key};

use crate::key::{Key, Query};
use crate::seed::Seed;
use indexmap::IndexMap;
use std::alloc::{AllocError, Global};

/// A map from keys, which are hashed by its seed.
pub type KeyedMap<V> = IndexMap<Key, V, Seed>;

/// The place of a key among the pairs, if it is there.
#[inline(never)]
fn present_place<V: Drop>(map: &KeyedMap<V>, key: &[u8]) -> Option<usize>
    ensures place { IfSome result (λ place. HasKeyAt map.now.entries place key.now) }
    ensures found { is_some result ≡ is_some (found key.now (by_key map.now.entries)) }
{
    map.get_index_of(Query(key))
}

/// Adds a key that is missing, with this value, and gives its place. Memory may be refused; then the pairs are as
/// before.
#[inline(never)]
fn add_key<V: Drop>(
    alloc: Global,
    map: &mut KeyedMap<V>,
    key: &[u8],
    value: V,
) -> Result<usize, AllocError>
    requires { found key.now (by_key map.old.entries) ≡ None }
    ensures place { IfOk result (λ place. HasKeyAt map.new.entries place key.now) }
    ensures added { OnOk result
        (by_key map.new.entries ≡ put key.now value (by_key map.old.entries)) }
    ensures err { OnErr result (map.new.entries ≡ map.old.entries) }
{
    let key = Key::new(alloc, key)?;
    let (place, _) = map.insert_full(key, value)?;
    Ok(place)
}

/// The place of a key among the pairs; a key that is missing is added, with this value. Memory is
/// refused only then, and the pairs are as before.
#[inline(always)]
pub fn place_of<V: Drop>(
    alloc: Global,
    map: &mut KeyedMap<V>,
    key: &[u8],
    fresh: V,
) -> Result<usize, AllocError>
    ensures place { IfOk result (λ place. HasKeyAt map.new.entries place key.now) }
    ensures touched { OnOk result
        (by_key map.new.entries ≡ touched_by fresh key.now (by_key map.old.entries)) }
    ensures err { OnErr result (map.new.entries ≡ map.old.entries) }
{
    match present_place(map, key) {
        Some(place) => Ok(place),
        None => add_key(alloc, map, key, fresh),
    }
}
