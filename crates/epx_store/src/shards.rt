//! The shards of a store.
ghost use Rattle.std.specs.Prelude.{◌≡◌, All, IfOk, map};
ghost use Rattle.std.specs.FinMap as contents;
ghost use Rattle.epx_store.specs.Shards.{shard_of};

use crate::key_map::KeyMap;
use crate::tournament::Pairs;
use epx_types::{Key, Memory};
use std::alloc::Global;
use std::array;

/// The number of shards of a store.
pub(crate) const SHARDS: usize = 16;

/// Returns the number of a key's shard: the sum of its bytes modulo the number of shards.
pub(crate) fn shard_of(key: &Key) -> usize
    ensures { result ≡ shard_of key.now }
{
    let mut sum = 0;
    for byte in key.text().as_bytes() {
        sum += *byte as usize;
    }
    sum % SHARDS
}

/// Returns shards without keys. Allocates nothing.
pub(crate) fn empty_shards(alloc: Global) -> [KeyMap<i64>; SHARDS]
    ensures { All (λ c. c ≡ contents.empty) result }
{
    array::from_fn(|_| KeyMap::new(alloc))
}

/// Returns copies of all shards, with keys of their own.
pub(crate) fn copy_shards(
    alloc: Global,
    shards: &[KeyMap<i64>; SHARDS],
) -> Result<[KeyMap<i64>; SHARDS], Memory>
    ensures { IfOk result (λ copy. copy ≡ shards.now) }
{
    let mut copy = empty_shards(alloc);
    for number in 0..SHARDS {
        copy[number] = shards[number].copy()?;
    }
    Ok(copy)
}

/// Returns for each shard its keys with their values, by rising key.
pub(crate) fn list_shards<'a>(
    alloc: Global,
    shards: &'a [KeyMap<i64>; SHARDS],
) -> Result<[Pairs<'a>; SHARDS], Memory>
    ensures { IfOk result
        (λ lists. map (λ l. map (λ p. (p.0.now, p.1)) l.items) lists ≡
        map contents.entries shards.now) }
{
    let mut lists = array::from_fn(|_| Vec::new(alloc));
    for number in 0..SHARDS {
        lists[number] = shards[number].list()?;
    }
    Ok(lists)
}
