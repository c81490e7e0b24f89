//! The store.
ghost use Rattle.std.specs.Prelude.{◌≡◌, T, List, IfOk, OnOk, OnErr, map, flat_map};
ghost use Rattle.std.specs.Prelude.{IsPermutation};
ghost use Rattle.std.specs.FinMap as contents;
ghost use Rattle.std.specs.FinMap.{is_sorted};
ghost use Rattle.epx_types.specs.Contents.{Contents, assign};
ghost use Rattle.epx_types.specs.Keys.{key_cmp};
ghost use Rattle.epx_types.specs.Writes.{apply_writes};
ghost use Rattle.epx_store.specs.Shards.{AreShards, all_contents};

use crate::effect::Effect;
use crate::key_map::KeyMap;
use crate::ranges::merge_by_ranges;
use crate::routes::{put_routes, sort_by_shard};
use crate::shards::{SHARDS, copy_shards, empty_shards, list_shards, shard_of};
use crate::tournament::{Pairs, merge};
use epx_types::{Key, Memory, Plan};
use std::alloc::Global;
use std::marker::Model;
use std::thread::Threads;

/// A map from keys to signed numbers of 64 bits. Contracts see it as one finite map.
#[derive(Debug)]
pub struct Store {
    alloc: Global,
    shards: [KeyMap<i64>; SHARDS],
}

impl Drop for Store {
    fn drop(self) {
        let Store {
            alloc: _,
            shards: _,
        } = self;
    }
}

impl Model for Store {
    ghost use Rattle.std.specs.FinMap as contents;
    ghost use Rattle.std.specs.Coded.{coded_list, coded_ℕ, coded_ℤ};
    ghost use Rattle.epx_types.specs.Contents.{Contents};
    ghost use Rattle.epx_store.specs.Shards.{AreShards, all_contents};

    ghost Value = { Contents };

    ghost coded = { contents.code (coded_list coded_ℕ) coded_ℤ };

    ghost view = { λ s. all_contents s.shards };

    ghost invariant = { λ s. AreShards s.shards };
}

impl Store {
    /// Returns an empty store. Allocates nothing; later insertions use the allocator.
    pub fn new(alloc: Global) -> Store
        ensures { result ≡ contents.empty }
    {
        Store {
            alloc,
            shards: empty_shards(alloc),
        }
    }

    /// Returns the value under the key. None if the key is absent.
    pub fn get(&self, key: &Key) -> Option<i64>
        ensures { result ≡ contents.get self.now key.now }
    {
        self.shards[shard_of(key)].get(key)
    }

    /// Returns the number of keys.
    pub fn len(&self) -> u128
        ensures { result ≡ contents.len self.now }
    {
        let mut present = 0;
        for shard in &self.shards {
            present += shard.len() as u128;
        }
        present
    }

    /// Puts the value under the key. On `Memory` the key is dropped.
    pub fn put(&mut self, key: Key, value: i64) -> Result<(), Memory>
        ensures ok { OnOk result (self.new ≡ contents.insert self.old key value) }
        ensures err { OnErr result (self.new ≡ self.old) }
    {
        self.shards[shard_of(&key)].insert(key, value)
    }

    /// Puts the value under the key, or removes the key if there is no value.
    pub fn write(&mut self, key: &Key, value: Option<i64>) -> Result<(), Memory>
        ensures ok { OnOk result (self.new ≡ assign self.old key.now value) }
        ensures err { OnErr result (self.new ≡ self.old) }
    {
        self.shards[shard_of(key)].assign(key, value)
    }

    /// Puts the writes of all effects into the shards, in several threads, and returns the store.
    /// After `Memory` the store is dropped.
    // Not inlined, because the caller would clear the stack space of the routes even for few
    // writes.
    #[inline(never)]
    pub(crate) fn put_by_shard<R: Threads + Sync>(
        self,
        rt: &R,
        effects: &[Effect],
    ) -> Result<Store, Memory>
        ensures { IfOk result (λ s. s ≡ apply_writes (flat_map (λ e. e.writes) effects.now) self) }
    {
        let Store { alloc, mut shards } = self;
        let routes = sort_by_shard(alloc, effects)?;
        put_routes(rt, &mut shards, &routes)?;
        Ok(Store { alloc, shards })
    }

    /// Returns a copy of the store. Takes O(n log n) key comparisons for n keys.
    pub fn copy(&self) -> Result<Store, Memory>
        ensures { IfOk result (λ s. s ≡ self.now) }
    {
        let shards = copy_shards(self.alloc, &self.shards)?;
        Ok(Store {
            alloc: self.alloc,
            shards,
        })
    }

    /// Returns the keys with their values, in byte order of the keys.
    pub fn pairs(&self) -> Result<Vec<(&Key, i64)>, Memory>
        ensures { IfOk result (λ v. map (λ p. (p.0.now, p.1)) v.items ≡ contents.entries self.now) }
    {
        let lists = list_shards(self.alloc, &self.shards)?;
        let (pairs, rises) = merge(self.alloc, lists)?;
        sorted_by_key(pairs, rises)
    }

    /// Returns the keys with their values, in byte order of the keys. The plan's workers list
    /// them, each those of one range. No worker is started for fewer keys than a piece of the plan
    /// has.
    pub fn pairs_by<R: Threads + Sync>(
        &self,
        rt: &R,
        plan: Plan,
    ) -> Result<Vec<(&Key, i64)>, Memory>
        ensures { IfOk result (λ v. map (λ p. (p.0.now, p.1)) v.items ≡ contents.entries self.now) }
    {
        let lists = list_shards(self.alloc, &self.shards)?;
        let pieces = self.len() / plan.cut() as u128;
        let threads = pieces.min(plan.workers() as u128) as usize;
        let (pairs, rises) = merge_by_ranges(rt, self.alloc, lists, threads)?;
        sorted_by_key(pairs, rises)
    }
}

/// The pairs of all shards by rising key. `rises` says that they are in this order already.
// The keys may rise although `rises` is false: keys that have one head do not show it.
fn sorted_by_key<'a>(pairs: Pairs<'a>, rises: bool) -> Result<Pairs<'a>, Memory>
    requires { T rises → T (is_sorted key_cmp (map (λ p. (p.0.now, p.1)) pairs.items)) }
    ensures { IfOk result (λ v. (shards : List Contents) → AreShards shards
        → IsPermutation (flat_map contents.entries shards)
        (map (λ p. (p.0.now, p.1)) pairs.entry.items)
        → map (λ p. (p.0.now, p.1)) v.items ≡ contents.entries (all_contents shards)) }
{
    let mut pairs = pairs;
    if !rises {
        pairs.sort()?;
    }
    Ok(pairs)
}
