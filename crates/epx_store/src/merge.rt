//! Puts the writes of several commands into a store.
ghost use Rattle.std.specs.Prelude.{◌≡◌, IfOk, OnOk, flat_map};
ghost use Rattle.epx_types.specs.Writes.{apply_writes, HasDistinctKeys};

use crate::effect::{Effect, Writes};
use crate::store::Store;
use epx_types::Memory;
use std::alloc::Global;
use std::thread::Threads;

/// With fewer writes than this, one thread puts them in: starting and joining threads would take
/// as long.
const PARALLEL_MIN: usize = 4_096;

/// Returns whether the effects have fewer than `PARALLEL_MIN` writes. Stops counting there.
fn has_few_writes(effects: &[Effect]) -> bool {
    let mut count = 0usize;
    for effect in effects {
        count = count.saturating_add(effect.writes.as_slice().len());
        if count >= PARALLEL_MIN {
            return false;
        }
    }
    true
}

/// Puts the writes of one command into the store, one after another.
fn put_writes(store: &mut Store, writes: &Writes) -> Result<(), Memory>
    ensures { OnOk result (store.new ≡ apply_writes writes.now store.old) }
{
    for (key, value) in writes.as_slice() {
        store.write(key, *value)?;
    }
    Ok(())
}

/// Puts the writes of all commands into the store, one after another.
fn put_effects(store: &mut Store, effects: &[Effect]) -> Result<(), Memory>
    ensures { OnOk result
        (store.new ≡ apply_writes (flat_map (λ e. e.writes) effects.now) store.old) }
{
    for effect in effects {
        put_writes(store, &effect.writes)?;
    }
    Ok(())
}

/// Puts the writes of all effects into the store, and returns it. After `Memory` the store is
/// dropped.
pub fn merge_effects<R: Threads + Sync>(
    rt: &R,
    _alloc: Global,
    store: Store,
    effects: &[Effect],
) -> Result<Store, Memory>
    requires { HasDistinctKeys (flat_map (λ e. e.writes) effects.now) }
    ensures { IfOk result (λ s. s ≡ apply_writes (flat_map (λ e. e.writes) effects.now) store) }
{
    if !has_few_writes(effects) {
        return store.put_by_shard(rt, effects);
    }
    let mut store = store;
    put_effects(&mut store, effects)?;
    Ok(store)
}
