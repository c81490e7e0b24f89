//! The keys that operations touch and write, by the text of the operations.
ghost use Rattle.std.specs.Prelude.{◌≡◌, ◌∷◌, [], if◌then◌else◌, IfOk, OnOk, map};
ghost use Rattle.std.specs.BTreeSet.{insert_key};
ghost use Rattle.epx_types.specs.Keys.{key_cmp, add_keys};
ghost use Rattle.epx_types.specs.CommandKeys.{touched_by, written_by, touched_keys, written_keys};

use crate::key::Key;
use crate::memory::Memory;
use crate::op::{Access, Op};
use std::alloc::Global;
use std::collections::BTreeSet;

/// Adds a key, unless the set has it already.
fn add<'a>(keys: &mut BTreeSet<&'a Key>, key: &'a Key) -> Result<(), Memory>
    ensures { OnOk result
        (map (λ k. k.now) keys.new.keys ≡
        insert_key key_cmp (map (λ k. k.now) keys.old.keys) key.now) }
{
    keys.insert(key)?;
    Ok(())
}

/// Adds the keys that an operation touches.
fn add_touched<'a>(keys: &mut BTreeSet<&'a Key>, op: &'a Op) -> Result<(), Memory>
    ensures { OnOk result
        (map (λ k. k.now) keys.new.keys ≡
        add_keys (map (λ k. k.now) keys.old.keys) (touched_by op.now)) }
{
    let (first, second) = op.accesses();
    add(keys, first.key)?;
    match second {
        Some(access) => add(keys, access.key),
        None => Ok(()),
    }
}

/// Adds the key of an access if the access writes it.
fn add_if_written<'a>(keys: &mut BTreeSet<&'a Key>, access: Access<'a>) -> Result<(), Memory>
    ensures { OnOk result
        (map (λ k. k.now) keys.new.keys ≡
        add_keys (map (λ k. k.now) keys.old.keys)
        (if access.entry.writes then access.entry.key.now ∷ [] else [])) }
{
    if access.writes {
        add(keys, access.key)?;
    }
    Ok(())
}

/// Adds the key that an operation writes, if it writes one.
fn add_written<'a>(keys: &mut BTreeSet<&'a Key>, op: &'a Op) -> Result<(), Memory>
    ensures { OnOk result
        (map (λ k. k.now) keys.new.keys ≡
        add_keys (map (λ k. k.now) keys.old.keys) (written_by op.now)) }
{
    let (first, second) = op.accesses();
    add_if_written(keys, first)?;
    match second {
        Some(access) => add_if_written(keys, access),
        None => Ok(()),
    }
}

/// Returns the keys that the operations touch, rising, each once.
pub fn touched<'a>(alloc: Global, ops: &'a [Op]) -> Result<Vec<&'a Key>, Memory>
    ensures { IfOk result (λ v. map (λ k. k.now) v.items ≡ touched_keys ops.now) }
{
    let mut keys: BTreeSet<&'a Key> = BTreeSet::new(alloc);
    for op in ops {
        add_touched(&mut keys, op)?;
    }
    Ok(keys.into_iter().collect(alloc)?)
}

/// Returns the keys that the operations write, rising, each once.
pub fn written<'a>(alloc: Global, ops: &'a [Op]) -> Result<Vec<&'a Key>, Memory>
    ensures { IfOk result (λ v. map (λ k. k.now) v.items ≡ written_keys ops.now) }
{
    let mut keys: BTreeSet<&'a Key> = BTreeSet::new(alloc);
    for op in ops {
        add_written(&mut keys, op)?;
    }
    Ok(keys.into_iter().collect(alloc)?)
}
