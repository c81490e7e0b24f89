//! Numbers the keys of commands.
ghost use Rattle.std.specs.Prelude.{◌≡◌, flat_map, map, AllPairs, IfOk, OnOk};
ghost use Rattle.epx_types.specs.CommandKeys.{touched_by};
ghost use Rattle.epx_types.specs.Keys.{add_keys, KeyBelow};
ghost use Rattle.epx_neighbours.specs.inner.KeyNumbers.{keys_in, number_of};

use epx_types::key_set::add_key;
use epx_types::{Command, Key, Memory, Op};
use std::alloc::Global;
use std::collections::BTreeSet;

/// Adds the keys that an operation touches: one, or two if it copies.
fn add_operation<'a>(keys: &mut BTreeSet<&'a Key>, op: &'a Op) -> Result<(), Memory>
    ensures { OnOk result
        (map (λ k. k.now) keys.new.keys ≡
        add_keys (map (λ k. k.now) keys.old.keys) (touched_by op.now)) }
{
    let (first, second) = op.accesses();
    add_key(keys, first.key)?;
    match second {
        Some(access) => add_key(keys, access.key),
        None => Ok(()),
    }
}

/// Adds the keys that the operations of a command touch.
fn add_command<'a>(keys: &mut BTreeSet<&'a Key>, ops: &'a [Op]) -> Result<(), Memory>
    ensures { OnOk result
        (map (λ k. k.now) keys.new.keys ≡
        add_keys (map (λ k. k.now) keys.old.keys) (flat_map touched_by ops.now)) }
{
    for op in ops {
        add_operation(keys, op)?;
    }
    Ok(())
}

/// The set of the keys that commands touch. Takes O(n log n) time for n operations.
fn gather_keys<'a>(alloc: Global, commands: &[Command<'a>]) -> Result<BTreeSet<&'a Key>, Memory>
    ensures { IfOk result (λ keys. map (λ k. k.now) keys.keys
        ≡ keys_in (map (λ c. c.ops.now) commands.now)) }
{
    let mut keys: BTreeSet<&'a Key> = BTreeSet::new(alloc);
    for command in commands {
        add_command(&mut keys, command.ops)?;
    }
    Ok(keys)
}

/// The keys that commands touch, rising, each once. The number of a key is its position there.
pub(crate) fn number_keys<'a>(
    alloc: Global,
    commands: &[Command<'a>],
) -> Result<Vec<&'a Key>, Memory>
    ensures { IfOk result (λ keys. map (λ k. k.now) keys.items
        ≡ keys_in (map (λ c. c.ops.now) commands.now)) }
{
    let keys = gather_keys(alloc, commands)?;
    Ok(keys.into_iter().collect(alloc)?)
}

/// The number of a key, by binary search; for an unknown key the number of keys.
pub(crate) fn key_number(keys: &[&Key], key: &Key) -> usize
    requires { AllPairs KeyBelow (map (λ k. k.now) keys.now) }
    ensures { result ≡ number_of (map (λ k. k.now) keys.now) key.now }
{
    match keys.binary_search(&key) {
        Ok(number) => number,
        Err(_) => keys.len(),
    }
}
