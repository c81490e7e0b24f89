//! The keys of commands, and whether two commands conflict.
ghost use Rattle.std.specs.Prelude.{◌≡◌, ◌↔◌, ℕ, List, map, Contains, IsTrue, IfOk};
ghost use Rattle.epx_types.specs.CommandKeys.{touched_keys, written_keys};
ghost use Rattle.epx_audit.specs.inner.NodeConflicts.{keys_of, KeysConflict};

use epx_committed::Merged;
use epx_types::{Key, Memory, Op, touched, written};
use std::alloc::Global;
use std::marker::Model;

/// The keys that a command touches, and those that it writes.
#[derive(Debug, Drop)]
pub(crate) struct CommandKeys<'a> {
    touched: Vec<&'a Key>,
    written: Vec<&'a Key>,
}

impl<'a> Model for CommandKeys<'a> {
    ghost use Rattle.std.specs.Prelude.{map};
    ghost use Rattle.epx_audit.specs.inner.NodeConflicts.{KeyLists};

    ghost Value = { KeyLists };

    ghost view = { λ c. record {
      touched = map (λ k. k.now) c.touched.items;
      written = map (λ k. k.now) c.written.items;
    } };
}

impl<'a> CommandKeys<'a> {
    /// The keys of the command with these operations, also if it aborts.
    fn of(alloc: Global, ops: &'a [Op]) -> Result<CommandKeys<'a>, Memory>
        ensures { IfOk result
            (λ keys. keys ≡ record {
              touched = touched_keys ops.now;
              written = written_keys ops.now;
            }) }
    {
        let touched = touched(alloc, ops)?;
        let written = written(alloc, ops)?;
        Ok(CommandKeys { touched, written })
    }

    /// Whether one of two commands writes a key that the other touches.
    pub(crate) fn conflict(&self, other: &CommandKeys<'a>) -> bool
        ensures { IsTrue result ↔ KeysConflict self.now other.now }
    {
        have_common_key(&self.written, &other.touched)
            || have_common_key(&self.touched, &other.written)
    }
}

/// The keys of each command of a map.
pub(crate) fn all_keys<'a>(
    alloc: Global,
    merged: &'a Merged,
) -> Result<Vec<CommandKeys<'a>>, Memory>
    ensures { IfOk result (λ keys. keys.items ≡ map keys_of merged.now) }
{
    let mut keys = Vec::with_capacity(alloc, merged.len())?;
    for position in 0..merged.len() {
        keys.push(CommandKeys::of(alloc, merged.entry_at(position).ops())?)?;
    }
    Ok(keys)
}

/// Whether two lists have a key in common.
fn have_common_key(keys: &[&Key], others: &[&Key]) -> bool
    ensures { IsTrue result
        ↔ ((k : List ℕ) × Contains (map (λ k. k.now) keys.now) k
        × Contains (map (λ k. k.now) others.now) k) }
{
    for key in keys {
        if has_key(others, key) {
            return true;
        }
    }
    false
}

/// Whether a key is in a list. Takes linear time.
fn has_key(keys: &[&Key], key: &Key) -> bool
    ensures { IsTrue result ↔ Contains (map (λ k. k.now) keys.now) key.now }
{
    for other in keys {
        if *other == key {
            return true;
        }
    }
    false
}
