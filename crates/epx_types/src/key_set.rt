//! Sets of borrowed keys.
ghost use Rattle.std.specs.Prelude.{◌≡◌, map, OnOk};
ghost use Rattle.std.specs.BTreeSet.{insert_key};
ghost use Rattle.epx_types.specs.Keys.{key_cmp};

use crate::key::Key;
use crate::memory::Memory;
use std::collections::BTreeSet;

/// Adds a key to the set, in logarithmic time. One that is there already changes nothing.
pub fn add_key<'a>(keys: &mut BTreeSet<&'a Key>, key: &'a Key) -> Result<(), Memory>
    ensures { OnOk result (map (λ k. k.now) keys.new.keys
        ≡ insert_key key_cmp (map (λ k. k.now) keys.old.keys) key.now) }
{
    keys.insert(key)?;
    Ok(())
}
