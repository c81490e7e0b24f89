//! The text of the differences between what a replica says and what its instances give.
ghost use Rattle.std.specs.Prelude.{◌≡◌, ◌++◌, flat_map, map, zip, IfOk, OnOk};
ghost use Rattle.std.specs.FinMap as contents;
ghost use Rattle.epx_types.specs.Keys.{add_keys};
ghost use Rattle.epx_verify.specs.Differences.{reply_difference, keys_of_either};
ghost use Rattle.epx_verify.specs.Differences.{store_differences, differences_text};

use crate::difference_lines::{append_reply_difference, append_value_difference};
use crate::execution::execute_list;
use crate::said::Said;
use epx_committed::Merged;
use epx_txn::Store;
use epx_types::key_set::add_key;
use epx_types::{Id, Key, Memory, Reply};
use std::alloc::Global;
use std::collections::BTreeSet;

/// Appends the lines of the replies that are wrong.
fn append_reply_differences(
    alloc: Global,
    text: &mut Vec<u8>,
    said: &[(Id, Reply)],
    right: &[Reply],
) -> Result<(), Memory>
    ensures { OnOk result (text.new.items
        ≡ text.old.items ++ flat_map reply_difference (zip said.now right.now)) }
{
    for ((id, said), right) in said.iter().zip(right) {
        append_reply_difference(alloc, text, *id, said, right)?;
    }
    Ok(())
}

/// Adds the keys of a store.
fn add_keys_of<'a>(keys: &mut BTreeSet<&'a Key>, store: &'a Store) -> Result<(), Memory>
    ensures { OnOk result (map (λ k. k.now) keys.new.keys
        ≡ add_keys (map (λ k. k.now) keys.old.keys) (contents.keys store.now)) }
{
    for (key, _) in store.pairs()? {
        add_key(keys, key)?;
    }
    Ok(())
}

/// The keys that are present in either store, in rising order.
fn list_keys<'a>(alloc: Global, said: &'a Store, right: &'a Store) -> Result<Vec<&'a Key>, Memory>
    ensures { IfOk result
        (λ keys. map (λ k. k.now) keys.items ≡ keys_of_either said.now right.now) }
{
    let mut keys: BTreeSet<&'a Key> = BTreeSet::new(alloc);
    add_keys_of(&mut keys, said)?;
    add_keys_of(&mut keys, right)?;
    Ok(keys.into_iter().collect(alloc)?)
}

/// Appends the lines of the keys whose values are wrong.
fn append_store_differences(
    alloc: Global,
    text: &mut Vec<u8>,
    said: &Store,
    right: &Store,
) -> Result<(), Memory>
    ensures { OnOk result (text.new.items
        ≡ text.old.items ++ store_differences said.now right.now) }
{
    let keys = list_keys(alloc, said, right)?;
    for key in &keys {
        append_value_difference(alloc, text, said, right, key)?;
    }
    Ok(())
}

/// Executes the instances of a replica's replies in their order, from the empty store. Returns a
/// line for each reply that is wrong, in this order, and then one for each key whose value is
/// wrong, by rising key. Each line has what was said, and then what is right. Takes O(n log n)
/// time, besides looking up the instances.
pub fn differences_text(alloc: Global, merged: &Merged, said: &Said) -> Result<Vec<u8>, Memory>
    ensures { IfOk result (λ text. text.items
        ≡ differences_text merged.now said.now.replies.items said.now.store) }
{
    let ids = said.ids(alloc)?;
    let (store, replies) = execute_list(alloc, merged, &ids)?;
    let mut text = Vec::new(alloc);
    append_reply_differences(alloc, &mut text, &said.replies, &replies)?;
    append_store_differences(alloc, &mut text, &said.store, &store)?;
    Ok(text)
}
