//! The writes of a command that writes few keys.
ghost use Rattle.std.specs.Prelude.{◌≡◌, ◌≤◌, T, false, IfOk, OnOk, MatchResult, if◌then◌else◌};
ghost use Rattle.std.specs.Prelude.{map};
ghost use Rattle.std.specs.FinMap as contents;
ghost use Rattle.std.specs.FinMap.{is_sorted};
ghost use Rattle.epx_types.specs.Keys.{key_cmp};
ghost use Rattle.epx_types.specs.Writes.{apply_writes};
ghost use Rattle.epx_store.specs.inner.KeySlots.{IsAtSlot, IsInsertedAt};

use crate::key_map::KeyMap;
use crate::store::Store;
use epx_types::{Key, Memory};
use std::alloc::Global;
use std::cmp::Ordering;
use std::marker::Model;

/// The most keys for which a linear search is fast enough.
const LINEAR_LIMIT: usize = 16;

/// Under each of a few borrowed keys a value, or None for absence, by rising key. Contracts see it
/// as one finite map.
#[derive(Drop)]
pub struct FewWrites<'a> {
    items: Vec<(&'a Key, Option<i64>)>,
}

impl<'a> Model for FewWrites<'a> {
    ghost use Rattle.std.specs.Prelude.{ℤ, T, Option, map};
    ghost use Rattle.std.specs.FinMap as contents;
    ghost use Rattle.std.specs.FinMap.{is_sorted};
    ghost use Rattle.std.specs.Coded.{coded_list, coded_ℕ, coded_ℤ, coded_option};
    ghost use Rattle.epx_types.specs.Keys.{key_cmp};

    ghost Value = { contents.FinMap key_cmp (Option ℤ) };

    ghost coded = { contents.code (coded_list coded_ℕ) (coded_option coded_ℤ) };

    ghost view = { λ w. contents.from_entries (map (λ p. (p.0.now, p.1)) w.items.items) };

    ghost invariant = { λ w. T (is_sorted key_cmp (map (λ p. (p.0.now, p.1)) w.items.items)) };
}

/// Returns the slot of the key, or as the error the slot at which to insert it.
fn slot_of(writes: &[(&Key, Option<i64>)], key: &Key) -> Result<usize, usize>
    requires { T (is_sorted key_cmp (map (λ p. (p.0.now, p.1)) writes.now)) }
    ensures { MatchResult result
        (IsAtSlot (map (λ p. (p.0.now, p.1)) writes.now) key.now)
        (IsInsertedAt (map (λ p. (p.0.now, p.1)) writes.now) key.now) }
{
    for (index, write) in writes.iter().enumerate() {
        match key.cmp(write.0) {
            Ordering::Less => return Err(index),
            Ordering::Equal => return Ok(index),
            Ordering::Greater => {}
        }
    }
    Err(writes.len())
}

impl<'a> FewWrites<'a> {
    /// Returns no writes. Allocates nothing.
    pub fn new(alloc: Global) -> FewWrites<'a>
        ensures { result ≡ contents.empty }
    {
        FewWrites {
            items: Vec::new(alloc),
        }
    }

    /// Returns what is written under the key: `Some(None)` if the key is removed, None if it is
    /// not written.
    pub fn get(&self, key: &Key) -> Option<Option<i64>>
        ensures { result ≡ contents.get self.now key.now }
    {
        match slot_of(self.items.as_slice(), key) {
            Ok(index) => Some(self.items[index].1),
            Err(_) => None,
        }
    }

    /// Puts a value under a key. False if the key is new and there is no room for it.
    pub fn set(&mut self, key: &'a Key, value: Option<i64>) -> Result<bool, Memory>
        ensures after { IfOk result
            (λ had_room. self.new ≡
            (if had_room then contents.insert self.old key.now value else self.old)) }
        ensures room { IfOk result (λ had_room. had_room ≡ false → 16 ≤ contents.len self.old) }
    {
        match slot_of(self.items.as_slice(), key) {
            Ok(index) => self.items[index] = (key, value),
            Err(index) => {
                if self.items.len() >= LINEAR_LIMIT {
                    return Ok(false);
                }
                self.items.insert(index, (key, value))?;
            }
        }
        Ok(true)
    }

    /// Copies the writes into a tree.
    pub fn tree(&self, alloc: Global) -> Result<KeyMap<Option<i64>>, Memory>
        ensures { IfOk result (λ m. m ≡ self.now) }
    {
        let mut tree = KeyMap::new(alloc);
        for (key, value) in &self.items {
            tree.insert(key.copy()?, *value)?;
        }
        Ok(tree)
    }

    /// Puts all writes into a store.
    pub fn put_into(&self, store: &mut Store) -> Result<(), Memory>
        ensures { OnOk result (store.new ≡ apply_writes (contents.entries self.now) store.old) }
    {
        for (key, value) in &self.items {
            store.write(key, *value)?;
        }
        Ok(())
    }

    /// Returns copies of the keys with their values, by rising key.
    pub fn pairs(&self, alloc: Global) -> Result<Vec<(Key, Option<i64>)>, Memory>
        ensures { IfOk result (λ v. v.items ≡ contents.entries self.now) }
    {
        let mut pairs = Vec::with_capacity(alloc, self.items.len())?;
        for (key, value) in &self.items {
            pairs.push((key.copy()?, *value))?;
        }
        Ok(pairs)
    }
}
