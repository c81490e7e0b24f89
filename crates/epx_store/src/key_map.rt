//! A map from keys to values.
ghost use Rattle.std.specs.Prelude.{◌≡◌, IfOk, OnOk, OnErr, map};
ghost use Rattle.std.specs.FinMap as contents;
ghost use Rattle.epx_types.specs.Keys.{key_cmp};
ghost use Rattle.epx_types.specs.Contents.{assign};
ghost use Rattle.epx_types.specs.Writes.{apply_writes};

use crate::store::Store;
use epx_types::key::MAX_SHORT_KEY_BYTES;
use epx_types::{Key, Memory};
use std::alloc::Global;
use std::collections::BTreeMap;
use std::marker::Model;

/// A map from keys to values, in the order of the keys. Contracts see it as one finite map.
#[derive(Debug, Drop)]
pub struct KeyMap<V> {
    alloc: Global,
    map: BTreeMap<Key, V>,
}

impl<V> Model for KeyMap<V> {
    ghost use Rattle.std.specs.FinMap as contents;
    ghost use Rattle.std.specs.Coded.{coded_list, coded_ℕ};
    ghost use Rattle.epx_types.specs.Keys.{key_cmp};

    ghost Value = { contents.FinMap key_cmp V };

    ghost coded = { contents.code (coded_list coded_ℕ) V.code };

    ghost view = { λ m. contents.from_entries m.map.entries };
}

impl<V: Copy> KeyMap<V> {
    /// Returns a map without keys. Allocates nothing.
    pub(crate) fn new(alloc: Global) -> KeyMap<V>
        ensures { result ≡ contents.empty }
    {
        KeyMap {
            alloc,
            map: BTreeMap::new(alloc),
        }
    }

    /// Returns the value under the key. None if the key is absent.
    pub fn get(&self, key: &Key) -> Option<V>
        ensures { result ≡ contents.get self.now key.now }
    {
        self.map.get(key).copied()
    }

    /// Returns the number of keys.
    pub(crate) fn len(&self) -> usize
        ensures { result ≡ contents.len self.now }
    {
        self.map.len()
    }

    /// Puts the value under the key. On `Memory` the key is dropped.
    pub(crate) fn insert(&mut self, key: Key, value: V) -> Result<(), Memory>
        ensures ok { OnOk result (self.new ≡ contents.insert self.old key value) }
        ensures err { OnErr result (self.new ≡ self.old) }
    {
        self.map.insert(key, value)?;
        Ok(())
    }

    /// Puts the value under a borrowed key. A long key is copied only if it is new. To copy a
    /// short one takes less time than to look for it first.
    pub fn set(&mut self, key: &Key, value: V) -> Result<(), Memory>
        ensures ok { OnOk result (self.new ≡ contents.insert self.old key.now value) }
        ensures err { OnErr result (self.new ≡ self.old) }
    {
        if key.text().len() > MAX_SHORT_KEY_BYTES {
            return self.set_long(key, value);
        }
        self.insert(key.copy()?, value)
    }

    /// Puts the value under a borrowed key whose copy is allocated, and copies it only if it is
    /// new.
    fn set_long(&mut self, key: &Key, value: V) -> Result<(), Memory>
        ensures ok { OnOk result (self.new ≡ contents.insert self.old key.now value) }
        ensures err { OnErr result (self.new ≡ self.old) }
    {
        if let Some(held) = self.map.get_mut(key) {
            *held = value;
            return Ok(());
        }
        self.insert(key.copy()?, value)
    }

    /// Removes the key, if it is there.
    pub(crate) fn remove(&mut self, key: &Key)
        ensures { self.new ≡ contents.remove self.old key.now }
    {
        let _ = self.map.remove(key);
    }

    /// Returns a map with copies of the keys. Takes O(n log n) key comparisons for n keys.
    pub(crate) fn copy(&self) -> Result<KeyMap<V>, Memory>
        ensures { IfOk result (λ m. m ≡ self.now) }
    {
        let mut made = KeyMap::new(self.alloc);
        for (key, value) in &self.map {
            made.insert(key.copy()?, *value)?;
        }
        Ok(made)
    }

    /// Returns borrowed keys with their values, by rising key.
    pub(crate) fn list(&self) -> Result<Vec<(&Key, V)>, Memory>
        ensures { IfOk result (λ v. map (λ p. (p.0.now, p.1)) v.items ≡ contents.entries self.now) }
    {
        let mut pairs = Vec::with_capacity(self.alloc, self.map.len())?;
        for (key, value) in &self.map {
            pairs.push((key, *value))?;
        }
        Ok(pairs)
    }

    /// Returns the keys with their values, by rising key.
    pub fn into_pairs(self) -> Result<Vec<(Key, V)>, Memory>
        ensures { IfOk result (λ v. v.items ≡ contents.entries self) }
    {
        let KeyMap { alloc, map } = self;
        let mut pairs = Vec::new(alloc);
        for (key, value) in map {
            pairs.push((key, value))?;
        }
        Ok(pairs)
    }
}

impl KeyMap<i64> {
    /// Puts the value under the key, or removes the key if there is no value.
    pub(crate) fn assign(&mut self, key: &Key, value: Option<i64>) -> Result<(), Memory>
        ensures ok { OnOk result (self.new ≡ assign self.old key.now value) }
        ensures err { OnErr result (self.new ≡ self.old) }
    {
        match value {
            Some(value) => self.set(key, value)?,
            None => self.remove(key),
        }
        Ok(())
    }
}

impl KeyMap<Option<i64>> {
    /// Puts written values into a store, where None removes the key.
    pub fn put_into(&self, store: &mut Store) -> Result<(), Memory>
        ensures { OnOk result (store.new ≡ apply_writes (contents.entries self.now) store.old) }
    {
        for (key, value) in &self.map {
            store.write(key, *value)?;
        }
        Ok(())
    }
}
