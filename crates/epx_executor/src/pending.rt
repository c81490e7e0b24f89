//! The pending instances.
ghost use Rattle.std.specs.Prelude.{◌≡◌, ◌≢◌, ◌⊎◌, ◌↔◌, [], length, map, Contains, MatchOption};
ghost use Rattle.std.specs.Prelude.{IfOk, IfSome, OnOk, OnErr};
ghost use Rattle.epx_types.specs.CommittedMap.{ids_of};
ghost use Rattle.epx_types.specs.Ids.{IsRising};
ghost use Rattle.epx_types.specs.Instances.{Instance};

use crate::call_lines::is_left;
use crate::done_runs::DoneRuns;
use epx_types::{Entry, Id, Memory};
use std::alloc::Global;
use std::collections::BTreeMap;
use std::marker::Model;

/// Committed instances that wait, by rising Id.
#[derive(Debug, Drop)]
pub(crate) struct Pending {
    entries: BTreeMap<Id, Entry>,
}

impl Model for Pending {
    ghost use Rattle.std.specs.Prelude.{◌≡◌, List, map};
    ghost use Rattle.epx_types.specs.CommittedMap.{ids_of};
    ghost use Rattle.epx_types.specs.Ids.{IsRising};
    ghost use Rattle.epx_types.specs.Instances.{Instance};

    ghost Value = { List Instance };

    ghost view = { λ p. map (λ e. e.1) p.entries.entries };

    ghost invariant = { λ p.
        (map (λ e. e.0) p.entries.entries ≡ ids_of (map (λ e. e.1) p.entries.entries))
        × IsRising (map (λ e. e.0) p.entries.entries) };
}

impl Pending {
    /// No instance waits.
    pub(crate) fn new(alloc: Global) -> Pending
        ensures { result ≡ [] }
    {
        Pending {
            entries: BTreeMap::new(alloc),
        }
    }

    /// How many wait.
    pub(crate) fn len(&self) -> usize
        ensures len { result ≡ length self.now }
        ensures rising { IsRising (ids_of self.now) }
    {
        self.entries.len()
    }

    /// The instance with this Id. None if it does not wait. Takes logarithmic time.
    pub(crate) fn get(&self, id: Id) -> Option<&Entry>
        ensures found { MatchOption result (¬ Contains (ids_of self.now) id)
            (λ e. Contains self.now e.now × (e.now.id ≡ id)) }
        ensures only { IfSome result
            (λ e. (p : Instance) → Contains self.now p → p.id ≡ id → p ≡ e.now) }
    {
        self.entries.get(&id)
    }

    /// All of them, by rising Id.
    pub(crate) fn entries(&self, alloc: Global) -> Result<Vec<&Entry>, Memory>
        ensures { IfOk result (λ entries. map (λ e. e.now) entries.items ≡ self.now) }
    {
        let mut entries = Vec::with_capacity(alloc, self.len())?;
        for entry in self.entries.values() {
            entries.push(entry)?;
        }
        Ok(entries)
    }

    /// Adds one that does not wait yet. Takes logarithmic time.
    pub(crate) fn insert(&mut self, entry: Entry) -> Result<(), Memory>
        requires { ¬ Contains (ids_of self.old) entry.id }
        ensures inserted { OnOk result ((e : Instance) → Contains self.new e
            ↔ (Contains self.old e ⊎ (e ≡ entry))) }
        ensures unchanged { OnErr result (self.new ≡ self.old) }
    {
        self.entries.insert(entry.id(), entry)?;
        Ok(())
    }

    /// Takes one out, if it waits. Takes logarithmic time.
    pub(crate) fn remove(&mut self, id: Id)
        ensures left { (e : Instance) → Contains self.new e ↔ (Contains self.old e × (e.id ≢ id)) }
        ensures rising { IsRising (ids_of self.new) }
    {
        self.entries.remove(&id);
    }

    /// Those of these Ids that wait.
    pub(crate) fn some_entries(&self, alloc: Global, ids: &[Id]) -> Result<Vec<&Entry>, Memory>
        ensures within { IfOk result
            (λ found. (e : Instance) → Contains (map (λ e. e.now) found.items) e
            → Contains self.now e) }
        ensures whole { IfOk result (λ found. (e : Instance) → Contains self.now e
            → Contains ids.now e.id → Contains (map (λ e. e.now) found.items) e) }
    {
        let mut found = Vec::with_capacity(alloc, ids.len())?;
        for id in ids {
            if let Some(entry) = self.get(*id) {
                found.push(entry)?;
            }
        }
        Ok(found)
    }

    /// Takes out those of these Ids that wait.
    fn remove_all(&mut self, ids: &[Id])
        ensures left { (e : Instance) → Contains self.new e
            ↔ (Contains self.old e × (¬ Contains ids.now e.id)) }
        ensures rising { IsRising (ids_of self.new) }
    {
        // The proof needs the invariant.
        let _ = &self.entries;
        for id in ids {
            self.remove(*id);
        }
    }

    /// Inserts copies of the entries that are not done and do not wait yet, and notes their Ids.
    fn insert_left(
        &mut self,
        alloc: Global,
        done: &DoneRuns,
        entries: &[Entry],
        inserted: &mut Vec<Id>,
    ) -> Result<(), Memory>
        requires rising { IsRising (ids_of entries.now) }
        requires alike { (p e : Instance) → Contains self.old p → Contains entries.now e
            → p.id ≡ e.id → p ≡ e }
        requires none { inserted.old.items ≡ [] }
        ensures left { OnOk result ((e : Instance) → Contains self.new e
            ↔ (Contains self.old e
            ⊎ (Contains entries.now e × (¬ Contains done.now e.id)))) }
        ensures noted { (e : Instance) → Contains self.old e
            ↔ (Contains self.new e × (¬ Contains inserted.new.items e.id)) }
    {
        for entry in entries {
            if is_left(done, entry.id()) && self.get(entry.id()).is_none() {
                inserted.push(entry.id())?;
                self.insert(entry.copy(alloc)?)?;
            }
        }
        Ok(())
    }

    /// Keeps what is left after a call: takes in copies of the entries that are not done, and takes
    /// out what was executed. On an error nothing changes.
    pub(crate) fn update(
        &mut self,
        alloc: Global,
        done: &DoneRuns,
        entries: &[Entry],
        executed: &[Id],
    ) -> Result<(), Memory>
        requires rising { IsRising (ids_of entries.now) }
        requires alike { (p e : Instance) → Contains self.old p → Contains entries.now e
            → p.id ≡ e.id → p ≡ e }
        ensures left { OnOk result ((e : Instance) → Contains self.new e
            ↔ ((Contains self.old e
            ⊎ (Contains entries.now e × (¬ Contains done.now e.id)))
            × (¬ Contains executed.now e.id))) }
        ensures unchanged { OnErr result (self.new ≡ self.old) }
        ensures rising { IsRising (ids_of self.new) }
    {
        // The proof needs the invariant.
        let _ = &self.entries;
        let mut inserted = Vec::new(alloc);
        if let Err(memory) = self.insert_left(alloc, done, entries, &mut inserted) {
            self.remove_all(&inserted);
            return Err(memory);
        }
        self.remove_all(executed);
        Ok(())
    }
}
