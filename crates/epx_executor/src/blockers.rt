//! Which pending instance waits behind which.
ghost use Rattle.std.specs.Prelude.{◌≡◌, ◌↔◌, ◌⊎◌, [], Contains, IsTrue};
ghost use Rattle.std.specs.Prelude.{IfOk, OnOk, OnErr, Some};
ghost use Rattle.std.specs.Option.{MatchOption};
ghost use Rattle.std.specs.BTreeMap.{get};
ghost use Rattle.epx_types.specs.declared.id.Id.{Id};
ghost use Rattle.epx_types.specs.Ids.{id_cmp};
ghost use Rattle.epx_executor.specs.inner.Filings.{AreAppended, AreFilings, AreSeen, IsBehind};
ghost use Rattle.epx_executor.specs.inner.Filings.{IsBlockedBy};
ghost use Rattle.epx_executor.specs.inner.Filings.{IsFiled, IsListed};

use epx_types::{Id, Memory};
use std::alloc::Global;
use std::collections::{BTreeMap, BTreeSet};
use std::marker::Model;

/// Lists an instance under an Id.
fn list_under(
    children: &mut BTreeMap<Id, Vec<Id>>,
    alloc: Global,
    id: Id,
    under: Id,
) -> Result<(), Memory>
    ensures listed { OnOk result (IsListed children.new id under) }
    ensures kept { (x y : Id) → IsListed children.old x y → IsListed children.new x y }
{
    if let Some(list) = children.get_mut(&under) {
        list.push(id)?;
        return Ok(());
    }
    let mut list = Vec::new(alloc);
    list.push(id)?;
    children.insert(under, list)?;
    Ok(())
}

/// Whether an instance is filed under an Id.
fn is_under(parents: &BTreeMap<Id, Id>, id: Id, under: Id) -> bool
    ensures { IsTrue result ↔ (get id_cmp parents.now id ≡ Some under) }
{
    parents.get(&id) == Some(&under)
}

/// Keeps of a list what is still filed under an Id.
fn keep_filed(list: &mut Vec<Id>, parents: &BTreeMap<Id, Id>, under: Id)
    ensures { (x : Id) → Contains list.old.items x → get id_cmp parents.now x ≡ Some under
        → Contains list.new.items x }
{
    list.retain(|id| is_under(parents, *id, under));
}

/// Appends an Id, unless it was seen.
fn push_unseen(seen: &mut BTreeSet<Id>, found: &mut Vec<Id>, id: Id) -> Result<(), Memory>
    requires { AreSeen seen.old found.old.items }
    ensures seen { OnOk result (AreSeen seen.new found.new.items) }
    ensures appended { OnOk result
        (AreAppended (λ x. x ≡ id) found.old.items found.new.items) }
{
    if seen.insert(id)? {
        found.push(id)?;
    }
    Ok(())
}

/// Pending instances that wait, each filed under one Id that it reaches and that is not executed.
/// Contracts see pairs of an instance and that Id.
///
/// Each instance waits behind an Id that is not filed: the last one on its way from Id to Id.
#[derive(Debug)]
pub(crate) struct Blockers {
    /// Each instance with the Id under which it is filed.
    parents: BTreeMap<Id, Id>,
    /// For each Id what is filed under it, maybe with Ids that no longer are.
    children: BTreeMap<Id, Vec<Id>>,
}

impl Drop for Blockers {
    fn drop(self) {
        let Blockers {
            parents: _,
            children: _,
        } = self;
    }
}

impl Model for Blockers {
    ghost use Rattle.std.specs.BTreeMap.{IsOrdered};
    ghost use Rattle.epx_types.specs.Ids.{id_cmp};
    ghost use Rattle.epx_executor.specs.inner.Filings.{AreFilings, AreListedUnder, Filings};

    ghost Value = { Filings };

    ghost view = { λ b. b.parents.entries };

    ghost invariant = { λ b. AreFilings b.parents.entries × IsOrdered id_cmp b.parents
        × AreListedUnder b.parents.entries b.children };
}

impl Blockers {
    /// Files nothing.
    pub(crate) fn new(alloc: Global) -> Blockers
        ensures { result ≡ [] }
    {
        Blockers {
            parents: BTreeMap::new(alloc),
            children: BTreeMap::new(alloc),
        }
    }

    /// Whether something may be filed under this Id. It may be true of one under which nothing is
    /// filed any more.
    pub(crate) fn may_block(&self, id: Id) -> bool
        ensures { ¬ IsTrue result → (x : Id) → ¬ Contains self.now (x, id) }
    {
        self.children.contains_key(&id)
    }

    /// Whether an instance is filed under some Id. Takes logarithmic time.
    pub(crate) fn is_filed(&self, id: Id) -> bool
        ensures { IsTrue result ↔ IsFiled self.now id }
    {
        self.parents.contains_key(&id)
    }

    /// The Id behind which an instance waits at last. Takes logarithmic time for each step of its
    /// way.
    pub(crate) fn blocker(&self, id: Id) -> Option<Id>
        ensures { MatchOption result (¬ IsFiled self.now id) (IsBlockedBy self.now id) }
    {
        let mut under = *self.parents.get(&id)?;
        // No way has more steps, since it does not come to an instance twice.
        for _ in 0..self.parents.len() {
            match self.parents.get(&under) {
                Some(next) => under = *next,
                None => return Some(under),
            }
        }
        None
    }

    /// Files an instance under an Id.
    pub(crate) fn file(&mut self, alloc: Global, id: Id, under: Id) -> Result<(), Memory>
        requires not_filed { ¬ IsFiled self.old id }
        requires free { ¬ IsFiled self.old under }
        requires other { ¬ (id ≡ under) }
        ensures filed { OnOk result ((x y : Id) → Contains self.new (x, y)
            ↔ (Contains self.old (x, y) ⊎ ((x ≡ id) × (y ≡ under)))) }
        ensures unchanged { OnErr result (self.new ≡ self.old) }
    {
        // The list first: a listed Id that is not filed does no harm.
        list_under(&mut self.children, alloc, id, under)?;
        self.parents.insert(id, under)?;
        Ok(())
    }

    /// Appends what is filed under an Id, unless it was seen.
    fn push_filed(
        &self,
        under: Id,
        seen: &mut BTreeSet<Id>,
        found: &mut Vec<Id>,
    ) -> Result<(), Memory>
        requires { AreSeen seen.old found.old.items }
        ensures seen { OnOk result (AreSeen seen.new found.new.items) }
        ensures appended { OnOk result
            (AreAppended (λ x. Contains self.now (x, under)) found.old.items found.new.items) }
    {
        let Some(list) = self.children.get(&under) else {
            return Ok(());
        };
        for id in list {
            if is_under(&self.parents, *id, under) {
                push_unseen(seen, found, *id)?;
            }
        }
        Ok(())
    }

    /// All that waits behind some of these Ids, each once. Takes time n log n in what is listed
    /// under these Ids and under what is found.
    pub(crate) fn behind(&self, alloc: Global, ids: &[Id]) -> Result<Vec<Id>, Memory>
        ensures whole { IfOk result (λ found. (x y : Id)
            → Contains ids.now y → IsBehind self.now x y → Contains found.items x) }
        ensures only { IfOk result
            (λ found. (x : Id) → Contains found.items x → IsFiled self.now x) }
        ensures filings { OnOk result (AreFilings self.now) }
    {
        // A use of a field, from which the proof knows the invariant.
        let _ = &self.parents;
        let mut seen = BTreeSet::new(alloc);
        let mut found = Vec::new(alloc);
        for id in ids {
            self.push_filed(*id, &mut seen, &mut found)?;
        }
        let mut next = 0;
        while next < found.len() {
            let id = found[next];
            self.push_filed(id, &mut seen, &mut found)?;
            next += 1;
        }
        Ok(found)
    }

    /// Takes an instance out. What is filed under it stays.
    pub(crate) fn remove(&mut self, id: Id)
        ensures { (x y : Id) → Contains self.new (x, y)
            ↔ (Contains self.old (x, y) × ¬ (x ≡ id)) }
    {
        let _ = self.parents.remove(&id);
    }

    /// Forgets what is no longer filed under an Id, so that memory does not grow. Takes time
    /// n log n in what is listed under it.
    pub(crate) fn forget_old(&mut self, id: Id)
        ensures { self.new ≡ self.old }
    {
        let Some(list) = self.children.get_mut(&id) else {
            return;
        };
        keep_filed(list, &self.parents, id);
        if list.is_empty() {
            let _ = self.children.remove(&id);
        }
    }
}
