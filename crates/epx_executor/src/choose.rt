//! The pending instances that may be ready now.
ghost use Rattle.std.specs.Prelude.{◌≡◌, ◌⊎◌, ◌↔◌, [], map, Contains, IfOk, IfSome, OnOk, IsTrue};
ghost use Rattle.std.specs.Prelude.{Some};
ghost use Rattle.epx_types.specs.declared.id.Id.{Id};
ghost use Rattle.epx_types.specs.CommittedMap.{ids_of};
ghost use Rattle.epx_types.specs.Done.{remaining};
ghost use Rattle.epx_types.specs.Ids.{IsRising};
ghost use Rattle.epx_types.specs.Instances.{Instance};
ghost use Rattle.epx_executor.specs.inner.Choices.{AgreesWith, AreFiledIn, IsChoice};
ghost use Rattle.epx_executor.specs.inner.Choices.{IsNeededBy, IsPart, IsSortedOut, NeedsMissing};
ghost use Rattle.epx_executor.specs.inner.Filings.{Filings};

use crate::blockers::Blockers;
use crate::call_lines::is_left;
use crate::done_runs::DoneRuns;
use crate::pending::Pending;
use epx_committed::MAX_INSTANCES;
use epx_committed::same_entry::same_entry;
use epx_types::id_list::{find_id, sort_unique};
use epx_types::{Entry, Id, Memory};
use std::alloc::Global;

/// Whether no pending instance differs from one that came. Done ones do not matter.
fn agrees(done: &DoneRuns, pending: &Pending, entry: &Entry) -> bool
    ensures { IsTrue result → AgreesWith done.now pending.now entry.now }
{
    if !is_left(done, entry.id()) {
        return true;
    }
    match pending.get(entry.id()) {
        Some(other) => same_entry(other, entry),
        None => true,
    }
}

/// Whether no pending instance differs from any that came.
fn agree(done: &DoneRuns, pending: &Pending, came: &[Entry]) -> bool
    ensures { IsTrue result → (e : Instance) → Contains came.now e
        → AgreesWith done.now pending.now e }
{
    for entry in came {
        if !agrees(done, pending, entry) {
            return false;
        }
    }
    true
}

/// The Ids of instances, by rising Id.
fn sorted_ids(alloc: Global, entries: &[Entry]) -> Result<Vec<Id>, Memory>
    ensures rising { IfOk result (λ ids. IsRising ids.items) }
    ensures exact { IfOk result
        (λ ids. (x : Id) → Contains ids.items x ↔ Contains (ids_of entries.now) x) }
{
    let mut ids = Vec::with_capacity(alloc, entries.len())?;
    for entry in entries {
        ids.push(entry.id())?;
    }
    sort_unique(alloc, &ids)
}

/// The missing instance that a dependency is, or behind which it waits.
fn missing_behind(
    done: &DoneRuns,
    pending: &Pending,
    blockers: &Blockers,
    came: &[Id],
    dep: Id,
) -> Option<Id>
    requires { IsRising came.now }
    ensures { IfSome result (IsNeededBy done.now pending.now came.now blockers.now dep) }
{
    let last = blockers.blocker(dep).unwrap_or(dep);
    if !is_left(done, dep) || !is_left(done, last) {
        return None;
    }
    if pending.get(last).is_some() || find_id(came, last).is_some() {
        return None;
    }
    Some(last)
}

/// A missing instance that one that came needs, if it is seen at once.
fn missing_need(
    done: &DoneRuns,
    pending: &Pending,
    blockers: &Blockers,
    came: &[Id],
    entry: &Entry,
) -> Option<Id>
    requires { IsRising came.now }
    ensures { IfSome result (NeedsMissing done.now pending.now came.now blockers.now entry.now) }
{
    for dep in entry.deps() {
        let missing = missing_behind(done, pending, blockers, came, *dep);
        if missing.is_some() {
            return missing;
        }
    }
    None
}

/// What a call looks at besides what came.
pub(crate) struct Choice {
    /// The pending instances that may be ready now.
    pub(crate) ids: Vec<Id>,
    /// Instances that came. The others are behind them.
    pub(crate) roots: Vec<Id>,
    /// Instances that came and are blocked themselves, each with a missing one that it reaches.
    pub(crate) blocked: Vec<(Id, Id)>,
}

impl Drop for Choice {
    fn drop(self) {
        let Choice {
            ids: _,
            roots: _,
            blocked: _,
        } = self;
    }
}

impl Choice {
    /// The choice of nothing.
    fn new(alloc: Global) -> Choice
        ensures { (result.ids.items ≡ []) × (result.roots.items ≡ [])
            × (result.blocked.items ≡ []) }
    {
        Choice {
            ids: Vec::new(alloc),
            roots: Vec::new(alloc),
            blocked: Vec::new(alloc),
        }
    }

    /// Notes whether what is behind an instance that came must be looked at. It need not be if
    /// that one is seen to be blocked itself.
    fn sort_out(
        &mut self,
        done: &DoneRuns,
        pending: &Pending,
        blockers: &Blockers,
        came: &[Id],
        entry: &Entry,
    ) -> Result<(), Memory>
        requires { IsRising came.now }
        ensures roots { OnOk result ((x : Id) → Contains self.old.roots.items x
            → Contains self.new.roots.items x) }
        ensures blocked { OnOk result ((x z : Id) → Contains self.old.blocked.items (x, z)
            → Contains self.new.blocked.items (x, z)) }
        ensures only { OnOk result ((x z : Id) → Contains self.new.blocked.items (x, z)
            → Contains self.old.blocked.items (x, z) ⊎ ((entry.now.id ≡ x)
            × (¬ Contains done.now x)
            × NeedsMissing done.now pending.now came.now blockers.now entry.now z)) }
        ensures sorted { OnOk result (IsSortedOut done.now blockers.now self.new.roots.items
            self.new.blocked.items entry.now) }
    {
        let id = entry.id();
        if !is_left(done, id) || !blockers.may_block(id) {
            return Ok(());
        }
        match missing_need(done, pending, blockers, came, entry) {
            Some(missing) => self.blocked.push((id, missing))?,
            None => self.roots.push(id)?,
        }
        Ok(())
    }
}

/// The pending instances that may be ready now. None if all have to be looked at.
fn choose_some(
    alloc: Global,
    done: &DoneRuns,
    pending: &Pending,
    blockers: &Blockers,
    came: &[Entry],
) -> Result<Option<Choice>, Memory>
    requires filed { AreFiledIn (remaining done.now pending.now) blockers.now }
    requires left { (e : Instance) → Contains pending.now e → ¬ Contains done.now e.id }
    ensures { IfOk result (λ choice. IfSome choice (λ c. IsChoice done.now pending.now came.now
        blockers.now c.ids.items c.blocked.items)) }
{
    let count = pending.len().saturating_add(came.len());
    if count > MAX_INSTANCES || !agree(done, pending, came) {
        return Ok(None);
    }
    let ids = sorted_ids(alloc, came)?;
    let mut choice = Choice::new(alloc);
    for entry in came {
        choice.sort_out(done, pending, blockers, &ids, entry)?;
    }
    choice.ids = blockers.behind(alloc, &choice.roots)?;
    Ok(Some(choice))
}

/// The pending instances that may be ready now. None if all have to be looked at, or none waits.
pub(crate) fn choose(
    alloc: Global,
    done: &DoneRuns,
    pending: &Pending,
    blockers: &Option<Blockers>,
    came: &[Entry],
) -> Result<Option<Choice>, Memory>
    requires filed { IfSome blockers.now
        (λ filings. AreFiledIn (remaining done.now pending.now) filings) }
    requires left { (e : Instance) → Contains pending.now e → ¬ Contains done.now e.id }
    ensures { IfOk result (λ choice. IfSome choice (λ c. (filings : Filings)
        × (blockers.now ≡ Some filings)
        × IsChoice done.now pending.now came.now filings c.ids.items c.blocked.items)) }
{
    match blockers {
        Some(blockers) if pending.len() > 0 => choose_some(alloc, done, pending, blockers, came),
        _ => Ok(None),
    }
}

/// The pending instances at which a call looks.
pub(crate) fn looked_at<'a>(
    alloc: Global,
    pending: &'a Pending,
    choice: &Option<Choice>,
) -> Result<Vec<&'a Entry>, Memory>
    ensures { IfOk result
        (λ part. IsPart choice.now pending.now (map (λ e. e.now) part.items)) }
{
    match choice {
        Some(choice) => pending.some_entries(alloc, &choice.ids),
        None => pending.entries(alloc),
    }
}
