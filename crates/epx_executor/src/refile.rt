//! Filing what waits after a call.
ghost use Rattle.std.specs.Prelude.{◌≡◌, ◌⊎◌, ◌↔◌, List, Contains, IfSome, IsTrue};
ghost use Rattle.epx_types.specs.declared.id.Id.{Id};
ghost use Rattle.epx_types.specs.CommittedMap.{IsCommitted};
ghost use Rattle.epx_types.specs.Instances.{Instance};
ghost use Rattle.epx_types.specs.Reaching.{Reaches};
ghost use Rattle.epx_types.specs.WaitingLists.{Waiting, waiting_ids};
ghost use Rattle.epx_executor.specs.inner.Choices.{AreFiledIn, AreWithin, CanRefile, IsRefiled};
ghost use Rattle.epx_executor.specs.inner.Filings.{IsBlockedBy, IsFiled};

use crate::blockers::Blockers;
use crate::choose::Choice;
use epx_graph::Waiter;
use epx_types::Id;
use std::alloc::Global;

/// Files an instance under the one behind which `reached` waits at last, unless it is filed.
/// Whether it is filed now.
fn file_behind(alloc: Global, blockers: &mut Blockers, id: Id, reached: Id) -> bool
    ensures filed { IsTrue result → IsFiled blockers.new id }
    ensures stay { (x y : Id) → Contains blockers.old (x, y) → Contains blockers.new (x, y) }
    ensures new { (x y : Id) → Contains blockers.new (x, y) → Contains blockers.old (x, y)
        ⊎ ((x ≡ id) × ((reached ≡ y) ⊎ IsBlockedBy blockers.old reached y)) }
{
    if blockers.is_filed(id) {
        return true;
    }
    let last = blockers.blocker(reached).unwrap_or(reached);
    if last == id || blockers.is_filed(last) {
        return false;
    }
    blockers.file(alloc, id, last).is_ok()
}

/// Takes out what a call looked at.
fn take_out(blockers: &mut Blockers, choice: &Choice)
    ensures { (x y : Id) → Contains blockers.new (x, y)
        ↔ (Contains blockers.old (x, y) × (¬ Contains choice.now.ids.items x)) }
{
    for id in &choice.ids {
        blockers.remove(*id);
    }
    for id in &choice.ids {
        blockers.forget_old(*id);
    }
    for id in &choice.roots {
        blockers.forget_old(*id);
    }
}

/// Files instances that came, each under what it reaches. Whether all are filed.
fn file_blocked(alloc: Global, blockers: &mut Blockers, blocked: &[(Id, Id)]) -> bool
    ensures stay { (x y : Id) → Contains blockers.old (x, y) → Contains blockers.new (x, y) }
    ensures within { (m : List Instance) → AreWithin m blocked.now → AreWithin m blockers.old
        → AreWithin m blockers.new }
{
    for (id, missing) in blocked {
        if !file_behind(alloc, blockers, *id, *missing) {
            return false;
        }
    }
    true
}

/// The blockers once all these instances are filed. None if memory runs out.
fn file_waiters(alloc: Global, before: Blockers, waiters: &[Waiter]) -> Option<Blockers>
    ensures stay { IfSome result
        (λ after. (x y : Id) → Contains before (x, y) → Contains after (x, y)) }
    ensures filed { IfSome result
        (λ after. (x : Id) → Contains (waiting_ids waiters.now) x → IsFiled after x) }
    ensures within { IfSome result (λ after. (m : List Instance) → AreWithin m before
        → ((w : Waiting) → Contains waiters.now w → IsCommitted m w.id × Reaches m w.id w.missing)
        → AreWithin m after) }
{
    let mut blockers = before;
    for waiter in waiters {
        if !file_behind(alloc, &mut blockers, waiter.id, waiter.missing) {
            return None;
        }
    }
    Some(blockers)
}

/// The blockers after a call that looked at a choice and left these instances waiting. What the
/// call passed over stays filed where it is. None if memory runs out.
fn refile_some(
    alloc: Global,
    before: Blockers,
    choice: &Choice,
    waiters: &[Waiter],
) -> Option<Blockers>
    ensures { IfSome result (λ after. (m : List Instance)
        → CanRefile m before choice.now.ids.items choice.now.blocked.items waiters.now
        → AreFiledIn m after) }
{
    let mut blockers = before;
    take_out(&mut blockers, choice);
    if !file_blocked(alloc, &mut blockers, &choice.blocked) {
        return None;
    }
    file_waiters(alloc, blockers, waiters)
}

/// The blockers after a call that left these instances waiting. None if memory runs out.
pub(crate) fn refile(
    alloc: Global,
    before: Option<Blockers>,
    choice: Option<Choice>,
    waiters: &[Waiter],
) -> Option<Blockers>
    ensures { IfSome result (IsRefiled before choice waiters.now) }
{
    match (before, choice) {
        (Some(before), Some(choice)) => refile_some(alloc, before, &choice, waiters),
        _ => file_waiters(alloc, Blockers::new(alloc), waiters),
    }
}
