//! Makes an executor of the parts of a state.
ghost use Rattle.std.specs.Prelude.{◌≡◌, ◌+◌, All, Contains, IfOk, IfErr, IfNone, IfSome};
ghost use Rattle.std.specs.Prelude.{length};
ghost use Rattle.epx_types.specs.CommittedMap.{ids_of};
ghost use Rattle.epx_state.specs.States.{AreInOrder, HoldsState};
ghost use Rattle.epx_state.specs.inner.StateProgress.{parts_of};
ghost use Rattle.epx_state.specs.inner.Restoring.{IsFirstAmong, IsRestoreFault};

use crate::progress::StateProgress;
use epx_executor::Executor;
use epx_report::store_of;
use epx_types::{Entry, Fault, Id, Memory, Plan};
use std::alloc::Global;
use std::random::RandomSource;
use std::thread::Threads;

/// The Ids of instances, in the order of these.
fn list_ids(alloc: Global, entries: &[Entry]) -> Result<Vec<Id>, Memory>
    ensures { IfOk result (λ ids. ids.items ≡ ids_of entries.now) }
{
    let mut ids = Vec::with_capacity(alloc, entries.len())?;
    for entry in entries {
        ids.push(entry.id())?;
    }
    Ok(ids)
}

/// The position of the first instance that is executed.
fn first_done(executor: &Executor, ids: &[Id]) -> Option<usize>
    ensures found { IfSome result (IsFirstAmong executor.now.done ids.now) }
    ensures none { IfNone result (All (λ x. ¬ Contains executor.now.done x) ids.now) }
{
    for position in 0..ids.len() {
        if executor.is_done(ids[position]) {
            return Some(position);
        }
    }
    None
}

/// Makes an executor that holds the parts. Returns also the number of the line of the first
/// waiting instance. An instance that is ready is refused with its line.
pub(crate) fn restore<R: Threads + RandomSource + Sync>(
    rt: &R,
    alloc: Global,
    progress: StateProgress,
    plan: Plan,
) -> Result<(Executor, usize), Fault>
    requires { AreInOrder (parts_of progress) }
    ensures restored { IfOk result (λ v. HoldsState (parts_of progress) v.0
        × (v.1 ≡ 2 + length progress.runs)) }
    ensures refused { IfErr result (IsRestoreFault (parts_of progress)) }
{
    let line = progress.run_count() + 2;
    let (done, waiting, stored) = progress.into_parts(alloc)?;
    let store = store_of(alloc, stored)?;
    let ids = list_ids(alloc, &waiting)?;
    let (executor, _replies) = Executor::after(rt, alloc, done, store, waiting, plan)?;
    match first_done(&executor, &ids) {
        Some(position) => Err(Fault::BadBase {
            line: line + position,
        }),
        None => Ok((executor, line)),
    }
}
