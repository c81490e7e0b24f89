//! Explains that a listed instance is not ready.
use crate::listed::Listed;
use epx_bad_lines::found;
use epx_committed::Merged;
use epx_graph::{Waiter, build, waiting};
use epx_types::{Id, Memory, Plan};
use std::alloc::Global;
use std::thread::Threads;

/// The missing instance that an instance waits for, if it waits.
fn missing_of(waiters: &[Waiter], id: Id) -> Option<Id> {
    match waiters.binary_search_by_key(&id, |waiter| waiter.id) {
        Ok(index) => match waiters.get(index) {
            Some(waiter) => Some(waiter.missing),
            None => None,
        },
        Err(_) => None,
    }
}

/// Says whether no log commits the instance, or what it waits for.
pub(crate) fn explain_stranger<R: Threads + Sync>(
    rt: &R,
    alloc: Global,
    merged: &Merged,
    listed: Listed,
    plan: Plan,
) -> Result<Option<String>, Memory> {
    let id = listed.id;
    let begin = listed.show(alloc)?;
    if merged.get(id).is_none() {
        return found(format!(in alloc; "{begin}; no log commits it: is a LOG missing?"));
    }
    let graph = build(rt, alloc, merged, plan)?;
    let waiters = waiting(alloc, &graph)?;
    match missing_of(&waiters, id) {
        Some(missing) => found(format!(in alloc;
            "{begin}; it waits for {missing}, which no log commits: is a LOG missing?"
        )),
        None => Ok(None),
    }
}
