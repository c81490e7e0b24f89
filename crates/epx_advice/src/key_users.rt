//! Finds the commands that have a key.
use epx_committed::Merged;
use epx_graph::{Waiter, build, waiting};
use epx_types::{Id, Memory, Op, Plan};
use std::alloc::Global;
use std::thread::Threads;

/// The commands that have a key.
#[derive(Clone, Copy)]
pub(crate) struct KeyUsers {
    /// How many are executed.
    pub executed: usize,
    /// How many wait.
    pub waiting: usize,
    /// The first that waits.
    pub first_waiting: Option<Id>,
}

/// Whether the key is one of those of an operation.
fn op_has_key(op: &Op, key: &str) -> bool {
    let (first, second) = op.accesses();
    if first.key.text() == key {
        return true;
    }
    match second {
        Some(access) => access.key.text() == key,
        None => false,
    }
}

/// The committed instances whose commands have the key, by rising Id.
fn users_of(alloc: Global, merged: &Merged, key: &str) -> Result<Vec<Id>, Memory> {
    let mut ids = Vec::new(alloc);
    for position in 0..merged.len() {
        let ops = merged.entry_at(position).ops();
        if ops.iter().any(|op| op_has_key(op, key)) {
            ids.push(merged.id_at(position))?;
        }
    }
    Ok(ids)
}

/// Whether an instance is one of the waiters, whose Ids rise. Takes logarithmic time.
fn is_waiting(waiters: &[Waiter], id: Id) -> bool {
    waiters
        .binary_search_by_key(&id, |waiter| waiter.id)
        .is_ok()
}

/// Counts instances, and those of them that wait.
fn count_users(ids: &[Id], waiters: &[Waiter]) -> KeyUsers {
    let mut waiting: usize = 0;
    let mut first_waiting = None;
    for id in ids {
        if !is_waiting(waiters, *id) {
            continue;
        }
        waiting = waiting.saturating_add(1);
        if first_waiting.is_none() {
            first_waiting = Some(*id);
        }
    }
    KeyUsers {
        executed: ids.len().saturating_sub(waiting),
        waiting,
        first_waiting,
    }
}

/// Counts the commands that have a key.
pub(crate) fn count_key_users<R: Threads + Sync>(
    rt: &R,
    alloc: Global,
    merged: &Merged,
    key: &str,
    plan: Plan,
) -> Result<KeyUsers, Memory> {
    let ids = users_of(alloc, merged, key)?;
    if ids.is_empty() {
        return Ok(count_users(&ids, &[]));
    }
    let graph = build(rt, alloc, merged, plan)?;
    Ok(count_users(&ids, &waiting(alloc, &graph)?))
}
