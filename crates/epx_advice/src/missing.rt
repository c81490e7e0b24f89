//! Explains that a list lacks ready instances.
use crate::listed::Listed;
use epx_bad_lines::found;
use epx_committed::Merged;
use epx_graph::{build, waiting};
use epx_types::{Id, Memory, Plan};
use std::alloc::Global;
use std::thread::Threads;

/// Counts the ready instances that a list lacks. Those that it has are ready, each once.
pub(crate) fn explain_missing<R: Threads + Sync>(
    rt: &R,
    alloc: Global,
    merged: &Merged,
    list: &[Listed],
    least: Id,
    plan: Plan,
) -> Result<Option<String>, Memory> {
    let graph = build(rt, alloc, merged, plan)?;
    let waiters = waiting(alloc, &graph)?;
    let ready = merged.len().saturating_sub(waiters.len());
    let lacking = ready.saturating_sub(list.len());
    found(format!(in alloc;
        "LIST lacks {lacking} of {ready} ready instances, {least} is the least of them; is its \
replica still executing? --prefix allows that"
    ))
}
