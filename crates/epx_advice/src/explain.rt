//! Explains the answer to a task.
use crate::resume::explain_resume;
use crate::trace::explain_trace;
use crate::verdict::explain_verdict;
use epx_committed::Merged;
use epx_explain::{Inputs, explain_comparison, read_first_again};
use epx_names::{KeyName, Task};
use epx_types::{Memory, Plan};
use std::alloc::Global;
use std::rt::Files;
use std::thread::Threads;

/// The line about an answer to what is asked of BASE or LIST.
fn explain_first<R: Files + Threads + Sync>(
    rt: &R,
    alloc: Global,
    task: Task,
    plan: Plan,
    inputs: &Inputs<'_>,
    merged: &Merged,
    text: &[u8],
) -> Result<Option<String>, Memory> {
    let contents = read_first_again(rt, alloc, inputs)?;
    let Ok(bytes) = contents.bytes() else {
        return Ok(None);
    };
    match task {
        Task::Resume => explain_resume(alloc, merged, bytes),
        _ => explain_verdict(rt, alloc, merged, bytes, text, plan),
    }
}

/// The line about a trace.
fn explain_key<R: Files + Threads + Sync>(
    rt: &R,
    alloc: Global,
    key: KeyName,
    plan: Plan,
    merged: &Merged,
    text: &[u8],
) -> Result<Option<String>, Memory> {
    let key = key.key(alloc)?;
    explain_trace(rt, alloc, merged, key.text(), text, plan)
}

/// Explains in lines, without line feeds, the text that answers a task. There is none if nothing is
/// to be added.
///
/// `merged` is the map that the answer is about. A comparison is about none. BASE, LIST and logs
/// are read again if their bytes were not kept.
pub fn explain_answer<R: Files + Threads + Sync>(
    rt: &R,
    alloc: Global,
    task: Task,
    plan: Plan,
    inputs: &Inputs<'_>,
    merged: &Option<Merged>,
    text: &[u8],
) -> Result<Vec<String>, Memory> {
    let line = match (task, merged) {
        (Task::Compare, _) => return explain_comparison(rt, alloc, inputs, text),
        (Task::Resume | Task::Check | Task::CheckPrefix, Some(merged)) => {
            explain_first(rt, alloc, task, plan, inputs, merged, text)?
        }
        (Task::Trace { key, .. }, Some(merged)) => {
            explain_key(rt, alloc, key, plan, merged, text)?
        }
        _ => None,
    };
    let mut lines = Vec::new(alloc);
    if let Some(line) = line {
        lines.push(line)?;
    }
    Ok(lines)
}
