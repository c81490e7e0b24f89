//! The outcome of the texts of a case: the answer, or the line of the fault.
ghost use Rattle.std.specs.Prelude.{◌≡◌, All, IfOk, false};

use crate::case_input::CaseInput;
use crate::flow::Flow;
use epx_tool::{
    Ask, FuseSource, Task, answer, answer_texts, check, resume, run, run_check, run_resume,
    run_task, show, view,
};
use epx_types::{Fault, Plan};
use std::alloc::{AllocError, Global};
use std::io;
use std::random::RandomSource;
use std::thread::Threads;

/// The view that a task asks for, or None if it asks for a report, or has an input.
fn ask_of(task: &Task) -> Option<Ask> {
    match task {
        Task::Order => Some(Ask::Order),
        Task::Levels => Some(Ask::Levels),
        Task::Blockers => Some(Ask::Blockers),
        Task::Graph => Some(Ask::Graph),
        Task::Around { id, steps } => Some(Ask::Around {
            id: *id,
            steps: *steps,
        }),
        Task::Audit => Some(Ask::Audit),
        Task::AuditAll => Some(Ask::AuditAll),
        Task::Compare => Some(Ask::Compare),
        Task::Why(id) => Some(Ask::Why(*id)),
        Task::Path(from, to) => Some(Ask::Path(*from, *to)),
        Task::Trace { key, reads } => Some(Ask::Trace {
            key: *key,
            reads: *reads,
        }),
        Task::Run | Task::Resume | Task::Check | Task::CheckPrefix => None,
        Task::Replay | Task::Verify | Task::Linear { .. } => None,
    }
}

/// Adds the line of a fault.
fn add_fault(alloc: Global, text: &mut Vec<u8>, fault: Fault) -> io::Result<()> {
    let line = format!(in alloc; "{fault}\n")?;
    text.extend_from_slice(line.as_bytes())?;
    Ok(())
}

/// The outcome of the texts in memory.
pub(crate) fn answer_input<R: Threads + RandomSource + Sync>(
    rt: &R,
    alloc: Global,
    task: &Task,
    case_input: &CaseInput,
    plan: Plan,
) -> io::Result<Vec<u8>> {
    let logs = case_input.logs.as_slice();
    let outcome = match (task, ask_of(task)) {
        (_, Some(ask)) => view(rt, alloc, ask, logs, plan),
        (Task::Resume, None) => resume(rt, alloc, &case_input.first, logs, plan),
        (Task::Check, None) => check(rt, alloc, &case_input.first, logs, plan),
        (Task::CheckPrefix | Task::Replay | Task::Verify | Task::Linear { .. }, None) => {
            answer_texts(rt, alloc, *task, &case_input.first, logs, plan)
        }
        (_, None) => answer(rt, alloc, logs, plan),
    };
    match outcome {
        Ok(text) => Ok(text),
        Err(fault) => {
            let mut text = Vec::new(alloc);
            add_fault(alloc, &mut text, fault)?;
            Ok(text)
        }
    }
}

/// A source for each log.
fn sources_of<'a>(
    alloc: Global,
    logs: &'a [Vec<u8>],
    flows: &[Flow],
) -> Result<Vec<FuseSource<'a>>, AllocError>
    ensures { IfOk result (λ sources. All (λ s. s.failed ≡ false) sources.items) }
{
    let mut sources = Vec::new(alloc);
    for (log, flow) in logs.iter().zip(flows) {
        sources.push(flow.source(log))?;
    }
    Ok(sources)
}

/// The outcome of the texts through devices: the bytes of the sink, and the line of the fault.
pub(crate) fn deliver_input<R: Threads + RandomSource + Sync>(
    rt: &R,
    alloc: Global,
    task: &Task,
    case_input: &CaseInput,
    plan: Plan,
) -> io::Result<Vec<u8>> {
    let mut first = case_input.first_flow.source(&case_input.first);
    let mut sources = sources_of(alloc, &case_input.logs, &case_input.log_flows)?;
    let mut sink = case_input.sink_flow.sink(alloc);
    let outcome = match (task, ask_of(task)) {
        (_, Some(ask)) => show(rt, alloc, ask, &mut sources, plan, &mut sink),
        (Task::Resume, None) => { run_resume(rt, alloc, &mut first, &mut sources, plan, &mut sink) }
        (Task::Check, None) => { run_check(rt, alloc, &mut first, &mut sources, plan, &mut sink) }
        (Task::CheckPrefix | Task::Replay | Task::Verify | Task::Linear { .. }, None) => {
            run_task(rt, alloc, *task, &mut first, &mut sources, plan, &mut sink).map(|_| ())
        }
        (_, None) => run(rt, alloc, &mut sources, plan, &mut sink),
    };
    let mut text = Vec::from_slice(alloc, sink.bytes())?;
    if let Err(fault) = outcome {
        add_fault(alloc, &mut text, fault)?;
    }
    Ok(text)
}
