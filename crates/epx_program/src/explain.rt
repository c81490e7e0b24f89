//! The lines that explain how a task ended, or why following stopped.

use epx_advice::explain_answer;
use epx_explain::{Inputs, explain_fault};
use epx_tool::{Answer, Task};
use epx_types::{Fault, Plan};
use epx_words::FollowOptions;
use std::alloc::{AllocError, AllocGlobal, Global};
use std::io::Eprint;
use std::rt::Files;
use std::thread::Threads;

/// Writes the line that explains a fault, if there is one.
fn print_reason<R: AllocGlobal + Eprint + Files>(rt: &R, fault: Fault, inputs: &Inputs<'_>) {
    if let Ok(Some(line)) = explain_fault(rt, rt.alloc(), fault, inputs) {
        let _printed = eprintln!(rt; "epx: {line}");
    }
}

/// Writes lines to standard error that explain the fault of a task, or what its answer finds. If
/// memory runs out or standard error cannot be written, there are no such lines.
pub(crate) fn explain<'a, R: AllocGlobal + Eprint + Files + Threads + Sync>(
    rt: &R,
    task: &Task,
    plan: Plan,
    paths: &'a Option<Vec<String>>,
    kept: &'a [Option<Vec<u8>>],
    done: &Result<Answer, Fault>,
) {
    let inputs = Inputs::of_task(*task, paths, kept);
    let alloc = rt.alloc();
    match done {
        Ok(Answer { text, merged, .. }) => {
            if let Ok(lines) = explain_answer(rt, alloc, *task, plan, &inputs, merged, text) {
                for line in &lines {
                    let _printed = eprintln!(rt; "epx: {line}");
                }
            }
        }
        Err(fault) => print_reason(rt, *fault, &inputs),
    }
}

/// The paths of the logs behind that of the state, where a hyphen means the input.
fn with_state(
    alloc: Global,
    state: &str,
    paths: Option<Vec<String>>,
) -> Result<Vec<String>, AllocError> {
    let mut all = Vec::new(alloc);
    all.push(String::from_str(alloc, state)?)?;
    match paths {
        Some(paths) => {
            for path in paths {
                all.push(path)?;
            }
        }
        None => all.push(String::from_str(alloc, "-")?)?,
    }
    Ok(all)
}

/// Writes a line to standard error that explains why following the logs at the paths stopped, or
/// why the state was not saved, if the output has not failed. If memory runs out or standard error
/// cannot be written, there is no such line.
pub(crate) fn explain_stop<R: AllocGlobal + Eprint + Files>(
    rt: &R,
    fault: Fault,
    paths: Option<Vec<String>>,
    options: &FollowOptions,
    output_failed: bool,
) {
    let unsaved = match &options.save {
        Some(path) if !output_failed => Some(path.as_str()),
        _ => None,
    };
    let Some(state) = &options.state else {
        return print_reason(rt, fault, &Inputs::of_follow(&paths, false, unsaved));
    };
    if let Ok(all) = with_state(rt.alloc(), state.as_str(), paths) {
        print_reason(rt, fault, &Inputs::of_follow(&Some(all), true, unsaved));
    }
}
