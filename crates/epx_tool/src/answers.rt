//! The answer to a task over texts in memory.
ghost use Rattle.std.specs.Prelude.{MatchResult, Ok, Err};
ghost use Rattle.epx_merge.specs.LogLines.{bytes_of};
ghost use Rattle.epx_names.specs.Tasks.{HasInput};
ghost use Rattle.epx_tool.specs.Answer.{IsAnswer};
ghost use Rattle.epx_tool.specs.CheckAnswers.{Checks};
ghost use Rattle.epx_tool.specs.Resumption.{Resumes};
ghost use Rattle.epx_tool.specs.TaskAnswers.{AnswersLogs, AnswersTask, AnswersView};

use crate::answer_task::answer_with_input;
use crate::ask::Ask;
use crate::map_texts::text_of;
use crate::question::question_of;
use epx_claims::FreeGate;
use epx_compare::compare;
use epx_devices::MemorySource;
use epx_merge::{memory_sources, read_logs};
use epx_names::Task;
use epx_progress::{Progress, ThreadsAlone};
use epx_types::{Fault, Plan};
use std::alloc::Global;
use std::random::RandomSource;
use std::thread::Threads;

/// The answer to a task without an input over logs in memory.
fn answer_logs<R: Threads + RandomSource + Sync>(
    rt: &R,
    alloc: Global,
    task: Task,
    logs: &[Vec<u8>],
    plan: Plan,
) -> Result<Vec<u8>, Fault>
    requires { ¬ HasInput task }
    ensures { let bytes = bytes_of logs.now in
        MatchResult result (λ text. AnswersLogs task bytes (Ok text.items))
        (λ fault. AnswersLogs task bytes (Err fault)) }
{
    let Some(question) = question_of(task) else {
        return Ok(compare(rt, alloc, logs, plan)?.text);
    };
    let merged = match read_logs(rt, alloc, logs, plan, &FreeGate) {
        Ok(merged) => merged,
        Err(fault) => return Err(fault),
    };
    let answer = text_of(rt, alloc, question, &merged, plan)?;
    Ok(answer.text)
}

/// The answer to a task over an input and logs in memory. A task without an input ignores it.
/// `answer`, `view`, `resume` and `check` are this call for one task each. The check of a prefix
/// is asked here alone.
pub fn answer_texts<R: Threads + RandomSource + Sync>(
    rt: &R,
    alloc: Global,
    task: Task,
    input: &[u8],
    logs: &[Vec<u8>],
    plan: Plan,
) -> Result<Vec<u8>, Fault>
    ensures { let bytes = bytes_of logs.now in
        MatchResult result (λ text. AnswersTask task input.now bytes (Ok text.items))
        (λ fault. AnswersTask task input.now bytes (Err fault)) }
{
    let asked = &task;
    if !asked.has_input() {
        return answer_logs(rt, alloc, *asked, logs, plan);
    }
    let mut sources = memory_sources(alloc, logs)?;
    let mut given = MemorySource::new(input);
    let alone = ThreadsAlone::new(rt);
    let unseen = Progress::new(&alone, None);
    match answer_with_input(rt, alloc, *asked, &unseen, &mut given, &mut sources, plan) {
        Ok(answer) => Ok(answer.text),
        Err(fault) => Err(fault),
    }
}

/// The report of the logs, or the first refusal, in this order: `TooManyLogs`, `LogTooLong`,
/// `BadLine`, `TooManyInstances`, `Disagree`. `Memory` means out of memory, and it says nothing
/// about the logs. The result is the same for every plan.
pub fn answer<R: Threads + RandomSource + Sync>(
    rt: &R,
    alloc: Global,
    logs: &[Vec<u8>],
    plan: Plan,
) -> Result<Vec<u8>, Fault>
    ensures { let bytes = bytes_of logs.now in
        MatchResult result (λ text. IsAnswer bytes (Ok text.items))
        (λ fault. IsAnswer bytes (Err fault)) }
{
    answer_texts(rt, alloc, Task::Run, &[], logs, plan)
}

/// A view of the logs, or the first refusal. The refusals are those of `answer`, except that
/// `Ask::Compare` has no `BadLine` and no `Disagree`. The result is the same for every plan.
pub fn view<R: Threads + RandomSource + Sync>(
    rt: &R,
    alloc: Global,
    ask: Ask,
    logs: &[Vec<u8>],
    plan: Plan,
) -> Result<Vec<u8>, Fault>
    ensures { let bytes = bytes_of logs.now in
        MatchResult result (λ text. AnswersView ask bytes (Ok text.items))
        (λ fault. AnswersView ask bytes (Err fault)) }
{
    answer_logs(rt, alloc, Task::from(ask), logs, plan)
}

/// The report of a run that resumes from a base, which is an earlier report. The instances that
/// are done or have a reply in the base are done: they are not executed again, and no instance
/// waits for them. The store begins as the store of the base.
///
/// The refusals are those of `answer`. For `LogTooLong` the base counts as one more log after the
/// others. A bad line of the base is a `BadBase`, and comes after all refusals of the logs. The
/// result is the same for every plan.
pub fn resume<R: Threads + RandomSource + Sync>(
    rt: &R,
    alloc: Global,
    base: &[u8],
    logs: &[Vec<u8>],
    plan: Plan,
) -> Result<Vec<u8>, Fault>
    ensures { let bytes = bytes_of logs.now in
        MatchResult result (λ text. Resumes base.now bytes (Ok text.items))
        (λ fault. Resumes base.now bytes (Err fault)) }
{
    answer_texts(rt, alloc, Task::Resume, base, logs, plan)
}

/// Checks that the instances of a list are a lawful order of what the logs commit. Each line of
/// the list names one instance, as `[r,i]`. The verdict is one line of text: `["lawful"]`, or the
/// name of the list's fault with the position, counted from 0, or the missing instance.
///
/// The refusals are those of `answer`. For `LogTooLong` the list counts as one more log after the
/// others. A bad line of the list is a `BadBase`, and comes after all refusals of the logs. The
/// result is the same for every plan.
pub fn check<R: Threads + RandomSource + Sync>(
    rt: &R,
    alloc: Global,
    list: &[u8],
    logs: &[Vec<u8>],
    plan: Plan,
) -> Result<Vec<u8>, Fault>
    ensures { let bytes = bytes_of logs.now in
        MatchResult result (λ text. Checks list.now bytes (Ok text.items))
        (λ fault. Checks list.now bytes (Err fault)) }
{
    answer_texts(rt, alloc, Task::Check, list, logs, plan)
}
