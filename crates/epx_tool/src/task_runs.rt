//! A run of a task: it reads logs and an input from sources, and writes the answer to a sink.
ghost use Rattle.std.specs.Prelude.{◌≡◌, false, All};
ghost use Rattle.epx_names.specs.Tasks.{HasInput};
ghost use Rattle.epx_tool.specs.Findings.{found_of};
ghost use Rattle.epx_tool.specs.RunEndings.{EndsRun, EndsRunWithInput, EndsTaskRun};
ghost use Rattle.epx_tool.specs.TaskAnswers.{AnswersLogs, IsBadInput};
ghost use Rattle.epx_tool.specs.TaskTexts.{IsTaskText};

use crate::answer_task::answer_task;
use crate::findings::Answer;
use epx_devices::{MemorySource, Sink, Source, write_out};
use epx_names::Task;
use epx_progress::{Progress, ThreadsAlone};
use epx_types::{Fault, Plan};
use std::alloc::Global;
use std::io::Eprint;
use std::random::RandomSource;
use std::rt::Clock;
use std::thread::Threads;

/// Reads the logs and the input of a task, if it has one, from their sources, and writes the
/// answer to the sink. Meanwhile `progress` shows that the answer is made, if it shows anything. A
/// task without an input leaves the source of the input untouched.
pub fn run_shown<
    T: Threads + RandomSource + Sync,
    P: Clock + Eprint + Threads + Sync,
    I: Source,
    S: Source,
    W: Sink,
>(
    rt: &T,
    alloc: Global,
    task: Task,
    progress: &Progress<'_, P>,
    input: &mut I,
    sources: &mut [S],
    plan: Plan,
    sink: &mut W,
) -> Result<Answer, Fault>
    requires input { I.model.has_failed input.old ≡ false }
    requires sources { All (λ s. S.model.has_failed s ≡ false) sources.old }
    requires sink { W.model.has_failed sink.old ≡ false }
    ensures { EndsTaskRun I.model S.model W.model task input.old input.new sources.old sources.new
        sink.old sink.new (found_of result) }
{
    let answer = match answer_task(rt, alloc, task, progress, input, sources, plan) {
        Ok(answer) => answer,
        Err(fault) => return Err(fault),
    };
    progress.end();
    match write_out(&answer.text, sink) {
        Ok(()) => Ok(answer),
        Err(fault) => Err(fault),
    }
}

/// Reads the logs from the sources in order, and then the input of the task, if it has one, from
/// its own. Writes the answer to the sink. A task without an input leaves the source of the input
/// untouched. `run`, `show`, `run_resume` and `run_check` are this call for one task each.
pub fn run_task<T: Threads + RandomSource + Sync, I: Source, S: Source, W: Sink>(
    rt: &T,
    alloc: Global,
    task: Task,
    input: &mut I,
    sources: &mut [S],
    plan: Plan,
    sink: &mut W,
) -> Result<Answer, Fault>
    requires input { I.model.has_failed input.old ≡ false }
    requires sources { All (λ s. S.model.has_failed s ≡ false) sources.old }
    requires sink { W.model.has_failed sink.old ≡ false }
    ensures { EndsTaskRun I.model S.model W.model task input.old input.new sources.old sources.new
        sink.old sink.new (found_of result) }
{
    let alone = ThreadsAlone::new(rt);
    let unseen = Progress::new(&alone, None);
    run_shown(rt, alloc, task, &unseen, input, sources, plan, sink)
}

/// Reads the logs of a task without an input from the sources, and writes the answer to the sink.
/// Frees the answer.
pub(crate) fn write_answer<T: Threads + RandomSource + Sync, S: Source, W: Sink>(
    rt: &T,
    alloc: Global,
    task: Task,
    sources: &mut [S],
    plan: Plan,
    sink: &mut W,
) -> Result<(), Fault>
    requires alone { ¬ HasInput task }
    requires sources { All (λ s. S.model.has_failed s ≡ false) sources.old }
    requires sink { W.model.has_failed sink.old ≡ false }
    ensures { EndsRun S.model W.model (AnswersLogs task) sources.old sources.new sink.old sink.new
        result }
{
    let mut input = MemorySource::new(&[]);
    match run_task(rt, alloc, task, &mut input, sources, plan, sink) {
        Ok(answer) => {
            drop(answer);
            Ok(())
        }
        Err(fault) => Err(fault),
    }
}

/// Reads the logs of a task from the sources, and then its input from its own. Writes the answer
/// to the sink, and frees it.
pub(crate) fn write_with_input<T: Threads + RandomSource + Sync, I: Source, S: Source, W: Sink>(
    rt: &T,
    alloc: Global,
    task: Task,
    input: &mut I,
    sources: &mut [S],
    plan: Plan,
    sink: &mut W,
) -> Result<(), Fault>
    requires task { HasInput task }
    requires input { I.model.has_failed input.old ≡ false }
    requires sources { All (λ s. S.model.has_failed s ≡ false) sources.old }
    requires sink { W.model.has_failed sink.old ≡ false }
    ensures { EndsRunWithInput I.model S.model W.model (IsBadInput task) (IsTaskText task)
        input.old input.new sources.old sources.new sink.old sink.new result }
{
    match run_task(rt, alloc, task, input, sources, plan, sink) {
        Ok(answer) => {
            drop(answer);
            Ok(())
        }
        Err(fault) => Err(fault),
    }
}
