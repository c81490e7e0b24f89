//! The answer to a task over sources.
ghost use Rattle.std.specs.Prelude.{◌≡◌, ◌≤◌, ◌↔◌, false, length, true, All, Ok, Err, IfOk};
ghost use Rattle.std.specs.Prelude.{MatchResult};
ghost use Rattle.std.specs.Thread.{IsSync};
ghost use Rattle.epx_types.specs.Limits.{max_instances};
ghost use Rattle.epx_compare.specs.ComparisonAnswers.{Compares};
ghost use Rattle.epx_names.specs.Tasks.{HasInput};
ghost use Rattle.epx_tool.specs.Answer.{Answers};
ghost use Rattle.epx_tool.specs.Findings.{AnswersFinding, ComparesFinding, IsFindingText};
ghost use Rattle.epx_tool.specs.TaskAnswers.{AnswersLogs, IsBadInput};
ghost use Rattle.epx_tool.specs.TaskTexts.{IsTaskText};
ghost use Rattle.epx_tool.specs.WithInput.{AnswersWithInput};
ghost use Rattle.epx_tool.specs.inner.MapQuestions.{FindsOf, IsFindingOf, IsTextOf};
ghost use Rattle.epx_merge.specs.between.SourceReadings.{EndsMaking};
ghost use Rattle.epx_tool.specs.inner.TaskReadings.{EndsAnswering, EndsMakingBoth};

use crate::findings::Answer;
use crate::map_texts::text_of;
use crate::question::{MapQuestion, question_of};
use crate::read_both::read_both;
use epx_claims::FreeGate;
use epx_compare::{Comparison, compare_sources};
use epx_devices::Source;
use epx_merge::{Merged, merge_sources};
use epx_names::Task;
use epx_progress::Progress;
use epx_types::{Fault, Memory, Plan};
use std::alloc::Global;
use std::io::Eprint;
use std::random::RandomSource;
use std::rt::Clock;
use std::thread::Threads;

/// The comparison of the logs of all sources.
fn answer_compared<R: Threads + RandomSource + Sync, S: Source>(
    rt: &R,
    alloc: Global,
    sources: &mut [S],
    plan: Plan,
) -> Result<Answer, Fault>
    requires { All (λ s. S.model.has_failed s ≡ false) sources.old }
    ensures { MatchResult result
        (λ a. EndsMaking S.model (ComparesFinding a.has_findings) sources.old sources.new
        (Ok a.text.items))
        (λ fault. EndsMaking S.model Compares sources.old sources.new (Err fault)) }
{
    match compare_sources(rt, alloc, sources, plan) {
        Ok(Comparison { text, has_findings }) => Ok(Answer::new(text, has_findings)),
        Err(fault) => Err(fault),
    }
}

/// The text that answers a question about a committed map, and whether it finds something.
fn shown_text<'a, R: Threads + RandomSource + Sync, P: Clock + Eprint + Threads + Sync>(
    rt: &'a R,
    alloc: Global,
    question: MapQuestion,
    merged: &'a Merged,
    plan: Plan,
    progress: &Progress<'_, P>,
) -> Result<Answer, Memory>
    requires few { length merged.now ≤ max_instances }
    ensures text { IfOk result (λ answer. IsTextOf question merged.now answer.text.items) }
    ensures found { IfOk result (λ answer. (answer.has_findings ≡ true)
        ↔ FindsOf question merged.now answer.text.items) }
{
    progress.during(
        alloc,
        move || -> Result<Answer, Memory>
            requires { IsSync R.row × (length merged.now ≤ max_instances) }
            ensures text { IfOk result (λ answer.
                IsTextOf question merged.entry.now answer.text.items) }
            ensures found { IfOk result (λ answer. (answer.has_findings ≡ true)
                ↔ FindsOf question merged.entry.now answer.text.items) }
        { text_of(rt, alloc, question, merged, plan) },
    )
}

/// The answer to a question about the map that the logs of all sources commit.
fn answer_merged<R: Threads + RandomSource + Sync, P: Clock + Eprint + Threads + Sync, S: Source>(
    rt: &R,
    alloc: Global,
    question: MapQuestion,
    progress: &Progress<'_, P>,
    sources: &mut [S],
    plan: Plan,
) -> Result<Answer, Fault>
    requires { All (λ s. S.model.has_failed s ≡ false) sources.old }
    ensures { MatchResult result
        (λ a. EndsMaking S.model (Answers (IsFindingOf question a.has_findings)) sources.old
        sources.new (Ok a.text.items))
        (λ fault. EndsMaking S.model (Answers (IsTextOf question)) sources.old sources.new
        (Err fault)) }
{
    let merged = match merge_sources(rt, alloc, sources, plan, &FreeGate) {
        Ok(merged) => merged,
        Err(fault) => return Err(fault),
    };
    let Ok(answer) = shown_text(rt, alloc, question, &merged, plan, progress) else {
        return Err(Fault::Memory);
    };
    Ok(answer.about(merged))
}

/// The answer to a task without an input over the logs of all sources, which are read in order.
fn answer_sources<R: Threads + RandomSource + Sync, P: Clock + Eprint + Threads + Sync, S: Source>(
    rt: &R,
    alloc: Global,
    task: Task,
    progress: &Progress<'_, P>,
    sources: &mut [S],
    plan: Plan,
) -> Result<Answer, Fault>
    requires alone { ¬ HasInput task }
    requires sources { All (λ s. S.model.has_failed s ≡ false) sources.old }
    ensures { MatchResult result
        (λ a. EndsMaking S.model (AnswersFinding task a.has_findings) sources.old
        sources.new (Ok a.text.items))
        (λ fault. EndsMaking S.model (AnswersLogs task) sources.old sources.new (Err fault)) }
{
    match question_of(task) {
        Some(question) => answer_merged(rt, alloc, question, progress, sources, plan),
        None => answer_compared(rt, alloc, sources, plan),
    }
}

/// The answer to a task over the logs of all sources, and after them its input.
pub(crate) fn answer_with_input<
    R: Threads + RandomSource + Sync,
    P: Clock + Eprint + Threads + Sync,
    I: Source,
    S: Source,
>(
    rt: &R,
    alloc: Global,
    task: Task,
    progress: &Progress<'_, P>,
    input: &mut I,
    sources: &mut [S],
    plan: Plan,
) -> Result<Answer, Fault>
    requires task { HasInput task }
    requires input { I.model.has_failed input.old ≡ false }
    requires sources { All (λ s. S.model.has_failed s ≡ false) sources.old }
    ensures { MatchResult result
        (λ a. EndsMakingBoth I.model S.model (AnswersWithInput (IsBadInput task)
        (IsFindingText task a.has_findings)) input.old input.new sources.old sources.new
        (Ok a.text.items))
        (λ fault. EndsMakingBoth I.model S.model (AnswersWithInput (IsBadInput task)
        (IsTaskText task)) input.old input.new sources.old sources.new (Err fault)) }
{
    let (merged, question) = match read_both(rt, alloc, task, input, sources, plan) {
        Ok(read) => read,
        Err(fault) => return Err(fault),
    };
    let Ok(answer) = shown_text(rt, alloc, question, &merged, plan, progress) else {
        return Err(Fault::Memory);
    };
    Ok(answer.about(merged))
}

/// The answer to a task over the logs of all sources, which are read in order, and after them its
/// input. A task without an input leaves the source of the input untouched.
pub(crate) fn answer_task<
    R: Threads + RandomSource + Sync,
    P: Clock + Eprint + Threads + Sync,
    I: Source,
    S: Source,
>(
    rt: &R,
    alloc: Global,
    task: Task,
    progress: &Progress<'_, P>,
    input: &mut I,
    sources: &mut [S],
    plan: Plan,
) -> Result<Answer, Fault>
    requires input { I.model.has_failed input.old ≡ false }
    requires sources { All (λ s. S.model.has_failed s ≡ false) sources.old }
    ensures { EndsAnswering I.model S.model task input.old input.new sources.old sources.new
        result }
{
    let asked = &task;
    if asked.has_input() {
        answer_with_input(rt, alloc, *asked, progress, input, sources, plan)
    } else {
        answer_sources(rt, alloc, *asked, progress, sources, plan)
    }
}
