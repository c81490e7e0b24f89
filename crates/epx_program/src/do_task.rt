//! Tasks: opens the sources at the paths and writes the answer.
ghost use Rattle.std.specs.Prelude.{◌≡◌, ◌≢◌, ◌↔◌, true, false, [], ◌∷◌, All, Some, IfErr};
ghost use Rattle.std.specs.Prelude.{IfOk, IsErrOf, OnOk};
ghost use Rattle.std.specs.Io.KnownBytes.{Keeps};
ghost use Rattle.epx_tool.specs.Findings.{found_of};
ghost use Rattle.epx_program.specs.Calls.{paths_of};
ghost use Rattle.epx_program.specs.Endings.{AddsAnswer, AddsPart, IsTaskResult};
ghost use Rattle.epx_program.specs.Inputs.{AreTextsRead, HasFailedRead, IsInputAlone};
ghost use Rattle.epx_program.specs.Inputs.{text_relation};
ghost use Rattle.epx_program.specs.inner.Outcomes.{TaskOutcome};

use crate::inputs::sources_at;
use epx_devices::{KeptSource, Opener};
use epx_progress::Progress;
use epx_tool::{Answer, MemorySource, Sink, Source, Task, run_shown};
use epx_types::{Fault, Memory, Plan};
use std::alloc::Global;
use std::io::Eprint;
use std::random::RandomSource;
use std::rt::{Clock, Files};
use std::thread::Threads;

/// Writes the answer to the task. If the task has an input, the first source has it and the others
/// have the logs. If there is no source, the input is empty.
fn write_answer<R: Clock + Eprint + Threads + RandomSource + Sync, S: Source, W: Sink>(
    rt: &R,
    alloc: Global,
    task: Task,
    plan: Plan,
    progress: &Progress<'_, R>,
    sources: &mut [S],
    output: &mut W,
) -> Result<Answer, Fault>
    requires sources { All (λ s. S.model.has_failed s ≡ false) sources.old }
    requires output { W.model.has_failed output.old ≡ false }
    ensures { TaskOutcome S.model W.model task sources.old sources.new (found_of result)
        output.old output.new }
{
    let mut empty = MemorySource::new(&[]);
    let asked = &task;
    if !asked.has_input() {
        return run_shown(
            rt, alloc, *asked, progress, &mut empty, sources, plan, output,
        );
    }
    match sources.split_first_mut() {
        Some((first, logs)) => run_shown(rt, alloc, *asked, progress, first, logs, plan, output),
        None => {
            let mut logs: [MemorySource; 0] = [];
            run_shown(
                rt, alloc, *asked, progress, &mut empty, &mut logs, plan, output,
            )
        }
    }
}

/// Takes over the bytes that the sources kept. If memory runs out, `kept` has those of the first
/// sources.
fn take_kept<S: Source>(sources: &mut [KeptSource<S>], kept: &mut Vec<Option<Vec<u8>>>) {
    for source in sources {
        if kept.push(source.take_kept()).is_err() {
            return;
        }
    }
}

/// Reads the texts at the paths, where a hyphen means the input, and writes the answer. If `paths`
/// is None, it reads the input alone. With `keeps`, `kept` gets the bytes that can be read only
/// once.
pub(crate) fn do_task<R, O, I, W>(
    rt: &R,
    opener: &O,
    alloc: Global,
    task: Task,
    plan: Plan,
    progress: &Progress<'_, R>,
    paths: &Option<Vec<String>>,
    keeps: bool,
    input: I,
    kept: &mut Vec<Option<Vec<u8>>>,
    output: &mut W,
) -> Result<Answer, Fault>
where
    R: Clock + Eprint + Files + Threads + RandomSource + Sync,
    O: Opener,
    I: Source + Drop,
    W: Sink,
    requires input { I.model.has_failed input ≡ false }
    requires output { W.model.has_failed output.old ≡ false }

    ensures input { (bytes : _) → IsInputAlone (paths_of paths.now)
        → I.model.remaining input ≡ Some bytes →
        IsTaskResult task (bytes ∷ []) (found_of result) (W.model.contents output.old)
        (W.model.contents output.new) }
    ensures answered { let Is = text_relation O.model O.Opened.model opener.now I.model input in
        IfOk (found_of result) (λ found.
        AddsAnswer task found (AreTextsRead Is (paths_of paths.now))
        (W.model.contents output.old) (W.model.contents output.new)) }
    ensures part { let Is = text_relation O.model O.Opened.model opener.now I.model input in
        IsErrOf (found_of result) Fault.Write → AddsPart task (AreTextsRead Is (paths_of paths.now))
        (W.model.contents output.old) (W.model.contents output.new) }
    ensures unread { (log : _) → IsErrOf (found_of result) (Fault.Read log)
        → IsInputAlone (paths_of paths.now) → HasFailedRead I.model input }
    ensures flushed { OnOk (found_of result) (W.model.is_flushed output.new ≡ true) }
    ensures nothing { IfErr (found_of result) (λ fault. fault ≢ Fault.Write
        → Keeps (W.model.contents output.old) (W.model.contents output.new)) }
    ensures written { IsErrOf (found_of result) Fault.Write
        ↔ (W.model.has_failed output.new ≡ true) }
{
    let Some(paths) = paths else {
        let mut sources = Vec::new(alloc);
        sources.push(input).map_err(Memory::from)?;
        return write_answer(rt, alloc, task, plan, progress, &mut sources, output);
    };
    let Ok(mut sources) = sources_at(rt, opener, alloc, paths, keeps, Some(input)) else {
        return Err(Fault::Memory);
    };
    let done = write_answer(rt, alloc, task, plan, progress, &mut sources, output);
    take_kept(&mut sources, kept);
    done
}
