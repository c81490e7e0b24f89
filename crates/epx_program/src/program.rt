//! From the words to the exit status.
ghost use Rattle.std.specs.Prelude.{◌≡◌, ◌≢◌, ◌⊎◌, true, false, IfErr, string_bytes};
ghost use Rattle.std.specs.Io.KnownBytes.{Appends, Keeps};
ghost use Rattle.std.specs.IoError.{error_kind};
ghost use Rattle.std.specs.Process.{exit_status};
ghost use Rattle.epx_types.specs.Faults.{fault_status};
ghost use Rattle.epx_devices.specs.Transfers.{AppendsPrefix};
ghost use Rattle.epx_words.specs.Requests.{IfFollow, IfText, IfWork, flags_of};
ghost use Rattle.epx_program.specs.Calls.{AreTakenFor, DoesAsAsked, EndsTask, IsFollow};
ghost use Rattle.epx_program.specs.Calls.{NamesFollow, paths_of};
ghost use Rattle.epx_program.specs.Endings.{IsAnswerStatus, IsStatus};
ghost use Rattle.epx_program.specs.FollowEndings.{EndsFollow};
ghost use Rattle.epx_program.specs.Inputs.{HasFailedRead, text_relation};
ghost use Rattle.epx_program.specs.Saving.{save_relation};

use crate::do_follow::do_follow;
use crate::do_task::do_task;
use crate::exit_report::{print_text, report_fault, report_task};
use crate::explain::explain;
use crate::read_args::read_args;
use crate::shown_job::job_of;
use crate::streams::{Streams, warn_about_input};
use epx_devices::{Opener, Saver};
use epx_progress::{CountedOpener, CountedSource, Progress};
use epx_tool::{Flags, Sink, Source, Task, Words};
use epx_types::{Fault, Memory, Plan};
use std::alloc::AllocGlobal;
use std::env::Args;
use std::io::{self, Eprint, ErrorKind};
use std::mem;
use std::process::ExitCode;
use std::random::RandomSource;
use std::rt::{Clock, Files};
use std::thread::Threads;

/// Does a task, and returns the exit status. With `--exit-code` the status of an answer says
/// whether it finds something. With `--explain` further lines on standard error explain a fault, or
/// what an answer finds. On a terminal a line says how far the work is, and is erased at the end.
fn do_work<R, O, I, W>(
    rt: &R,
    opener: &O,
    streams: Streams,
    flags: Flags,
    task: Task,
    plan: Plan,
    paths: Option<Vec<String>>,
    input: I,
    output: &mut W,
) -> u8
where
    R: AllocGlobal + Clock + Eprint + Files + Threads + RandomSource + Sync,
    O: Opener,
    I: Source + Drop,
    W: Sink,
    requires input { I.model.has_failed input ≡ false }
    requires output { W.model.has_failed output.old ≡ false }

    ensures do_task { EndsTask (I.model.remaining input) (HasFailedRead I.model input)
        (text_relation O.model O.Opened.model opener.now I.model input) flags.exit_code task
        (paths_of paths) result (W.model.has_failed output.new) (W.model.contents output.old)
        (W.model.contents output.new) }
    ensures flushed { IsAnswerStatus result → W.model.is_flushed output.new ≡ true }
    ensures failed { W.model.has_failed output.new ≡ true → result ≡ 4 }
    ensures nothing { W.model.has_failed output.new ≡ false → ¬ IsAnswerStatus result
        → Keeps (W.model.contents output.old) (W.model.contents output.new) }
{
    let asked = &task;
    let mut kept = Vec::new(rt.alloc());
    let progress = Progress::new(rt, job_of(rt, streams, flags, *asked, &paths));
    let opener = CountedOpener::new(opener, &progress);
    let input = CountedSource::new(input, &progress);
    let done = do_task(
        rt,
        &opener,
        rt.alloc(),
        *asked,
        plan,
        &progress,
        &paths,
        flags.explain,
        input,
        &mut kept,
        output,
    );
    progress.end();
    let status = report_task(rt, flags.exit_code, &done);
    if flags.explain {
        explain(rt, asked, plan, &paths, &kept, &done);
    }
    // To free each allocation of the map would take time. The process ends soon, and the system
    // then takes all pages back at once.
    mem::forget(done);
    status
}

/// Does what the words say, and returns the exit status. The opener opens the files at their paths,
/// and the saver saves the state after following logs.
pub fn execute_words<R, O, I, W, V>(
    rt: &R,
    opener: &O,
    saver: &mut V,
    words: Words,
    streams: Streams,
    input: I,
    output: &mut W,
) -> u8
where
    R: AllocGlobal + Clock + Eprint + Files + Threads + RandomSource + Sync,
    O: Opener,
    I: Source + Drop,
    W: Sink,
    V: Saver,
    requires input { I.model.has_failed input ≡ false }
    requires output { W.model.has_failed output.old ≡ false }

    ensures do_task { IfWork (λ task _ paths. EndsTask (I.model.remaining input)
        (HasFailedRead I.model input)
        (text_relation O.model O.Opened.model opener.now I.model input)
        (flags_of words).exit_code task paths result (W.model.has_failed output.new)
        (W.model.contents output.old) (W.model.contents output.new)) words }
    ensures follow { IfFollow (λ _ paths options. EndsFollow
        (text_relation O.model O.Opened.model opener.now I.model input)
        (save_relation V.model saver.old saver.new) options paths result
        (W.model.has_failed output.new) (W.model.contents output.old)
        (W.model.contents output.new)) words }
    ensures unsaved { ¬ IsFollow words → saver.new ≡ saver.old }

    ensures shown { (text : _) → words ≡ Words.Text text 0 → result ≡ 0
        → Appends (W.model.contents output.old) (W.model.contents output.new) (string_bytes text) }
    ensures prefix { (text : _) → words ≡ Words.Text text 0
        → AppendsPrefix (W.model.contents output.old) (W.model.contents output.new)
        (string_bytes text) }
    ensures text { IfText (λ status. status ≡ 0 → (result ≡ 0)
        ⊎ ((result ≡ 4) × (W.model.has_failed output.new ≡ true))) words }
    ensures refused { IfText (λ status. status ≢ 0 → (result ≡ status)
        × (output.new ≡ output.old)) words }

    ensures flushed { result ≡ 0 → W.model.is_flushed output.new ≡ true }
    ensures found { IfWork (λ _ _ _. result ≡ 5 → W.model.is_flushed output.new ≡ true) words }
    ensures failed { W.model.has_failed output.new ≡ true → result ≡ 4 }
    // What `follow` wrote before a fault stays.
    ensures nothing { ¬ IsFollow words
        → W.model.has_failed output.new ≡ false → ¬ IsAnswerStatus result
        → Keeps (W.model.contents output.old) (W.model.contents output.new) }
{
    match words {
        Words::Work { task, plan, paths } => {
            let flags = Flags {
                exit_code: false,
                explain: false,
                quiet: false,
            };
            do_work(rt, opener, streams, flags, task, plan, paths, input, output)
        }
        Words::WorkWith {
            task,
            plan,
            paths,
            flags,
        } => do_work(rt, opener, streams, flags, task, plan, paths, input, output),
        Words::Follow {
            plan,
            paths,
            options,
        } => do_follow(rt, opener, saver, plan, paths, options, input, output),
        Words::Text { text, status } => print_text(rt, text.as_str(), status, output),
    }
}

/// Does what the operating system's words ask for, and returns the exit status. The opener opens
/// the files at the paths among the words, and the saver saves the state after following logs. The
/// answer is written to the output. Faults and the text about refused words are written to standard
/// error, and so is a line where a person may expect that something else is read. Where standard
/// error is a terminal, a line on it says how far the work is, once a second has passed.
pub fn start<R, O, I, W, V>(
    rt: &R,
    opener: &O,
    saver: &mut V,
    words: io::Result<Args>,
    streams: Streams,
    input: I,
    output: &mut W,
) -> ExitCode
where
    R: AllocGlobal + Clock + Eprint + Files + Threads + RandomSource + Sync,
    O: Opener,
    I: Source + Drop,
    W: Sink,
    V: Saver,
    requires input { I.model.has_failed input ≡ false }
    requires output { W.model.has_failed output.old ≡ false }

    ensures read_args { (texts : _) → AreTakenFor words texts
        → DoesAsAsked (I.model.remaining input) (HasFailedRead I.model input)
        (text_relation O.model O.Opened.model opener.now I.model input)
        (save_relation V.model saver.old saver.new) texts (exit_status result)
        (W.model.has_failed output.new) (W.model.contents output.old)
        (W.model.contents output.new) }
    ensures unsaved { ¬ NamesFollow words → saver.new ≡ saver.old }
    ensures status { IsStatus (exit_status result) ⊎ (exit_status result ≡ 2) }

    ensures no_text { IfErr words (λ error. error_kind error ≡ ErrorKind.InvalidData
        → ((exit_status result ≡ 2) ⊎ (exit_status result ≡ fault_status Fault.Memory))
        × (output.new ≡ output.old)) }
    ensures no_words { IfErr words (λ error. error_kind error ≢ ErrorKind.InvalidData
        → (exit_status result ≡ fault_status Fault.Memory) × (output.new ≡ output.old)) }

    ensures flushed { IsAnswerStatus (exit_status result) → W.model.is_flushed output.new ≡ true }
    ensures failed { W.model.has_failed output.new ≡ true → exit_status result ≡ 4 }
    // What `follow` wrote before a fault stays.
    ensures nothing { ¬ NamesFollow words
        → W.model.has_failed output.new ≡ false → ¬ IsAnswerStatus (exit_status result)
        → Keeps (W.model.contents output.old) (W.model.contents output.new) }
{
    let status = match read_args(rt.alloc(), words) {
        Ok(words) => {
            warn_about_input(rt, streams.input, &words);
            execute_words(rt, opener, saver, words, streams, input, output)
        }
        Err(Memory) => report_fault(rt, Fault::Memory),
    };
    ExitCode::from(status)
}
