//! The subcommand `follow`: opens the sources at the paths, follows their logs, and saves the state
//! at the end.
ghost use Rattle.std.specs.Prelude.{◌≡◌, ◌↔◌, ◌⊎◌, true, false, All, Some};
ghost use Rattle.std.specs.Prelude.{IfErr, IfOk, IfSome, IsErrOf, MatchResult, OnOk};
ghost use Rattle.std.specs.Prelude.{option_map, string_bytes};
ghost use Rattle.std.specs.Io.KnownBytes.{Keeps};
ghost use Rattle.epx_program.specs.Calls.{paths_of};
ghost use Rattle.epx_program.specs.FollowEndings.{EndsFollow, FollowsToEnds, StopsBefore};
ghost use Rattle.epx_program.specs.FollowEndings.{save_of};
ghost use Rattle.epx_program.specs.FollowStops.{RefusesState, StopsFrom, state_number};
ghost use Rattle.epx_program.specs.Inputs.{text_relation};
ghost use Rattle.epx_program.specs.PathsRead.{paths_read};
ghost use Rattle.epx_program.specs.Saving.{CannotSave, SavesState, save_relation};
ghost use Rattle.epx_program.specs.SourcesAt.{AreSourcesAt, model_at};
ghost use Rattle.epx_program.specs.inner.Follows.{FollowsFrom, RefusesStart, StartsAt};

use crate::exit_report::report_fault;
use crate::explain::explain_stop;
use crate::inputs::{Input, source_at, sources_at};
use crate::read_state::read_state_bytes;
use epx_devices::{EitherSource, KeptSource, MemorySource, Opener, Saver};
use epx_follow::{Follower, follow};
use epx_state::{read_start, state_text};
use epx_tool::{Sink, Source};
use epx_types::{Fault, Plan};
use epx_words::FollowOptions;
use std::alloc::{AllocError, AllocGlobal, Global};
use std::io::Eprint;
use std::mem;
use std::random::RandomSource;
use std::rt::Files;
use std::thread::Threads;

/// How many logs are read at the paths. A state has this number in faults.
fn count_logs(paths: &Option<Vec<String>>) -> usize
    ensures { result ≡ state_number (paths_of paths.now) }
{
    match paths {
        Some(paths) => paths.len(),
        None => 1,
    }
}

/// The follower that goes on from the state at a path, which has the number `log` in faults.
fn start_after<R, O, I>(
    rt: &R,
    opener: &O,
    alloc: Global,
    state: &str,
    log: usize,
    plan: Plan,
    input: &mut Option<I>,
) -> Result<Follower, Fault>
where
    R: Threads + RandomSource + Sync,
    O: Opener,
    I: Source + Drop,
    requires { IfSome input.old (λ i. I.model.has_failed i ≡ false) }
    ensures started { IfOk result (λ start. StartsAt O.model O.Opened.model opener.now I.model
        (Some state.now) log input.old input.new start) }
    ensures refused { IfErr result (λ fault. RefusesState O.model O.Opened.model opener.now I.model
        state.now log input.old fault) }
    ensures left { IfSome input.new (λ i. I.model.has_failed i ≡ false) }
{
    let mut source = source_at(opener, state, input);
    let bytes = read_state_bytes(alloc, log, &mut source)?;
    let (executor, line) = read_start(rt, alloc, &bytes, plan)?;
    Ok(Follower::after(alloc, executor, log, line)?)
}

/// The follower to begin with. `input` is what is left of the input after the state.
fn start_of<R, O, I>(
    rt: &R,
    opener: &O,
    alloc: Global,
    state: &Option<String>,
    log: usize,
    plan: Plan,
    input: &mut Option<I>,
) -> Result<Follower, Fault>
where
    R: Threads + RandomSource + Sync,
    O: Opener,
    I: Source + Drop,
    requires { IfSome input.old (λ i. I.model.has_failed i ≡ false) }
    ensures started { IfOk result (λ start. StartsAt O.model O.Opened.model opener.now I.model
        (option_map string_bytes state.now) log input.old input.new start) }
    ensures begin { IfOk result (λ start. start.next ≡ record { log = 0; line = 1 }) }
    ensures refused { IfErr result (RefusesStart O.model O.Opened.model opener.now I.model
        (option_map string_bytes state.now) log input.old) }
    ensures left { IfSome input.new (λ i. I.model.has_failed i ≡ false) }
{
    match state {
        Some(path) => start_after(rt, opener, alloc, path.as_str(), log, plan, input),
        None => Ok(Follower::new(alloc)),
    }
}

/// The sources at the paths. If `paths` is None, the input is the only one.
fn sources_of<'a, R: Files, O: Opener, I: Source + Drop>(
    rt: &R,
    opener: &'a O,
    alloc: Global,
    paths: &'a Option<Vec<String>>,
    input: Option<I>,
) -> Result<Vec<KeptSource<Input<'a, O, I>>>, AllocError>
    requires { IfSome input (λ i. I.model.has_failed i ≡ false) }
    ensures at { IfOk result (λ sources. (left : _) × AreSourcesAt opener.now input left
        (paths_read (paths_of paths.now)) sources.items) }
    ensures failed { IfOk result
        (λ sources. All (λ s. (model_at O.model O.Opened.model I.model).has_failed s ≡ false)
        sources.items) }
{
    if let Some(paths) = paths {
        return sources_at(rt, opener, alloc, paths, false, input);
    }
    let source = match input {
        Some(input) => EitherSource::First(input),
        None => EitherSource::Second(MemorySource::new(&[])),
    };
    let mut sources = Vec::new(alloc);
    sources.push(KeptSource::new(alloc, EitherSource::Second(source), false))?;
    Ok(sources)
}

/// Follows the logs at the paths from `start`, where a hyphen means the input. If `paths` is None,
/// it follows the input alone.
fn follow_paths<R, O, I, W>(
    rt: &R,
    opener: &O,
    alloc: Global,
    plan: Plan,
    paths: &Option<Vec<String>>,
    each: bool,
    start: Follower,
    input: Option<I>,
    output: &mut W,
) -> Result<Follower, Fault>
where
    R: Files + Threads + RandomSource + Sync,
    O: Opener,
    I: Source + Drop,
    W: Sink,
    requires begin { start.next ≡ record { log = 0; line = 1 } }
    requires input { IfSome input (λ i. I.model.has_failed i ≡ false) }
    requires output { W.model.has_failed output.old ≡ false }

    ensures followed { IfOk result (λ last. FollowsFrom O.model O.Opened.model opener.now I.model
        start input each (paths_of paths.now) last (W.model.contents output.old)
        (W.model.contents output.new)) }
    ensures flushed { OnOk result (W.model.is_flushed output.new ≡ true) }
    ensures stopped { IfErr result (λ fault. ((fault ≡ Fault.Memory)
        × Keeps (W.model.contents output.old) (W.model.contents output.new))
        ⊎ StopsFrom O.model O.Opened.model opener.now I.model start input each
        (paths_of paths.now) fault (W.model.contents output.old) (W.model.contents output.new)) }
    ensures failed { IsErrOf result Fault.Write ↔ (W.model.has_failed output.new ≡ true) }
{
    let Ok(mut sources) = sources_of(rt, opener, alloc, paths, input) else {
        return Err(Fault::Memory);
    };
    follow(rt, alloc, start, &mut sources, each, plan, output)
}

/// Saves the state of the follower under the path, if there is one.
fn save_state<V: Saver>(
    alloc: Global,
    saver: &mut V,
    path: &Option<String>,
    last: &Follower,
) -> Result<(), Fault>
    ensures { MatchResult result
        (λ _. SavesState (save_relation V.model saver.old saver.new)
        (option_map string_bytes path.now) last.now)
        (CannotSave (save_relation V.model saver.old saver.new)
        (option_map string_bytes path.now) last.now) }
{
    let Some(path) = path else {
        return Ok(());
    };
    let state = state_text(alloc, last.executor())?;
    match saver.save(path.as_str(), &state) {
        Ok(()) => Ok(()),
        Err(_) => Err(Fault::Write),
    }
}

/// Follows the logs at the paths to their ends, and then saves the state.
fn follow_and_save<R, O, I, W, V>(
    rt: &R,
    opener: &O,
    saver: &mut V,
    plan: Plan,
    paths: &Option<Vec<String>>,
    options: &FollowOptions,
    input: I,
    output: &mut W,
) -> Result<(), Fault>
where
    R: AllocGlobal + Files + Threads + RandomSource + Sync,
    O: Opener,
    I: Source + Drop,
    W: Sink,
    V: Saver,
    requires input { I.model.has_failed input ≡ false }
    requires output { W.model.has_failed output.old ≡ false }

    ensures ends { let Is = text_relation O.model O.Opened.model opener.now I.model input in
        let Saving = save_relation V.model saver.old saver.new in
        let failed = W.model.has_failed output.new in
        let was = W.model.contents output.old in
        let now = W.model.contents output.new in
        MatchResult result
        (λ _. (last : _) × FollowsToEnds Is options.now (paths_of paths.now) last was now
        × SavesState Saving (save_of options.now) last)
        (λ fault. StopsBefore Is Saving options.now (paths_of paths.now) fault failed was now
        ⊎ ((last : _) × FollowsToEnds Is options.now (paths_of paths.now) last was now
        × CannotSave Saving (save_of options.now) last fault)) }
    ensures flushed { OnOk result (W.model.is_flushed output.new ≡ true) }
    ensures failed { W.model.has_failed output.new ≡ true → IsErrOf result Fault.Write }
{
    let alloc = rt.alloc();
    let log = count_logs(paths);
    let mut input = Some(input);
    let start = start_of(rt, opener, alloc, &options.state, log, plan, &mut input)?;
    let each = options.each;
    let last = follow_paths(rt, opener, alloc, plan, paths, each, start, input, output)?;
    let saved = save_state(alloc, saver, &options.save, &last);
    // The process ends soon, and the system then takes back all its pages at once.
    mem::forget(last);
    saved
}

/// Follows the logs at the paths, saves the state at the end, and returns the exit status. With
/// `--explain` a further line on standard error explains a fault.
pub(crate) fn do_follow<R, O, I, W, V>(
    rt: &R,
    opener: &O,
    saver: &mut V,
    plan: Plan,
    paths: Option<Vec<String>>,
    options: FollowOptions,
    input: I,
    output: &mut W,
) -> u8
where
    R: AllocGlobal + Eprint + Files + Threads + RandomSource + Sync,
    O: Opener,
    I: Source + Drop,
    W: Sink,
    V: Saver,
    requires input { I.model.has_failed input ≡ false }
    requires output { W.model.has_failed output.old ≡ false }

    ensures ends { EndsFollow (text_relation O.model O.Opened.model opener.now I.model input)
        (save_relation V.model saver.old saver.new) options (paths_of paths) result
        (W.model.has_failed output.new) (W.model.contents output.old)
        (W.model.contents output.new) }
    ensures flushed { result ≡ 0 → W.model.is_flushed output.new ≡ true }
    ensures failed { W.model.has_failed output.new ≡ true → result ≡ 4 }
{
    match follow_and_save(rt, opener, saver, plan, &paths, &options, input, output) {
        Ok(()) => 0,
        Err(fault) => {
            let status = report_fault(rt, fault);
            if options.explain {
                explain_stop(rt, fault, paths, &options, output.failed());
            }
            status
        }
    }
}
