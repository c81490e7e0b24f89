//! The meaning of a command line.
ghost use Rattle.std.specs.Prelude.{◌≡◌, ◌≢◌, ◌⊎◌, ◌↔◌, [], None, Some, IfOk};
ghost use Rattle.std.specs.Prelude.{codes, map, false, option_map, string_bytes, true};
ghost use Rattle.std.specs.Option.{IsSome};
ghost use Rattle.clap.specs.Words.{fault_of, first_of, found_of, kind_of, one_of, rows_of};
ghost use Rattle.clap.specs.Words.{subcommand_of, subcommand_rows_of, takes};
ghost use Rattle.epx_names.specs.Tasks.{HasInput};
ghost use Rattle.epx_words.specs.App.{epx_app};
ghost use Rattle.epx_words.specs.Requests.{AreFirstAndLogs, ArePathsOf, AsksToFollow, FitFlags};
ghost use Rattle.epx_words.specs.Requests.{FitsRows, IfFollow, IfText, IfWork, IsBare, IsMeaningOf};
ghost use Rattle.epx_words.specs.Requests.{IsText, IsWork, flags_of, task_name};
ghost use Rattle.epx_words.specs.ExitStatus.{IsTaken, IsTextStatus, status_of_kind};
ghost use Rattle.epx_words.specs.Subjects.{NamesAll, NamesLogs};
ghost use Rattle.epx_words.specs.SubcommandRows.{AsksForWork, IsCutOf, IsNumberIn, IsWorkersOf};
ghost use Rattle.epx_words.specs.SubcommandRows.{first_in, logs_in, name_in, rows_in, some_logs_in};

use crate::commands::command;
use crate::task_of::{has_flag, task_of};
use crate::words::{Flags, FollowOptions, Words};
use clap::error::ErrorKind;
use clap::{ArgMatches, Error};
use epx_names::Task;
use epx_types::{Memory, Plan};
use std::alloc::{AllocError, Global};

/// Owned copies of the texts.
fn copies(alloc: Global, texts: &[&str]) -> Result<Vec<String>, AllocError>
    ensures { IfOk result (λ copies. map string_bytes copies.items ≡ map (λ t. t.now) texts.now) }
{
    let mut copies = Vec::with_capacity(alloc, texts.len())?;
    for text in texts {
        copies.push(String::from_str(alloc, text)?)?;
    }
    Ok(copies)
}

/// The paths of the logs, in their order.
fn logs_of(alloc: Global, matches: &ArgMatches<'_>) -> Result<Vec<String>, AllocError>
    ensures { IfOk result (λ logs. map string_bytes logs.items
        ≡ logs_in (rows_of (found_of matches.now))) }
{
    match matches.get_strs("logs") {
        Some(logs) => copies(alloc, logs),
        None => Ok(Vec::new(alloc)),
    }
}

/// The paths of the logs. None if no log is named.
fn some_logs(alloc: Global, matches: &ArgMatches<'_>) -> Result<Option<Vec<String>>, AllocError>
    ensures { IfOk result (λ logs. option_map (λ list. map string_bytes list.items) logs
        ≡ some_logs_in (rows_of (found_of matches.now))) }
{
    if has_no_log(matches) {
        return Ok(None);
    }
    Ok(Some(logs_of(alloc, matches)?))
}

/// The path of the input besides the logs, and then the paths of the logs.
fn first_and_logs(alloc: Global, matches: &ArgMatches<'_>) -> Result<Vec<String>, AllocError>
    requires { IsSome (first_in (rows_of (found_of matches.now))) }
    ensures { IfOk result (λ paths.
        AreFirstAndLogs (rows_of (found_of matches.now)) (Some (map string_bytes paths.items))) }
{
    let first = matches.get_str("first").unwrap();
    let mut paths = logs_of(alloc, matches)?;
    paths.insert(0, String::from_str(alloc, first)?)?;
    Ok(paths)
}

/// The paths that the task reads.
fn paths_of(alloc: Global, task: Task, matches: &ArgMatches<'_>) -> Result<Vec<String>, AllocError>
    requires { HasInput task → IsSome (first_in (rows_of (found_of matches.now))) }
    ensures { IfOk result (λ paths.
        ArePathsOf task (rows_of (found_of matches.now)) (Some (map string_bytes paths.items))) }
{
    match task {
        Task::Resume | Task::Check | Task::CheckPrefix => first_and_logs(alloc, matches),
        Task::Verify | Task::Linear { .. } | Task::Replay => first_and_logs(alloc, matches),
        Task::Run | Task::Order | Task::Levels | Task::Blockers => logs_of(alloc, matches),
        Task::Graph | Task::Around { .. } => logs_of(alloc, matches),
        Task::Audit | Task::AuditAll | Task::Compare => logs_of(alloc, matches),
        Task::Why(_) | Task::Path(_, _) | Task::Trace { .. } => logs_of(alloc, matches),
    }
}

/// The plan of the options `--workers` and `--cut`. Clap has checked their ranges.
fn plan_of(matches: &ArgMatches<'_>) -> Plan
    requires workers { IsNumberIn 1 64 (one_of (codes "workers") (rows_of (found_of matches.now))) }
    requires cut { IsNumberIn 1 65536 (one_of (codes "cut") (rows_of (found_of matches.now))) }
    ensures workers { IsWorkersOf (rows_of (found_of matches.now)) result.workers }
    ensures cut { IsCutOf (rows_of (found_of matches.now)) result.cut }
{
    let workers = matches.get_one::<usize>("workers").unwrap();
    let cut = matches.get_one::<usize>("cut").unwrap();
    Plan::new(workers, cut).unwrap()
}

/// The text with status 2 if what is to name an instance, a key or a part of the graph names none.
fn refuse_subject(alloc: Global, name: &str) -> Result<Words, AllocError>
    ensures { IfOk result (IsText 2) }
{
    let why = if name == "trace" {
        "KEY is a text of 1 to 64 bytes"
    } else if name == "graph" {
        PART
    } else {
        "R.I is a replica below 256, a dot and a number below 2^64, as 0.7"
    };
    let text = format!(in alloc; "error: {why}\n\nFor more information, try '--help'.\n")?;
    Ok(Words::Text { text, status: 2 })
}

/// The text with status 2 if a status is asked for, and no log is named.
fn refuse_status(alloc: Global) -> Result<Words, AllocError>
    ensures { IfOk result (IsText 2) }
{
    let text = String::from_str(alloc, NO_LOG)?;
    Ok(Words::Text { text, status: 2 })
}

/// Whether no log is named.
fn has_no_log(matches: &ArgMatches<'_>) -> bool
    ensures { (result ≡ true) ↔ (logs_in (rows_of (found_of matches.now)) ≡ []) }
{
    match matches.get_strs("logs") {
        Some(logs) => logs.is_empty(),
        None => true,
    }
}

/// Whether a log is named wherever a status is asked for.
fn names_logs(matches: &ArgMatches<'_>) -> bool
    ensures { (result ≡ true) ↔ NamesLogs (rows_of (found_of matches.now)) }
{
    !has_flag(matches, "exit-code") || !has_no_log(matches)
}

/// The flags of the matched subcommand.
fn flags_of(matches: &ArgMatches<'_>) -> Flags
    ensures { FitFlags result (rows_of (found_of matches.now)) }
{
    Flags {
        exit_code: has_flag(matches, "exit-code"),
        explain: has_flag(matches, "explain"),
        quiet: has_flag(matches, "quiet"),
    }
}

/// A copy of the value of an option. None if the option is not there.
fn value_of(
    alloc: Global,
    matches: &ArgMatches<'_>,
    option: &str,
) -> Result<Option<String>, AllocError>
    ensures { IfOk result (λ value. option_map string_bytes value
        ≡ first_of option.now (rows_of (found_of matches.now))) }
{
    match matches.get_str(option) {
        Some(text) => Ok(Some(String::from_str(alloc, text)?)),
        None => Ok(None),
    }
}

/// What the subcommand `follow` asks for.
fn follow_of(alloc: Global, matches: &ArgMatches<'_>) -> Result<Words, AllocError>
    requires { AsksForWork (Some (codes "follow", rows_of (found_of matches.now))) }
    ensures { IfOk result (IsMeaningOf (Some (codes "follow", rows_of (found_of matches.now)))) }
{
    let plan = plan_of(matches);
    let paths = some_logs(alloc, matches)?;
    let options = FollowOptions {
        each: has_flag(matches, "each"),
        explain: has_flag(matches, "explain"),
        quiet: has_flag(matches, "quiet"),
        state: value_of(alloc, matches, "state")?,
        save: value_of(alloc, matches, "save")?,
    };
    Ok(Words::Follow {
        plan,
        paths,
        options,
    })
}

/// What the matched subcommand asks for.
fn work_of(alloc: Global, matches: &ArgMatches<'_>) -> Result<Words, AllocError>
    requires { AsksForWork (subcommand_rows_of matches.now) }
    ensures { IfOk result (IsMeaningOf (subcommand_rows_of matches.now)) }
{
    let Some((name, given)) = matches.subcommand() else {
        unreachable!();
    };
    if name == "follow" {
        return follow_of(alloc, given);
    }
    let Some(task) = task_of(name, given) else {
        return refuse_subject(alloc, name);
    };
    if !names_logs(given) {
        return refuse_status(alloc);
    }
    let plan = plan_of(given);
    let paths = Some(paths_of(alloc, task, given)?);
    let flags = flags_of(given);
    if flags.exit_code || flags.explain || flags.quiet {
        return Ok(Words::WorkWith {
            task,
            plan,
            paths,
            flags,
        });
    }
    Ok(Words::Work { task, plan, paths })
}

/// The exit status after the text of an error of this kind.
fn status_of(kind: ErrorKind) -> u8
    ensures { result ≡ status_of_kind kind }
{
    match kind {
        ErrorKind::DisplayHelp | ErrorKind::DisplayVersion => 0,
        _ => 2,
    }
}

/// What `--around` and `--steps` of `graph` have to say.
const PART: &str =
    "'--around R.I' has a replica below 256, a dot and a number below 2^64, as 0.7,\n\
and '--steps N', which goes with it alone, a number below 2^64";

/// The text if a status is asked for, and no log is named.
const NO_LOG: &str = "error: with '--exit-code' there must be a LOG, '-' for standard input\n\n\
For more information, try '--help'.\n";

/// Added to the text for an unknown subcommand, which is mostly the path of a log.
const HINT: &str = "To execute logs, put 'run' before them: 'epx run LOG..'.\n";

/// The text for a command line without work.
fn text_of(alloc: Global, error: &Error) -> Result<Words, Memory>
    ensures kind { IfOk result (λ _. kind_of error.now ≢ ErrorKind.OutOfMemory) }
    ensures status { IfOk result (IsText (status_of_kind (kind_of error.now))) }
{
    if error.kind() == ErrorKind::OutOfMemory {
        return Err(Memory);
    }
    let hint = if error.kind() == ErrorKind::InvalidSubcommand {
        HINT
    } else {
        ""
    };
    Ok(Words::Text {
        text: format!(in alloc; "{error}{hint}")?,
        status: status_of(error.kind()),
    })
}

/// Whether the words name no subcommand: there is no second word, or a hyphen alone.
fn is_bare(words: &[&str]) -> bool
    ensures { (result ≡ true) ↔ IsBare (map (λ w. w.now) words.now) }
{
    words.len() <= 1 || words.len() == 2 && words[1] == "-"
}

/// Reads a command line, whose first word is the program's name.
///
/// The result is `Work` exactly if clap finds no fault and the words name all that they ask about,
/// or if the words name no subcommand: then it is `Run` with 4 workers, 256 items a piece and no
/// paths. Otherwise it is `Text`. The words have to name an instance or a key where the subcommand
/// is about one, and a log where `--exit-code` is there. The one error is running out of memory.
/// With `--exit-code`, `--explain` or `--quiet` the work is `WorkWith`. `check --prefix` is the
/// task `CheckPrefix`, and `why --reaches` the task `Path`. `linear` without `--skew` has the skew
/// 0. The subcommand `follow` is no task: in place of `Work` it is `Follow`.
pub fn read_words(alloc: Global, words: &[&str]) -> Result<Words, Memory>
    ensures bare { IsBare (map (λ w. w.now) words.now)
        → IfOk result (λ asked. asked ≡ Words.Work Task.Run (record { workers = 4; cut = 256 })
        None) }
    ensures task { let texts = map (λ w. w.now) words.now in
        ¬ IsBare texts → IfOk result
        (IfWork (λ task plan paths. name_in (subcommand_of epx_app texts)
        ≡ Some (task_name task))) }
    ensures workers { let texts = map (λ w. w.now) words.now in
        ¬ IsBare texts → IfOk result
        (IfWork (λ task plan paths. IsWorkersOf (rows_in (subcommand_of epx_app texts))
        plan.workers)) }
    ensures cut { let texts = map (λ w. w.now) words.now in
        ¬ IsBare texts → IfOk result
        (IfWork (λ task plan paths. IsCutOf (rows_in (subcommand_of epx_app texts)) plan.cut)) }
    ensures paths { let texts = map (λ w. w.now) words.now in
        ¬ IsBare texts → IfOk result
        (IfWork (λ task plan paths. ArePathsOf task (rows_in (subcommand_of epx_app texts))
        paths)) }
    ensures parts { let texts = map (λ w. w.now) words.now in
        ¬ IsBare texts → IfOk result
        (IfWork (λ task plan paths. FitsRows task (rows_in (subcommand_of epx_app texts)))) }
    ensures flags { let texts = map (λ w. w.now) words.now in
        ¬ IsBare texts → IfOk result (λ asked. IsWork asked
        → FitFlags (flags_of asked) (rows_in (subcommand_of epx_app texts))) }
    ensures followed { let texts = map (λ w. w.now) words.now in
        ¬ IsBare texts → IfOk result (IfFollow (AsksToFollow (subcommand_of epx_app texts))) }
    ensures taken { let texts = map (λ w. w.now) words.now in
        ¬ IsBare texts → IfOk result (λ asked.
        IsWork asked ↔ IsTaken (fault_of epx_app texts) (subcommand_of epx_app texts)) }
    ensures refused { let texts = map (λ w. w.now) words.now in
        ¬ IsBare texts → IfOk result (IfText (λ status.
        (takes epx_app texts ≡ false) ⊎ (¬ NamesAll (subcommand_of epx_app texts)))) }
    ensures status { let texts = map (λ w. w.now) words.now in
        ¬ IsBare texts → IfOk result (IfText
        (IsTextStatus (fault_of epx_app texts) (subcommand_of epx_app texts))) }
{
    if is_bare(words) {
        return Ok(Words::Work {
            task: Task::Run,
            plan: Plan::new(4, 256).unwrap(),
            paths: None,
        });
    }
    match command(alloc)?.try_get_matches_from(words) {
        Ok(matches) => Ok(work_of(alloc, &matches)?),
        Err(error) => text_of(alloc, &error),
    }
}
